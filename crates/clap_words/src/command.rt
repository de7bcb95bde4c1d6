ghost use Rattle.std.specs.Prelude.{◌≡◌, IfErr, IfOk, filter, map, string_bytes, true};
ghost use Rattle.clap.specs.Words.{app_of, first_value, found_of, kind_of};
ghost use Rattle.clap_words.specs.Words.{Text, are_words, files_in, is_file, is_name, value_of, words_app};

use clap::error::ErrorKind;
use clap::{Arg, ArgAction, ArgMatches, Command, Error};
use std::alloc::{AllocError, Global};

/// What `clap` finds in words that it takes, by a command with options of these names.
pub(crate) fn read<'a>(
    alloc: Global,
    names: &'a [&'a str],
    words: &'a [String],
) -> Result<ArgMatches<'a>, Error>
    requires { are_words (map (λ s. s.now) names.now) (map string_bytes words.now) ≡ true }
    ensures memory { IfErr result (λ e. kind_of e ≡ ErrorKind.OutOfMemory) }
    ensures values { IfOk result (λ m. (name : Text) → is_name name ≡ true
        → first_value (found_of m) name ≡ value_of name (map string_bytes words.now)) }
    ensures files { IfOk result (λ m. files_in m ≡ filter (λ word. is_file word) (map string_bytes words.now)) }
{
    let command = command_of(alloc, names)?;
    command.try_get_matches_from(words)
}

/// The command with an option of each name, which takes a text behind `=`, and with files. It has no option of
/// its own, neither for help nor for a version.
fn command_of<'a>(alloc: Global, names: &'a [&'a str]) -> Result<Command<'a>, AllocError>
    ensures { IfOk result (λ c. app_of c ≡ words_app (map (λ s. s.now) names.now)) }
{
    let mut command = Command::new(alloc, "simlod")
        .no_binary_name(true)
        .disable_help_flag(true);
    for name in names {
        let option = Arg::new(alloc, name).long(name).action(ArgAction::Set);
        command = command.arg(option)?;
    }
    let files = Arg::new(alloc, "FILES").action(ArgAction::Append);
    command.arg(files)
}
