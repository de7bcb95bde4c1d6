ghost use Rattle.std.specs.Prelude.{◌≡◌, IfOk, map, option_map, string_bytes, true};
ghost use Rattle.clap.specs.Words.{first_value, found_of};
ghost use Rattle.clap_words.specs.Words.{Text, are_words, files_in, files_of, is_name, value_of};

use crate::command::read;
use clap::ArgMatches;
use std::alloc::{AllocError, Global};

/// Words, each a file or one of the options of a command, and what `clap` finds in them.
#[derive(Drop)]
pub struct Given<'a> {
    pub words: &'a [String],
    matches: ArgMatches<'a>,
    ghost values: { (name : Text) → is_name name ≡ true → first_value (found_of matches) name ≡ value_of name (map string_bytes words.now) },
    ghost files: { files_in matches ≡ files_of (map string_bytes words.now) },
}

impl<'a> Given<'a> {
    /// What these words give to a command with options of these names.
    pub fn read(
        alloc: Global,
        names: &'a [&'a str],
        words: &'a [String],
    ) -> Result<Given<'a>, AllocError>
        requires { are_words (map (λ s. s.now) names.now) (map string_bytes words.now) ≡ true }
        ensures { IfOk result (λ given. given.words.now ≡ words.now) }
    {
        match read(alloc, names, words) {
            Ok(matches) => Ok(Given { words, matches }),
            Err(_) => Err(AllocError),
        }
    }

    /// The value of an option, if it was given. Of a name that the command does not have there is none.
    pub fn value(&self, name: &str) -> Option<&'a str>
        requires { is_name name.now ≡ true }
        ensures { option_map (λ text. text.now) result ≡ value_of name.now (map string_bytes self.now.words.now) }
    {
        self.matches.get_str(name)
    }

    /// The files, in order.
    pub fn files(&self, alloc: Global) -> Result<Vec<String>, AllocError>
        ensures { IfOk result (λ files. map string_bytes files.items ≡ files_of (map string_bytes self.now.words.now)) }
    {
        match self.matches.get_strs("FILES") {
            Some(files) => owned(alloc, files),
            None => Ok(Vec::new(alloc)),
        }
    }
}

/// The texts, each with memory of its own.
fn owned(alloc: Global, texts: &[&str]) -> Result<Vec<String>, AllocError>
    ensures { IfOk result (λ owned. map string_bytes owned.items ≡ map (λ s. s.now) texts.now) }
{
    let mut owned = Vec::new(alloc);
    for text in texts {
        owned.push(String::from_str(alloc, text)?)?;
    }
    Ok(owned)
}
