ghost use Rattle.std.specs.Prelude.{◌≡◌, ◌+◌, ◌<◌, IfSome, IfOk, not, map, position, find, drop, length, ◌&&◌, is_some, option_map, string_bytes, MatchOption, true, false};
ghost use Rattle.std.specs.Char.{is_ascii_lowercase};
ghost use Rattle.std.specs.List.{list_any, list_all};
ghost use Rattle.run_words.specs.Options.{row_value};
ghost use Rattle.clap_words.specs.Words.{is_file, is_name, gives, value_of};
ghost use Rattle.run_words.specs.Screens.{begins_with_name, is_option, is_stray, takes, names_in, names_of, is_known, stands_once, is_there, files_suit, suits, is_fit, first_unfit};

use crate::command::{CommandName, is_same};
use crate::form::fits;
use crate::option::{OptionName, OptionRow};
use crate::table::options;
use clap_words::Given;
use std::alloc::{AllocError, Global};

/// Whether a word names a file: it is not empty and does not begin with `-`.
pub fn is_file(word: &str) -> bool
    ensures { result ≡ is_file word.now }
{
    match word.as_bytes() {
        [] => false,
        [first, ..] => *first != b'-',
    }
}

/// Whether a word is `--`, lower-case letters, `=` and any text.
fn is_option(word: &str) -> bool
    ensures { result ≡ is_option word.now }
{
    match word.as_bytes() {
        [b'-', b'-', rest @ ..] => begins_with_name(rest),
        _ => false,
    }
}

/// Whether a text begins with lower-case letters, at least one, and then `=`.
fn begins_with_name(text: &[u8]) -> bool
    ensures { result ≡ begins_with_name text.now }
{
    match end_of_name(text) {
        Some(end) => end > 0 && text[end] == b'=',
        None => false,
    }
}

/// The place of the first byte that is no lower-case letter.
fn end_of_name(text: &[u8]) -> Option<usize>
    ensures value { result ≡ position (λ byte. not (is_ascii_lowercase byte)) text.now }
    ensures within { IfSome result (λ end. end < length text.now) }
{
    text.iter().position(|byte| !byte.is_ascii_lowercase())
}

/// The place of the first word that is neither a file nor an option.
pub(crate) fn first_stray(words: &[String]) -> Option<usize>
    ensures value { result ≡ position (λ word. is_stray word) (map string_bytes words.now) }
    ensures within { IfSome result (λ at. at < length words.now) }
{
    words
        .iter()
        .position(|word| !(is_file(word) || is_option(word)))
}

/// The value that a word gives, if it is the option of this name.
fn value<'a>(word: &'a str, name: &str) -> Option<&'a str>
    ensures { MatchOption result (gives name.now word.now ≡ false) (λ text. (gives name.now word.now ≡ true) × (text.now ≡ drop (length name.now + 3) word.now)) }
{
    word.strip_prefix("--")?
        .strip_prefix(name)?
        .strip_prefix('=')
}

/// Whether a word is the option of this name.
fn gives(word: &str, name: &str) -> bool
    ensures { result ≡ gives name.now word.now }
{
    value(word, name).is_some()
}

/// The value of the first option of this name.
pub(crate) fn value_of<'a>(words: &'a [String], name: &str) -> Option<&'a str>
    ensures { option_map (λ text. text.now) result ≡ value_of name.now (map string_bytes words.now) }
{
    value(find_option(words, name)?, name)
}

/// The first option of this name.
fn find_option<'a>(words: &'a [String], name: &str) -> Option<&'a String>
    ensures { option_map (λ word. word.now) result ≡ find (λ word. gives name.now (string_bytes word)) words.now }
{
    words.iter().find(|word| gives(word, name))
}

/// Whether a command takes an option.
fn takes(row: &OptionRow, command: CommandName) -> bool
    ensures { result ≡ takes (row_value row.now) command }
{
    row.commands.iter().any(|taking| is_same(*taking, command))
}

/// The words of the options that a command takes.
pub(crate) fn names_of(alloc: Global, command: CommandName) -> Result<Vec<&'static str>, AllocError>
    ensures { IfOk result (λ names. map (λ name. name.now) names.items ≡ names_of command) }
{
    names_in(alloc, options(), command)
}

/// The words of these options that a command takes.
fn names_in(
    alloc: Global,
    rows: &'static [OptionRow],
    command: CommandName,
) -> Result<Vec<&'static str>, AllocError>
    ensures { IfOk result (λ names. map (λ name. name.now) names.items ≡ names_in command (map row_value rows.now)) }
{
    let mut names = Vec::new(alloc);
    for row in rows {
        if takes(row, command) {
            names.push(row.word)?;
        }
    }
    Ok(names)
}

/// Whether a word is a file or an option that the command takes.
fn is_known(command: CommandName, word: &str) -> bool
    ensures { result ≡ is_known command word.now }
{
    is_file(word) || is_taken(options(), command, word)
}

/// Whether a word is one of these options and the command takes it.
fn is_taken(rows: &[OptionRow], command: CommandName, word: &str) -> bool
    ensures { result ≡ list_any (λ row. takes (row_value row) command && gives row.word.now word.now) rows.now }
{
    rows.iter()
        .any(|row| takes(row, command) && gives(word, row.word))
}

/// Whether an option stands at most once.
fn stands_once(words: &[String], row: &OptionRow) -> bool
    ensures { result ≡ stands_once (map string_bytes words.now) (row_value row.now) }
{
    words.iter().filter(|word| gives(word, row.word)).count() <= 1
}

/// Whether an option is there, if the command requires it.
fn is_there(command: CommandName, words: &[String], row: &OptionRow) -> bool
    ensures { result ≡ is_there command (map string_bytes words.now) (row_value row.now) }
{
    !(row.required && takes(row, command)) || value_of(words, row.word).is_some()
}

/// Whether a command takes files that stand or do not stand there, given whether points are generated.
fn files_suit(command: CommandName, files: bool, generated: bool) -> bool
    ensures { result ≡ files_suit command files generated }
{
    match command {
        CommandName::Demo => !files,
        CommandName::Live => files != generated,
        _ => files,
    }
}

/// Whether the options and files suit the command.
pub(crate) fn suits(command: CommandName, words: &[String]) -> bool
    ensures { result ≡ suits command (map string_bytes words.now) }
{
    let known = are_known(command, words);
    let rows = options();
    let once = stand_once(rows, words);
    let there = are_there(rows, command, words);
    let generated = value_of(words, "generate").is_some();
    known & once & there & files_suit(command, has_file(words), generated)
}

/// Whether each word is a file or an option that the command takes.
fn are_known(command: CommandName, words: &[String]) -> bool
    ensures { result ≡ list_all (λ word. is_known command (string_bytes word)) words.now }
{
    words.iter().all(|word| is_known(command, word))
}

/// Whether each option stands at most once.
fn stand_once(rows: &[OptionRow], words: &[String]) -> bool
    ensures { result ≡ list_all (λ row. stands_once (map string_bytes words.now) (row_value row)) rows.now }
{
    rows.iter().all(|row| stands_once(words, row))
}

/// Whether each option is there that the command requires.
fn are_there(rows: &[OptionRow], command: CommandName, words: &[String]) -> bool
    ensures { result ≡ list_all (λ row. is_there command (map string_bytes words.now) (row_value row)) rows.now }
{
    rows.iter().all(|row| is_there(command, words, row))
}

/// Whether a word names a file.
fn has_file(words: &[String]) -> bool
    ensures { result ≡ list_any (λ word. is_file (string_bytes word)) words.now }
{
    words.iter().any(|word| is_file(word))
}

/// Whether an option's value is of its form, if the option is there.
fn is_fit(given: &Given<'_>, row: &OptionRow) -> bool
    requires { is_name row.now.word.now ≡ true }
    ensures { result ≡ is_fit (map string_bytes given.now.words.now) (row_value row.now) }
{
    match given.value(row.word) {
        Some(text) => fits(row.form, text),
        None => true,
    }
}

/// The first option whose value is not of its form.
pub(crate) fn first_unfit(given: &Given<'_>) -> Option<OptionName>
    ensures { result ≡ first_unfit (map string_bytes given.now.words.now) }
{
    Some(find_unfit(options(), given)?.name)
}

/// The first of these options whose value is not of its form.
fn find_unfit<'a>(rows: &'a [OptionRow], given: &Given<'_>) -> Option<&'a OptionRow>
    requires { list_all (λ row. is_name row.word.now) rows.now ≡ true }
    ensures { option_map (λ row. row.now) result ≡ find (λ row. not (is_fit (map string_bytes given.now.words.now) (row_value row))) rows.now }
{
    for row in rows {
        if !is_fit(given, row) {
            return Some(row);
        }
    }
    None
}
