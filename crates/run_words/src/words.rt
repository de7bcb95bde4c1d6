ghost use Rattle.std.specs.Prelude.{◌≡◌, ◌≤◌, ◌+◌, ◌*◌, ◌⊎◌, IfOk, IfErr, None, Some, Ok, Err, map, string_bytes};
ghost use Rattle.run_words.specs.Jobs.{job, refusal, value_refusal, pixels, shows_frames};
ghost use Rattle.run_words.specs.Values.{HasRanges, job_of};
ghost use Rattle.run_words.specs.declared.words.WordsFault.TheVariants.{Memory};

use crate::command::CommandName;
use crate::job::Job;
use crate::option::OptionName;
use crate::screen::{first_stray, first_unfit, names_of, suits};
use crate::value::job_of;
use clap_words::Given;
use std::alloc::{AllocError, Global};

/// Why words are no job, tested in this order.
#[derive(Clone, Copy, Debug, PartialEq, Eq)]
pub enum WordsFault {
    /// No known command stands first.
    Command,
    /// The word at this place, the command being at 1, is neither a file nor an option.
    Word { at: u64 },
    /// The options and files do not suit the command.
    Options,
    /// The value of an option is not of its form or out of its range.
    Value { name: OptionName },
    /// All frames together would have this many pixels, more than 50,000,000.
    Pixels { n: u64 },
    /// There was no memory.
    Memory,
}

impl From<AllocError> for WordsFault {
    ghost from_gives = { λ _ e. e ≡ Memory };

    fn from(_error: AllocError) -> WordsFault {
        WordsFault::Memory
    }
}

/// The job that the words after the program's name stand for, or the first refusal that applies.
pub fn read_words(alloc: Global, words: &[String]) -> Result<Job, WordsFault>
    ensures accepted { IfOk result (λ j. job (map string_bytes words.now) ≡ Ok j) }
    ensures refused { IfErr result (λ e. (e ≡ Memory) ⊎ (job (map string_bytes words.now) ≡ Err e)) }
    ensures ranges { IfOk result (λ j. HasRanges j) }
{
    let Some((first, rest)) = words.split_first() else {
        return Err(WordsFault::Command);
    };
    let Some(command) = CommandName::of_word(first) else {
        return Err(WordsFault::Command);
    };
    read_rest(alloc, command, rest)
}

/// The job of a command and the words after it, or the first refusal that applies.
fn read_rest(alloc: Global, command: CommandName, words: &[String]) -> Result<Job, WordsFault>
    ensures accepted { IfOk result (λ j. (refusal command (map string_bytes words.now) ≡ None) × (j ≡ job_of command (map string_bytes words.now))) }
    ensures refused { IfErr result (λ e. (e ≡ Memory) ⊎ (refusal command (map string_bytes words.now) ≡ Some e)) }
    ensures ranges { IfOk result (λ j. HasRanges j) }
{
    if let Some(at) = first_stray(words) {
        return Err(WordsFault::Word { at: at as u64 + 2 });
    }
    if !suits(command, words) {
        return Err(WordsFault::Options);
    }
    let names = names_of(alloc, command)?;
    let given = Given::read(alloc, names.as_slice(), words)?;
    read_values(alloc, command, &given)
}

/// The job of a command and of words that suit it, or the first refusal of their values.
fn read_values(alloc: Global, command: CommandName, given: &Given<'_>) -> Result<Job, WordsFault>
    ensures accepted { IfOk result (λ j. (value_refusal command (map string_bytes given.now.words.now) ≡ None) × (j ≡ job_of command (map string_bytes given.now.words.now))) }
    ensures refused { IfErr result (λ e. (e ≡ Memory) ⊎ (value_refusal command (map string_bytes given.now.words.now) ≡ Some e)) }
    ensures ranges { IfOk result (λ j. HasRanges j) }
{
    if let Some(name) = first_unfit(given) {
        return Err(WordsFault::Value { name });
    }
    let job = job_of(alloc, command, given)?;
    let n = pixels(&job);
    if shows_frames(command) && n > 50_000_000 {
        return Err(WordsFault::Pixels { n });
    }
    Ok(job)
}

/// The pixels of all frames of the viewers and of the last frame.
fn pixels(job: &Job) -> u64
    requires { HasRanges job.now }
    ensures { result ≡ pixels job.now }
{
    pixels_of(job.viewers, job.frames, job.size)
}

/// The pixels of so many frames of each viewer and of one more.
fn pixels_of(viewers: u32, frames: u32, size: (u32, u32)) -> u64
    requires viewers { viewers ≤ 16 }
    requires frames { frames ≤ 100 }
    requires width { size.0 ≤ 4096 }
    requires height { size.1 ≤ 4096 }
    ensures { result ≡ (viewers * frames + 1) * size.0 * size.1 }
{
    let shown = u64::from(viewers) * u64::from(frames) + 1;
    shown * u64::from(size.0) * u64::from(size.1)
}

/// Whether a command shows frames while it loads.
fn shows_frames(command: CommandName) -> bool
    ensures { result ≡ shows_frames command }
{
    match command {
        CommandName::Replay | CommandName::Live => true,
        _ => false,
    }
}

#[cfg(test)]
mod job_tests;
#[cfg(test)]
mod tests;
