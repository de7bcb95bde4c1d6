ghost use Rattle.std.specs.Prelude.{◌≡◌, ◌≤◌, ◌++◌, OnOk, IfOk, IfErr, Ok};
ghost use Rattle.sim_script.specs.Turns.{steps_of};
ghost use Rattle.sim_script.specs.Schedules.{schedule, IsFault};

use crate::turns::{MOST_STEPS, Turns, turns_within};
use crate::words::first_word;
use std::alloc::{AllocError, Global};

/// Why a schedule is not read.
#[derive(Clone, Copy, Debug, PartialEq, Eq)]
pub enum ScheduleFault {
    /// The first byte, counted from 0, of the first word that is no turn, or with which there are more than 1,000,000 steps.
    Byte { at: u64 },
    /// There is not enough memory. This says nothing of the text.
    Memory,
}

/// Puts the steps of turns behind others.
fn append(steps: &mut Vec<u8>, turns: Turns) -> Result<(), AllocError>
    ensures { OnOk result (steps.new.items ≡ steps.old.items ++ steps_of turns) }
{
    steps.resize(steps.len() + turns.count as usize, turns.actor)
}

/// The actors of a schedule's steps, in order.
///
/// A schedule is a text of words, between spaces, tabs and ends of lines. A word is the number of an actor, 0 to 31 in
/// one or two digits, and takes one step of it. With `x` and a count behind it, 1 to 1,000,000 in one to seven digits, it
/// takes so many. All words together take at most 1,000,000 steps. A text without words is the schedule of no steps.
pub fn read_schedule(alloc: Global, bytes: &[u8]) -> Result<Vec<u8>, ScheduleFault>
    ensures steps { IfOk result (λ steps. schedule bytes.now ≡ Ok steps.items) }
    ensures fault { IfErr result (IsFault bytes.now) }
{
    let mut steps = Vec::new(alloc);
    let mut at = 0;
    let mut rest = bytes;
    while let Some((blanks, word, behind)) = first_word(rest) {
        at += blanks;
        rest = behind;
        let left = MOST_STEPS as usize - steps.len();
        let Some(turns) = turns_within(word, left) else {
            return Err(ScheduleFault::Byte { at: at as u64 });
        };
        let Ok(()) = append(&mut steps, turns) else {
            return Err(ScheduleFault::Memory);
        };
        at += word.len() + 1;
    }
    Ok(steps)
}
