ghost use Rattle.std.specs.Prelude.{◌≡◌, ◌≤◌, ◌==◌, false, position, IfNone, IfSome, Some};
ghost use Rattle.sim_script.specs.Turns.{actor, count, turns_of, fits};

use crate::numbers::numeral;

/// Steps that one actor takes, one after the other.
#[derive(Clone, Copy)]
pub struct Turns {
    /// The number of the actor.
    pub actor: u8,
    /// How many steps it takes.
    pub count: u32,
}

/// The greatest number of an actor.
const MOST_ACTOR: u32 = 31;

/// The most steps of a schedule, and of one word.
pub const MOST_STEPS: u32 = 1_000_000;

/// An actor: one or two digits.
fn actor(text: &[u8]) -> Option<u8>
    ensures { result ≡ actor text.now }
{
    match numeral(text, 2) {
        Some(actor) if actor <= MOST_ACTOR => Some(actor as u8),
        _ => None,
    }
}

/// A count: one to seven digits.
fn count(text: &[u8]) -> Option<u32>
    ensures { result ≡ count text.now }
{
    match numeral(text, 7) {
        Some(count) if 1 <= count && count <= MOST_STEPS => Some(count),
        _ => None,
    }
}

/// Where the first `x` of a word stands.
fn cross_in(word: &[u8]) -> Option<usize>
    ensures { result ≡ position (λ byte. byte == 120) word.now }
{
    word.iter().position(|byte| *byte == b'x')
}

/// The turns of a word.
fn turns_of(word: &[u8]) -> Option<Turns>
    ensures { result ≡ turns_of word.now }
{
    match cross_in(word) {
        None => Some(Turns {
            actor: actor(word)?,
            count: 1,
        }),
        Some(k) => Some(Turns {
            actor: actor(&word[..k])?,
            count: count(&word[k + 1..])?,
        }),
    }
}

/// The turns of a word, if it is any and they have at most so many steps.
pub fn turns_within(word: &[u8], most: usize) -> Option<Turns>
    ensures none { IfNone result (fits most word.now ≡ false) }
    ensures some { IfSome result (λ turns. turns_of word.now ≡ Some turns) }
    ensures few { IfSome result (λ turns. turns.count ≤ most) }
{
    let turns = turns_of(word)?;
    if turns.count as usize <= most {
        Some(turns)
    } else {
        None
    }
}
