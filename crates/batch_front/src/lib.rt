//! A value that passes take turns with, and one record of what was done in those turns.
#![tactic(auto)]

mod chronicle;
mod front;
mod laws;
mod pass;
mod rule;

pub use chronicle::Chronicle;
pub use front::Front;
pub use laws::{one_pass_holds_the_turn, passes_see_one_record};
pub use pass::{News, Pass, Pen, Turn};
pub use record_model::{Act, Event};
