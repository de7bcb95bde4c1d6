//! The record of a store: what its passes admitted, published and looked at, in order. The data types that its
//! definitions speak of, the definitions (in `specs/`), and laws about them as small public functions.
#![tactic(auto)]

mod event;
mod laws;

pub use event::{Act, Event};
pub use laws::{admissions_go_on, events_add_to_their_own, journals_go_on};
