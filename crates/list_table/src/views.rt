//! What the seats of a table of lists know. No value of these types is made: contracts speak of them.

use list_machine::{Guest, Owner};
use std::collections::LinkedList;

/// What the owner noted of a list: the items that it placed in the owned chain, in order, and what its
/// marks found in the claimed slots, in order.
pub struct Notes {
    pub placed: LinkedList<u32>,
    pub marked: LinkedList<Option<u32>>,
}

/// All that the owner knows: its view as the machine has it, and its notes of each list.
pub struct Ledger {
    pub owner: Owner,
    pub notes: LinkedList<Notes>,
}

/// The view of a seat: the owner's, or that of a guest.
pub enum View {
    Owns(Ledger),
    Visits(Guest),
}
