//! Readers: each reads slots while filers file, and waits for nobody.
ghost use Rattle.std.specs.Prelude.{◌≡◌, ◌+◌, ◌<◌, true};
ghost use Rattle.list_machine.specs.Words.{decode};
ghost use Rattle.list_table.specs.GuestMoves.{IsSlotWord};

use list_table::{GuestSeat, SharedLists};
use std::marker::Model;
use std::sync::ledger::Ledger;
use step_count::Steps;

/// A reader of lists that threads share. Contracts see the name of its lists, and what its guest knows of them.
#[derive(Drop)]
pub struct Reader {
    seat: GuestSeat,
    birth: u32,
}

impl Model for Reader {
    ghost use Rattle.std.specs.Prelude.{◌≡◌, true};
    ghost use Rattle.list_table.specs.Tables.{GuestValue};

    ghost Value = { GuestValue };

    ghost view = { λ r. r.seat };

    ghost invariant = { λ r. (r.birth ≡ r.seat.guest.birth) × (r.seat.guest.out ≡ true) };
}

impl Reader {
    /// A reader with this seat, which was made when `birth` lists were shut.
    pub fn new(seat: GuestSeat, birth: u32) -> Reader
        requires birth { birth ≡ seat.guest.birth }
        requires out { seat.guest.out ≡ true }
        ensures { result ≡ seat }
    {
        Reader { seat, birth }
    }

    /// How many lists were shut when the reader was made.
    pub fn birth(&self) -> u32
        ensures { result ≡ self.now.guest.birth }
    {
        self.birth
    }

    /// The word of a slot, which agrees with all that the reader knows of it. One step is one load.
    pub fn slot<L: Ledger>(
        &mut self,
        lists: &SharedLists,
        chunk: u32,
        i: u32,
        steps: &mut Steps<L>,
    ) -> u64
        requires name { self.old.name ≡ lists.now.name }
        requires chunk { chunk < lists.now.chunks }
        requires within { i < 256 }
        ensures same { self.new ≡ self.old }
        ensures word { IsSlotWord self.old.guest chunk i (decode result) }
        ensures steps { steps.new ≡ steps.old + 1 }
    {
        steps.tick();
        lists.slot(&mut self.seat, chunk, i)
    }

    /// The reader's seat.
    pub fn into_seat(self) -> GuestSeat
        ensures seat { result ≡ self }
        ensures out { result.guest.out ≡ true }
    {
        let Reader { seat, .. } = self;
        seat
    }
}
