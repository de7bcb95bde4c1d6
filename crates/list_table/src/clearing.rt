//! The steps by which the owner clears a shut list that nobody reaches any more: its own link, then each slot and
//! the link of each chunk, and then its chunks are free.
ghost use Rattle.std.specs.Prelude.{◌≡◌, ◌<◌};
ghost use Rattle.list_table.specs.OwnerMoves.{MayBegin, after_begin, MayClearSlot, MayClearLink, after_clear, IsAllClear, after_end};

use crate::SharedLists;
use crate::lists::{load, store};
use crate::rule::Aim;
use crate::seats::OwnerSeat;
use std::marker::Brand;

impl SharedLists {
    /// Begins to clear the next shut list, with its own link.
    pub fn begin_clearing(&self, seat: &mut OwnerSeat, list: u32)
        requires name { seat.old.name ≡ self.now.name }
        requires list { list < self.now.lists }
        requires may { MayBegin seat.old.ledger list }
        ensures name { seat.new.name ≡ seat.old.name }
        ensures ledger { seat.new.ledger ≡ after_begin seat.old.ledger list }
    {
        let word = self.link_place(list, None);
        let aim = Aim {
            list,
            behind: None,
            number: 0,
            chunk: 0,
            slot: 0,
        };
        store::<Brand>(&self.desk, &mut seat.seat, word, 0, aim);
    }

    /// Clears the next slot.
    pub fn clear_slot(&self, seat: &mut OwnerSeat, list: u32, chunk: u32, slot: u32)
        requires name { seat.old.name ≡ self.now.name }
        requires list { list < self.now.lists }
        requires chunk { chunk < self.now.chunks }
        requires next { MayClearSlot seat.old.ledger list chunk slot }
        ensures name { seat.new.name ≡ seat.old.name }
        ensures ledger { seat.new.ledger ≡ after_clear seat.old.ledger list }
    {
        let word = self.slot_place(chunk, slot);
        let aim = Aim {
            list,
            behind: None,
            number: 0,
            chunk: 0,
            slot: 0,
        };
        store::<Brand>(&self.desk, &mut seat.seat, word, 0, aim);
    }

    /// Clears the link of the next chunk.
    pub fn clear_link(&self, seat: &mut OwnerSeat, list: u32, chunk: u32)
        requires name { seat.old.name ≡ self.now.name }
        requires list { list < self.now.lists }
        requires chunk { chunk < self.now.chunks }
        requires next { MayClearLink seat.old.ledger list chunk }
        ensures name { seat.new.name ≡ seat.old.name }
        ensures ledger { seat.new.ledger ≡ after_clear seat.old.ledger list }
    {
        let word = self.link_place(list, Some(chunk));
        let aim = Aim {
            list,
            behind: None,
            number: 0,
            chunk: 0,
            slot: 0,
        };
        store::<Brand>(&self.desk, &mut seat.seat, word, 0, aim);
    }

    /// Ends the clearing of a list: its chunks are free. No word changes: the step is one load.
    pub fn end_clearing(&self, seat: &mut OwnerSeat, list: u32)
        requires name { seat.old.name ≡ self.now.name }
        requires list { list < self.now.lists }
        requires all { IsAllClear seat.old.ledger list }
        ensures name { seat.new.name ≡ seat.old.name }
        ensures ledger { seat.new.ledger ≡ after_end seat.old.ledger list }
    {
        let aim = Aim {
            list,
            behind: None,
            number: 0,
            chunk: 0,
            slot: 0,
        };
        load::<Brand>(&self.desk, &mut seat.seat, 0, aim);
    }
}
