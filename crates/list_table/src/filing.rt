//! The steps of guests: a filer claims, walks links and files, and a reader reads slots.
ghost use Rattle.std.specs.Prelude.{◌≡◌, ℕ, ◌<◌, ◌≤◌, ◌%◌, Some};
ghost use Rattle.list_machine.specs.Words.{decode};
ghost use Rattle.list_machine.specs.Grants.{granted_in};
ghost use Rattle.list_machine.specs.declared.views.Unfiled.TheVariants.{Nothing};
ghost use Rattle.list_table.specs.GuestMoves.{IsAfterClaim, MayFile, after_file, MayRead, after_read, IsSlotWord};
ghost use Rattle.list_table.specs.OwnerMoves.{last_link};

use crate::SharedLists;
use crate::lists::{add_one, fill, load};
use crate::rule::Aim;
use crate::seats::GuestSeat;
use list_machine::Claimed;
use std::marker::Brand;

impl SharedLists {
    /// Claims the next place of the list's claimed chain. It uses one grant of the guest in the list.
    pub fn claim(&self, seat: &mut GuestSeat, list: u32) -> Claimed
        requires name { seat.old.name ≡ self.now.name }
        requires list { list < self.now.lists }
        requires idle { seat.old.guest.claim ≡ Nothing }
        requires granted { 0 < granted_in list seat.old.guest.grants }
        ensures name { seat.new.name ≡ seat.old.name }
        ensures claimed { IsAfterClaim seat.old.guest seat.new.guest list result }
    {
        let aim = Aim {
            list,
            behind: None,
            number: 0,
            chunk: 0,
            slot: 0,
        };
        let found = add_one::<Brand>(&self.desk, &mut seat.seat, list as usize, aim);
        list_machine::claim(found).1
    }

    /// Files the item at the place that the guest has claimed, which is this slot of this chunk. The answer is
    /// whether it stands there; else the slot had been marked as moved.
    pub fn file(&self, seat: &mut GuestSeat, list: u32, place: u64, chunk: u32, item: u32) -> bool
        requires name { seat.old.name ≡ self.now.name }
        requires chunk { chunk < self.now.chunks }
        requires claimed { MayFile seat.old.guest list place chunk (place % 256) }
        ensures name { seat.new.name ≡ seat.old.name }
        ensures guest { seat.new.guest ≡ after_file seat.old.guest list chunk (place % 256) item result }
    {
        let slot = (place % 256) as u32;
        let word = self.slot_place(chunk, slot);
        let aim = Aim {
            list,
            behind: None,
            number: item,
            chunk,
            slot,
        };
        let found = fill::<Brand>(&self.desk, &mut seat.seat, word, u64::from(item) + 1, aim);
        found == 0
    }

    /// Reads the link word behind a chunk of the list's claimed chain, or the list's own where `behind` is None, on
    /// the way to the place that the guest has claimed. The answer is the chunk to which it leads.
    pub fn follow(&self, seat: &mut GuestSeat, list: u32, behind: Option<u32>, rank: u32) -> u32
        requires name { seat.old.name ≡ self.now.name }
        requires list { list < self.now.lists }
        requires behind { (c : ℕ) → behind ≡ Some c → c < self.now.chunks }
        requires way { MayRead seat.old.guest list (last_link behind) rank }
        ensures name { seat.new.name ≡ seat.old.name }
        ensures guest { seat.new.guest ≡ after_read seat.old.guest list (last_link behind) rank result }
        ensures chunk { result < self.now.chunks }
    {
        let word = self.link_place(list, behind);
        let aim = Aim {
            list,
            behind,
            number: rank,
            chunk: 0,
            slot: 0,
        };
        let found = load::<Brand>(&self.desk, &mut seat.seat, word, aim);
        (found % (1 << 32) - 1) as u32
    }

    /// Reads the word of a slot. It agrees with all that the guest knows of the slot.
    pub fn slot(&self, seat: &mut GuestSeat, chunk: u32, slot: u32) -> u64
        requires name { seat.old.name ≡ self.now.name }
        requires chunk { chunk < self.now.chunks }
        requires slot { slot < 256 }
        ensures seat { seat.new ≡ seat.old }
        ensures word { IsSlotWord seat.old.guest chunk slot (decode result) }
    {
        let word = self.slot_place(chunk, slot);
        let aim = Aim {
            list: 0,
            behind: None,
            number: 0,
            chunk,
            slot,
        };
        load::<Brand>(&self.desk, &mut seat.seat, word, aim)
    }
}
