//! The steps by which the owner fills its lists and shuts them.
ghost use Rattle.std.specs.Prelude.{◌≡◌, ℕ, ◌<◌, ◌≤◌, ◌%◌, ◌^◌, false, length, Some};
ghost use Rattle.list_machine.specs.Words.{decode};
ghost use Rattle.list_machine.specs.Facts.{LeadsTo};
ghost use Rattle.list_machine.specs.declared.views.Stage.TheVariants.{Open};
ghost use Rattle.list_table.specs.Ledgers.{leaf_of};
ghost use Rattle.list_table.specs.OwnerMoves.{MayPlace, after_place, MayExtend, last_link, after_link, after_adopt, ledger_after_shut, MayMark, after_mark};

use crate::SharedLists;
use crate::lists::{load, raise, store};
use crate::rule::Aim;
use crate::seats::OwnerSeat;
use std::marker::Brand;

impl SharedLists {
    /// Places an item in the next slot of the list's owned chain.
    pub fn place(&self, seat: &mut OwnerSeat, list: u32, chunk: u32, slot: u32, item: u32)
        requires name { seat.old.name ≡ self.now.name }
        requires list { list < self.now.lists }
        requires chunk { chunk < self.now.chunks }
        requires next { MayPlace seat.old.ledger list chunk slot }
        ensures name { seat.new.name ≡ seat.old.name }
        ensures ledger { seat.new.ledger ≡ after_place seat.old.ledger list chunk slot item }
    {
        let word = self.slot_place(chunk, slot);
        let aim = Aim {
            list,
            behind: None,
            number: item,
            chunk,
            slot,
        };
        store::<Brand>(&self.desk, &mut seat.seat, word, u64::from(item) + 1, aim);
    }

    /// Links a free chunk behind the last one of the list's claimed chain, or behind the list where `behind` is
    /// None. Its rank is how many chunks the chain has.
    pub fn link(&self, seat: &mut OwnerSeat, list: u32, behind: Option<u32>, rank: u32, chunk: u32)
        requires name { seat.old.name ≡ self.now.name }
        requires list { list < self.now.lists }
        requires chunk { chunk < self.now.chunks }
        requires behind { (c : ℕ) → behind ≡ Some c → c < self.now.chunks }
        requires rank { rank ≡ length (leaf_of seat.old.ledger list).claimed }
        requires last { LeadsTo (leaf_of seat.old.ledger list).claimed (last_link behind) rank }
        requires free { MayExtend seat.old.ledger list chunk }
        ensures name { seat.new.name ≡ seat.old.name }
        ensures ledger { seat.new.ledger ≡ after_link seat.old.ledger list (last_link behind) chunk }
    {
        let word = self.link_place(list, behind);
        let link = (u64::from(rank) << 32) + u64::from(chunk) + 1;
        let aim = Aim {
            list,
            behind,
            number: rank,
            chunk,
            slot: 0,
        };
        store::<Brand>(&self.desk, &mut seat.seat, word, link, aim);
    }

    /// Puts a free chunk at the end of the list's owned chain. No word changes: the step is one load.
    pub fn adopt(&self, seat: &mut OwnerSeat, list: u32, chunk: u32)
        requires name { seat.old.name ≡ self.now.name }
        requires list { list < self.now.lists }
        requires chunk { chunk < self.now.chunks }
        requires free { MayExtend seat.old.ledger list chunk }
        ensures name { seat.new.name ≡ seat.old.name }
        ensures ledger { seat.new.ledger ≡ after_adopt seat.old.ledger list chunk }
    {
        let aim = Aim {
            list,
            behind: None,
            number: 0,
            chunk,
            slot: 0,
        };
        load::<Brand>(&self.desk, &mut seat.seat, 0, aim);
    }

    /// Shuts the list. The answer is how many places were claimed before: no more than were granted.
    pub fn shut(&self, seat: &mut OwnerSeat, list: u32) -> u64
        requires name { seat.old.name ≡ self.now.name }
        requires list { list < self.now.lists }
        requires takes { (leaf_of seat.old.ledger list).stage ≡ Open }
        ensures name { seat.new.name ≡ seat.old.name }
        ensures ledger { seat.new.ledger ≡ ledger_after_shut seat.old.ledger list result }
        ensures few { result ≤ (leaf_of seat.old.ledger list).granted }
    {
        let aim = Aim {
            list,
            behind: None,
            number: 0,
            chunk: 0,
            slot: 0,
        };
        let found = raise::<Brand>(&self.desk, &mut seat.seat, list as usize, aim);
        found % (1 << 63)
    }

    /// Marks the next slot of a shut list as moved. The answer is its word before the mark.
    pub fn mark(&self, seat: &mut OwnerSeat, list: u32, chunk: u32, slot: u32) -> u64
        requires name { seat.old.name ≡ self.now.name }
        requires list { list < self.now.lists }
        requires chunk { chunk < self.now.chunks }
        requires next { MayMark seat.old.ledger list chunk slot }
        ensures name { seat.new.name ≡ seat.old.name }
        ensures ledger { seat.new.ledger ≡ after_mark seat.old.ledger list chunk slot (decode result) }
        ensures unmarked { (decode result).high ≡ false }
        ensures small { (decode result).value ≤ 2 ^ 32 }
    {
        let word = self.slot_place(chunk, slot);
        let aim = Aim {
            list,
            behind: None,
            number: 0,
            chunk,
            slot,
        };
        raise::<Brand>(&self.desk, &mut seat.seat, word, aim)
    }
}
