ghost use Rattle.std.specs.Prelude.{◌≡◌, ℕ, ◌+◌, ◌*◌, ◌/◌, ◌%◌, ◌^◌, ◌<◌, ◌≤◌, ◌++◌, ◌∷◌, [], Some, length, slice_get, OnOk, OnErr, vec_len};
ghost use Rattle.std.specs.Vec.{vec_capacity};
ghost use Rattle.list_book.specs.Books.{emptied_row, fresh_row, granted_row, lengthened_row, linked_row, roomier_row, shut_row, used_row};
ghost use Rattle.list_words.specs.declared.leaf_lists.Phase.TheVariants.{Fresh, Open, Shut};

use list_words::{Phase, push_within};
use std::alloc::{AllocError, Global};
use std::marker::Model;

#[cfg(test)]
mod parts;

/// How many slots a chunk has.
pub const SLOTS: u32 = 256;

/// What is kept of one list: its two chains, how many claimed slots were granted, and how many owned ones are used.
#[derive(Drop)]
pub struct ListRow {
    phase: Phase,
    claimed: Vec<u32>,
    owned: Vec<u32>,
    granted: u32,
    used: u32,
    claimed_room: u32,
    owned_room: u32,
}

impl Model for ListRow {
    ghost use Rattle.list_book.specs.Books.{BookRow};

    ghost Value = { BookRow };

    ghost use Rattle.list_book.specs.RowRooms.{row_of_list, HasRoom};

    ghost view = { row_of_list };

    ghost invariant = { HasRoom };
}

impl ListRow {
    /// A list that was never opened.
    pub fn new(alloc: Global) -> ListRow
        ensures { result ≡ fresh_row }
    {
        ListRow {
            phase: Phase::Fresh,
            claimed: Vec::new(alloc),
            owned: Vec::new(alloc),
            granted: 0,
            used: 0,
            claimed_room: 0,
            owned_room: 0,
        }
    }

    pub fn claimed(&self) -> &[u32]
        ensures { result.now ≡ self.now.claimed }
    {
        &self.claimed
    }

    pub fn owned(&self) -> &[u32]
        ensures { result.now ≡ self.now.owned }
    {
        &self.owned
    }

    /// How many claimed slots were granted.
    pub fn granted(&self) -> u32
        ensures { result ≡ self.now.granted }
    {
        self.granted
    }

    /// How many owned slots are used.
    pub fn used(&self) -> u32
        ensures { result ≡ self.now.used }
    {
        self.used
    }

    /// Makes room for so many more chunks in each chain.
    pub fn reserve(&mut self, claimed: u32, owned: u32) -> Result<(), AllocError>
        ensures ok { OnOk result (self.new ≡ roomier_row self.old claimed owned) }
        ensures err { OnErr result (self.new ≡ self.old) }
    {
        let claimed = self.claimed_room.max(claimed);
        let owned = self.owned_room.max(owned);
        self.claimed.reserve(claimed as usize)?;
        self.owned.reserve(owned as usize)?;
        self.claimed_room = claimed;
        self.owned_room = owned;
        Ok(())
    }

    /// Opens a list that has no chunks yet.
    pub fn open(&mut self)
        ensures { self.new ≡ record self.old { phase = Open } }
    {
        self.phase = Phase::Open;
    }

    /// Puts a chunk at the end of the claimed chain.
    pub fn link(&mut self, chunk: u32)
        requires { 0 < self.old.claimed_room }
        ensures { self.new ≡ linked_row self.old chunk }
    {
        push_within(&mut self.claimed, chunk);
        self.claimed_room -= 1;
    }

    /// Puts a chunk at the end of the owned chain.
    pub fn lengthen(&mut self, chunk: u32)
        requires { 0 < self.old.owned_room }
        ensures { self.new ≡ lengthened_row self.old chunk }
    {
        push_within(&mut self.owned, chunk);
        self.owned_room -= 1;
    }

    /// Lets n more slots of the claimed chain be claimed.
    pub fn grant(&mut self, n: u32)
        requires { self.old.granted + n < 2 ^ 32 }
        ensures { self.new ≡ granted_row self.old n }
    {
        self.granted += n;
    }

    /// Uses the next slot of the owned chain. Answers its chunk and slot.
    pub fn use_slot(&mut self) -> (u32, u32)
        requires room { self.old.used < 256 * length self.old.owned }
        requires fits { self.old.used + 1 < 2 ^ 32 }
        ensures used { self.new ≡ used_row self.old }
        ensures chunk { slice_get self.old.owned (self.old.used / 256) ≡ Some result.0 }
        ensures slot { result.1 ≡ self.old.used % 256 }
    {
        let index = self.used;
        self.used += 1;
        (self.owned[(index / SLOTS) as usize], index % SLOTS)
    }

    pub fn shut(&mut self)
        ensures { self.new ≡ shut_row self.old }
    {
        self.phase = Phase::Shut;
    }

    /// Lets go of the chunks of a list, and of its room.
    pub fn empty(&mut self, alloc: Global)
        ensures { self.new ≡ emptied_row self.old }
    {
        self.claimed = Vec::new(alloc);
        self.owned = Vec::new(alloc);
        self.used = 0;
        self.claimed_room = 0;
        self.owned_room = 0;
    }
}
