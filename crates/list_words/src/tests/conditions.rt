ghost use Rattle.std.specs.Prelude.{◌≡◌, ◌+◌, ◌*◌, ◌<◌, ◌≤◌, length, [], ◌∷◌, IsTrue, vec_len};
ghost use Rattle.std.specs.Vec.{vec_capacity};
ghost use Rattle.list_words.specs.Store.{IsOpen, MayAdmit, chunks_of, row, seats_out};
ghost use Rattle.list_words.specs.Plain.{list_in, store_of};
ghost use Rattle.list_words.specs.declared.leaf_lists.Phase.TheVariants.{Fresh, Open, Shut};

use crate::plain_row::SLOTS;
use crate::{Grant, LeafLists, Phase, PlainLists};

/// What the calls of lists ask, as tests that are made when they run.
pub trait Conditions: LeafLists {
    ghost use Rattle.std.specs.Prelude.{ℕ};

    fn has_list(&self, list: u32) -> bool
        ensures { IsTrue result → list < length (Self.store self.now).rows };

    fn may_open(&self, list: u32) -> bool
        ensures { IsTrue result → (list < length (Self.store self.now).rows) × ((row (Self.store self.now) list).phase ≡ Fresh) };

    fn may_extend_claimed(&self, list: u32) -> bool
        ensures { IsTrue result → IsOpen (Self.store self.now) list × (0 < (row (Self.store self.now) list).claimed_room) × (0 < (Self.store self.now).free) };

    fn may_extend_owned(&self, list: u32) -> bool
        ensures { IsTrue result → IsOpen (Self.store self.now) list × (0 < (row (Self.store self.now) list).owned_room) × (0 < (Self.store self.now).free) };

    fn may_place(&self, list: u32) -> bool
        ensures { IsTrue result → IsOpen (Self.store self.now) list × (length (row (Self.store self.now) list).placed < 256 * length (row (Self.store self.now) list).owned) };

    fn may_sweep(&self, list: u32, out: &Vec<u32>) -> bool
        ensures { IsTrue result → IsOpen (Self.store self.now) list × (vec_len out.now + 256 * length (chunks_of (row (Self.store self.now) list)) ≤ vec_capacity out.now) };

    fn may_admit(&self, first: Grant, second: Grant) -> bool
        ensures { IsTrue result → MayAdmit (Self.store self.now) (first ∷ second ∷ []) };

    fn may_note(&self) -> bool
        ensures { IsTrue result → seats_out (Self.store self.now) < 18446744073709551615 };
}

impl Conditions for PlainLists {
    fn has_list(&self, list: u32) -> bool {
        self.row(list).is_some()
    }

    fn may_open(&self, list: u32) -> bool {
        match self.row(list) {
            Some(row) => row.phase() == Phase::Fresh,
            None => false,
        }
    }

    fn may_extend_claimed(&self, list: u32) -> bool {
        match self.row(list) {
            Some(row) => row.phase() == Phase::Open && 0 < row.claimed_room() && 0 < self.free(),
            None => false,
        }
    }

    fn may_extend_owned(&self, list: u32) -> bool {
        match self.row(list) {
            Some(row) => row.phase() == Phase::Open && 0 < row.owned_room() && 0 < self.free(),
            None => false,
        }
    }

    fn may_place(&self, list: u32) -> bool {
        match self.row(list) {
            Some(row) => {
                row.phase() == Phase::Open && row.placed().len() / SLOTS < row.owned().len()
            }
            None => false,
        }
    }

    fn may_sweep(&self, list: u32, out: &Vec<u32>) -> bool {
        let spare = out.capacity().saturating_sub(out.len()) / SLOTS;
        match self.row(list) {
            Some(row) => {
                row.phase() == Phase::Open
                    && row.claimed().len() <= spare
                    && row.owned().len() <= spare - row.claimed().len()
                    && out.len() <= out.capacity()
            }
            None => false,
        }
    }

    fn may_admit(&self, first: Grant, second: Grant) -> bool {
        let all = u64::from(first.n) + u64::from(second.n);
        2 <= self.grants_room()
            && all <= u64::from(self.items_room())
            && u64::from(self.given()) + all < 1 << 31
            && first.list != second.list
            && self.may_grant(first)
            && self.may_grant(second)
            && self.may_note()
    }

    fn may_note(&self) -> bool {
        self.seats_out() < u64::MAX
    }
}

impl PlainLists {
    /// Whether a filer with this one grant may be made.
    pub fn may_admit_one(&self, grant: Grant) -> bool
        ensures { IsTrue result → MayAdmit (store_of self.now) (grant ∷ []) }
    {
        1 <= self.grants_room()
            && grant.n <= self.items_room()
            && u64::from(self.given()) + u64::from(grant.n) < 1 << 31
            && self.may_grant(grant)
            && self.may_note()
    }

    /// Whether the list of a grant takes items, and has slots for it.
    fn may_grant(&self, grant: Grant) -> bool
        ensures { IsTrue result → ((list_in self.now.lists grant.list).phase ≡ Open) × ((list_in self.now.lists grant.list).granted + grant.n ≤ 256 * length (list_in self.now.lists grant.list).claimed) }
    {
        match self.row(grant.list) {
            Some(row) => {
                let all = u64::from(row.granted()) + u64::from(grant.n);
                row.phase() == Phase::Open && all.div_ceil(256) <= row.claimed().len() as u64
            }
            None => false,
        }
    }

    /// Whether a grant of the list may be used.
    pub fn may_file(&self, list: u32) -> bool
        ensures { IsTrue result → ((list_in self.now.lists list).phase ≡ Shut → ⊥) → length (list_in self.now.lists list).filed < (list_in self.now.lists list).granted }
    {
        match self.row(list) {
            Some(row) => row.phase() == Phase::Shut || row.filed().len() < row.granted() as usize,
            None => false,
        }
    }
}
