ghost use Rattle.std.specs.Prelude.{◌≡◌, ◌+◌, ◌*◌, ◌<◌, ◌≤◌, [], ◌∷◌, length, sum, IsTrue, MatchOption};
ghost use Rattle.list_book.specs.Books.{HasSlots, MayGrantAll, TakesItems, book_row};
ghost use Rattle.list_words.specs.declared.leaf_lists.Phase.TheVariants.{Fresh};

use super::Book;
use crate::list_row::{ListRow, SLOTS};
use list_words::{Grant, Phase};

/// What the calls of a book ask, as tests that are made when they run.
impl Book {
    fn row(&self, list: u32) -> Option<&ListRow>
        ensures { MatchOption result (length self.now.rows ≤ list) (λ row. (list < length self.now.rows) × (row.now ≡ book_row self.now list)) }
    {
        self.rows.get(list as usize)
    }

    pub fn has_list(&self, list: u32) -> bool
        ensures { IsTrue result → list < length self.now.rows }
    {
        self.row(list).is_some()
    }

    pub fn may_open(&self, list: u32) -> bool
        ensures { IsTrue result → (list < length self.now.rows) × ((book_row self.now list).phase ≡ Fresh) }
    {
        match self.row(list) {
            Some(row) => row.phase() == Phase::Fresh,
            None => false,
        }
    }

    pub fn takes_items(&self, list: u32) -> bool
        ensures { IsTrue result → TakesItems self.now list }
    {
        match self.row(list) {
            Some(row) => row.phase() == Phase::Open,
            None => false,
        }
    }

    pub fn may_extend_claimed(&self, list: u32) -> bool
        ensures { IsTrue result → TakesItems self.now list × (0 < (book_row self.now list).claimed_room) × (0 < self.now.free) }
    {
        match self.row(list) {
            Some(row) => row.phase() == Phase::Open && 0 < row.claimed_room() && 0 < self.free(),
            None => false,
        }
    }

    pub fn may_extend_owned(&self, list: u32) -> bool
        ensures { IsTrue result → TakesItems self.now list × (0 < (book_row self.now list).owned_room) × (0 < self.now.free) }
    {
        match self.row(list) {
            Some(row) => row.phase() == Phase::Open && 0 < row.owned_room() && 0 < self.free(),
            None => false,
        }
    }

    pub fn may_use_slot(&self, list: u32) -> bool
        ensures { IsTrue result → TakesItems self.now list × ((book_row self.now list).used < 256 * length (book_row self.now list).owned) }
    {
        match self.row(list) {
            Some(row) => {
                row.phase() == Phase::Open && ((row.used() / SLOTS) as usize) < row.owned().len()
            }
            None => false,
        }
    }

    /// Whether the list of a grant takes items, and has slots for it.
    fn has_slots(&self, grant: Grant) -> bool
        ensures { IsTrue result → HasSlots self.now grant }
    {
        match self.row(grant.list) {
            Some(row) => {
                let all = u64::from(row.granted()) + u64::from(grant.n);
                row.phase() == Phase::Open && all.div_ceil(256) <= row.claimed().len() as u64
            }
            None => false,
        }
    }

    pub fn may_grant(&self, first: Grant, second: Grant) -> bool
        ensures { IsTrue result → MayGrantAll self.now (first ∷ second ∷ []) }
    {
        let all = u64::from(first.n) + u64::from(second.n);
        u64::from(self.given) + all < 1 << 31
            && first.list != second.list
            && self.has_slots(first)
            && self.has_slots(second)
            && self.may_count_in()
    }

    pub fn may_count_in(&self) -> bool
        ensures { IsTrue result → sum self.now.out < 18446744073709551615 }
    {
        self.seats_out() < u64::MAX
    }
}
