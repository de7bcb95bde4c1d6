ghost use Rattle.std.specs.Prelude.{◌≡◌, ◌+◌, ◌*◌, ◌^◌, ◌<◌, length, IsTrue, true};
ghost use Rattle.world_book.specs.Owners.{HasMark, HasWord, leaf_at};

use super::Book;

/// What the calls of a book ask, as tests that are made when they run.
impl Book {
    pub fn has_list(&self, list: u32) -> bool
        ensures { IsTrue result → list < length self.now.book.leaves }
    {
        (list as usize) < self.rows.len()
    }

    pub fn may_link(&self, list: u32) -> bool
        ensures { IsTrue result → (list < length self.now.book.leaves) × (length (leaf_at self.now list).claimed < 2 ^ 32) }
    {
        self.has_list(list) && self.row(list).claimed().len() < 1 << 32
    }

    pub fn may_adopt(&self, list: u32) -> bool
        ensures { IsTrue result → (list < length self.now.book.leaves) × (length (leaf_at self.now list).owned < 2 ^ 32) }
    {
        self.has_list(list) && self.row(list).owned().len() < 1 << 32
    }

    pub fn may_use_slot(&self, list: u32) -> bool
        ensures { IsTrue result → (list < length self.now.book.leaves) × ((leaf_at self.now list).used < 256 * length (leaf_at self.now list).owned) }
    {
        self.has_list(list) && self.row(list).has_room()
    }

    pub fn may_mark(&self, list: u32) -> bool
        ensures { IsTrue result → (list < length self.now.book.leaves) × HasMark (leaf_at self.now list) }
    {
        self.has_list(list) && self.row(list).has_mark()
    }

    pub fn may_clear(&self, list: u32) -> bool
        ensures { IsTrue result → (list < length self.now.book.leaves) × HasWord (leaf_at self.now list) }
    {
        self.has_list(list) && self.row(list).has_word()
    }
}
