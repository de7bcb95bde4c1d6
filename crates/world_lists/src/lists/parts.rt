ghost use Rattle.std.specs.Prelude.{◌≡◌, ◌+◌, ◌-◌, ◌*◌, ◌^◌, ◌<◌, ◌≤◌, length, IsTrue};
ghost use Rattle.world_words.specs.WordRows.{list_count, made_count, words_in};
ghost use Rattle.world_book.specs.Owners.{HasMark, leaf_at};

use super::Lists;

/// What the calls of lists ask, as tests that are made when they run.
impl Lists {
    pub fn has_list(&self, list: u32) -> bool
        ensures { IsTrue result → (list < length self.now.owner.book.leaves) × (list < list_count self.now.words) }
    {
        (list as usize) < self.words.lists()
    }

    pub fn has_seat(&self, seat: usize) -> bool
        ensures { IsTrue result → seat < length self.now.seats }
    {
        seat < self.seats.len()
    }

    pub fn may_claim(&self, seat: usize, list: u32) -> bool
        ensures { IsTrue result → (seat < length self.now.seats) × (list < length self.now.owner.book.leaves) × (((words_in self.now.words).claim list).value < 2 ^ 63 - 1) }
    {
        self.has_seat(seat) && self.has_list(list) && self.words.claims(list) < (1 << 63) - 1
    }

    pub fn may_file(&self, seat: usize, chunk: u32) -> bool
        ensures { IsTrue result → (seat < length self.now.seats) × (chunk < made_count self.now.words) }
    {
        self.has_seat(seat) && (chunk as usize) < self.made()
    }

    pub fn may_place(&self, list: u32) -> bool
        ensures { IsTrue result → (list < length self.now.owner.book.leaves) × ((leaf_at self.now.owner list).used < 256 * length (leaf_at self.now.owner list).owned) }
    {
        self.has_list(list) && self.row(list).used() / 256 < self.row(list).owned().len() as u64
    }

    pub fn may_adopt(&self, list: u32, chunk: u32) -> bool
        ensures { IsTrue result → (list < length self.now.owner.book.leaves) × (chunk ≤ made_count self.now.words) × (length (leaf_at self.now.owner list).owned < 2 ^ 32) }
    {
        self.has_list(list)
            && chunk as usize <= self.made()
            && self.row(list).owned().len() < 1 << 32
    }

    pub fn may_link(&self, list: u32, chunk: u32) -> bool
        ensures { IsTrue result → (list < length self.now.owner.book.leaves) × (chunk ≤ made_count self.now.words) × (length (leaf_at self.now.owner list).claimed < 2 ^ 32) }
    {
        self.has_list(list)
            && chunk as usize <= self.made()
            && self.row(list).claimed().len() < 1 << 32
    }

    pub fn may_mark(&self, list: u32) -> bool
        ensures { IsTrue result → (list < length self.now.owner.book.leaves) × HasMark (leaf_at self.now.owner list) }
    {
        self.has_list(list) && self.row(list).has_mark()
    }

    pub fn has_chunk(&self, chunk: u32) -> bool
        ensures { IsTrue result → chunk < made_count self.now.words }
    {
        (chunk as usize) < self.made()
    }
}
