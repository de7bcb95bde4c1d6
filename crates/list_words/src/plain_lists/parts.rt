ghost use Rattle.std.specs.Prelude.{◌≡◌, ◌<◌, ◌≤◌, length, IsTrue, MatchOption};
ghost use Rattle.list_words.specs.Plain.{list_in};

use crate::plain_lists::PlainLists;
use crate::plain_row::PlainRow;

impl PlainLists {
    /// The list of a number, if there is one.
    pub fn row(&self, list: u32) -> Option<&PlainRow>
        ensures { MatchOption result (length self.now.lists ≤ list) (λ row. (list < length self.now.lists) × (row.now ≡ list_in self.now.lists list)) }
    {
        self.rows.get(list as usize)
    }

    /// Whether there is a chunk of this number.
    pub fn has_chunk(&self, chunk: u32) -> bool
        ensures { IsTrue result → chunk < self.now.chunks }
    {
        (chunk as usize) < self.homes.len()
    }

    /// For how many grants of the next filer there is room.
    pub fn grants_room(&self) -> u32
        ensures { result ≡ self.now.grants_room }
    {
        self.grants_room
    }

    /// For how many answers of the next filer there is room.
    pub fn items_room(&self) -> u32
        ensures { result ≡ self.now.items_room }
    {
        self.items_room
    }

    /// How many slots were granted in all.
    pub fn given(&self) -> u32
        ensures { result ≡ self.now.given }
    {
        self.given
    }
}
