//! The table of lists, and its atomic operations, each with what its step tells.
ghost use Rattle.std.specs.Prelude.{◌≡◌, ℕ, suc, ◌+◌, ◌*◌, ◌%◌, ◌^◌, ◌<◌, bit_or, ◌==◌, slice_index, List, [], IfOk};
ghost use prog.Atomic.{either};
ghost use Rattle.atomic_table.specs.Table.{Allows, Splits};
ghost use Rattle.list_machine.specs.Layouts.{word_count, link_place, slot_place};
ghost use Rattle.list_machine.specs.declared.views.LinkWord.TheVariants.{OfList, OfChunk};
ghost use Rattle.list_table.specs.Ledgers.{opening_ledger};
ghost use Rattle.list_table.specs.OwnerMoves.{last_link};
ghost use Rattle.list_table.specs.Ruled.{IsRuled, admitting, admitted};

use crate::rule::{Act, Admit, Aim, Chair, Desk, Given, Move, Size};
use crate::seats::OwnerSeat;
use atomic_table::Table;
use list_machine::Grant;
use std::alloc::{AllocError, Global};
use std::marker::Model;
use std::snapshot::Snapshot;

/// Lists whose words lie in one table: two words a list and 257 a chunk, which many threads may share. Each call
/// is one atomic step on one of these words, and waits for nobody.
#[derive(Drop)]
pub struct SharedLists {
    pub(crate) desk: Desk,
    pub(crate) size: Size,
}

impl Model for SharedLists {
    ghost use Rattle.std.specs.Prelude.{◌≡◌};
    ghost use Rattle.list_table.specs.Tables.{ListsValue, IsTable, name_of};

    ghost Value = { ListsValue };

    ghost view = { λ s. record { name = name_of s.size.lists s.size.chunks s.desk.shared.table_id; lists = s.size.lists; chunks = s.size.chunks } };

    ghost invariant = { λ s. IsTable s.size.lists s.size.chunks s.desk.shared.table_id × (s.desk.shared.key ≡ s.size) };
}

impl SharedLists {
    /// So many lists with which nothing was done and so many free chunks, and the seat of their owner. All words
    /// are held twice for a moment, since a table is made from a row of words: 8 bytes for each of them.
    pub fn new(
        alloc: Global,
        lists: u32,
        chunks: u32,
    ) -> Result<(SharedLists, OwnerSeat), AllocError>
        ensures size { IfOk result (λ r. (r.0.lists ≡ lists) × (r.0.chunks ≡ chunks)) }
        ensures owner { IfOk result (λ r. r.1 ≡ record { name = r.0.name; ledger = opening_ledger lists }) }
    {
        let size = Size { lists, chunks };
        let words = vec![in alloc; 0; word_count(size)]?;
        let (desk, seat) = Table::of_words(alloc, &words, &size)?;
        let owner = OwnerSeat {
            seat,
            size: Snapshot::of(&size),
        };
        Ok((SharedLists { desk, size }, owner))
    }

    /// How many lists there are.
    pub fn lists(&self) -> u32
        ensures { result ≡ self.now.lists }
    {
        self.size.lists
    }

    /// How many chunks there are.
    pub fn chunks(&self) -> u32
        ensures { result ≡ self.now.chunks }
    {
        self.size.chunks
    }

    /// A law: the name tells how many lists and chunks there are.
    pub fn name_tells_size(&self)
        ensures lists { slice_index self.now.name 0 ≡ self.now.lists }
        ensures chunks { slice_index self.now.name 1 ≡ self.now.chunks }
    {
        let _ = &self.size;
    }

    /// The place of a link word among the words: of the list's own, or of a chunk's.
    pub(crate) fn link_place(&self, list: u32, behind: Option<u32>) -> usize
        ensures place { result ≡ link_place self.now.lists list (last_link behind) }
        ensures few { self.now.chunks < 2 ^ 32 }
    {
        let lists = self.size.lists as usize;
        match behind {
            None => lists + list as usize,
            Some(chunk) => lists + lists + chunk as usize,
        }
    }

    /// The place of a slot among the words.
    pub(crate) fn slot_place(&self, chunk: u32, slot: u32) -> usize
        ensures { result ≡ slot_place self.now.lists self.now.chunks chunk slot }
    {
        let before = 2 * self.size.lists as usize + self.size.chunks as usize;
        before + 256 * chunk as usize + slot as usize
    }
}

/// The words of a table of this size, with the one that is always there.
fn word_count(size: Size) -> usize
    ensures { result ≡ suc (word_count size.lists size.chunks) }
{
    2 * size.lists as usize + 257 * size.chunks as usize + 1
}

/// Reads a word.
pub(crate) fn load<M: Move>(desk: &Desk, seat: &mut Chair, word: usize, _aim: Aim) -> u64
    requires table { seat.old.table_id ≡ desk.now.shared.table_id }
    requires word { word < desk.now.shared.table_id.words }
    requires allowed { Allows (IsRuled desk.now.shared.key.lists desk.now.shared.key.chunks) desk.now.shared.table_id.slots seat.old.id seat.old.me word (λ n. n) M.then }
    ensures table { (seat.new.table_id ≡ seat.old.table_id) × (seat.new.id ≡ seat.old.id) }
    ensures then { M.then result seat.new.me }
{
    desk.shared.load::<Act<M>>(seat, word)
}

/// Writes a word.
pub(crate) fn store<M: Move>(desk: &Desk, seat: &mut Chair, word: usize, new: u64, _aim: Aim)
    requires table { seat.old.table_id ≡ desk.now.shared.table_id }
    requires word { word < desk.now.shared.table_id.words }
    requires allowed { Allows (IsRuled desk.now.shared.key.lists desk.now.shared.key.chunks) desk.now.shared.table_id.slots seat.old.id seat.old.me word (λ _. new) (λ _. M.then new) }
    ensures table { (seat.new.table_id ≡ seat.old.table_id) × (seat.new.id ≡ seat.old.id) }
    ensures then { M.then new seat.new.me }
{
    desk.shared.store::<Act<M>>(seat, word, new);
}

/// Adds one to a word, and gives back what it was.
pub(crate) fn add_one<M: Move>(desk: &Desk, seat: &mut Chair, word: usize, _aim: Aim) -> u64
    requires table { seat.old.table_id ≡ desk.now.shared.table_id }
    requires word { word < desk.now.shared.table_id.words }
    requires allowed { Allows (IsRuled desk.now.shared.key.lists desk.now.shared.key.chunks) desk.now.shared.table_id.slots seat.old.id seat.old.me word (λ n. (n + 1) % 2 ^ 64) M.then }
    ensures table { (seat.new.table_id ≡ seat.old.table_id) × (seat.new.id ≡ seat.old.id) }
    ensures then { M.then result seat.new.me }
{
    desk.shared.fetch_add::<Act<M>>(seat, word, 1)
}

/// Sets the top bit of a word, and gives back what the word was.
pub(crate) fn raise<M: Move>(desk: &Desk, seat: &mut Chair, word: usize, _aim: Aim) -> u64
    requires table { seat.old.table_id ≡ desk.now.shared.table_id }
    requires word { word < desk.now.shared.table_id.words }
    requires allowed { Allows (IsRuled desk.now.shared.key.lists desk.now.shared.key.chunks) desk.now.shared.table_id.slots seat.old.id seat.old.me word (λ n. bit_or n (2 ^ 63)) M.then }
    ensures table { (seat.new.table_id ≡ seat.old.table_id) × (seat.new.id ≡ seat.old.id) }
    ensures then { M.then result seat.new.me }
{
    desk.shared.fetch_or::<Act<M>>(seat, word, 1 << 63)
}

/// Writes a word where it is 0, and gives back what it was.
pub(crate) fn fill<M: Move>(desk: &Desk, seat: &mut Chair, word: usize, new: u64, _aim: Aim) -> u64
    requires table { seat.old.table_id ≡ desk.now.shared.table_id }
    requires word { word < desk.now.shared.table_id.words }
    requires allowed { Allows (IsRuled desk.now.shared.key.lists desk.now.shared.key.chunks) desk.now.shared.table_id.slots seat.old.id seat.old.me word (λ n. either (n == 0) new n) M.then }
    ensures table { (seat.new.table_id ≡ seat.old.table_id) × (seat.new.id ≡ seat.old.id) }
    ensures then { M.then result seat.new.me }
{
    desk.shared.compare_exchange::<Act<M>>(seat, word, 0, new)
}

/// Makes a seat with these grants.
pub(crate) fn split<G: Given>(desk: &Desk, seat: &mut Chair, grants: &[Grant]) -> Chair
    requires given { grants.now ≡ G.grants }
    requires table { seat.old.table_id ≡ desk.now.shared.table_id }
    requires word { 0 < desk.now.shared.table_id.words }
    requires splits { Splits (IsRuled desk.now.shared.key.lists desk.now.shared.key.chunks) seat.old.id seat.old.me.0 (admitting grants.now seat.old.me.0) (admitted grants.now seat.old.me.0) }
    ensures table { (seat.new.table_id ≡ seat.old.table_id) × (result.table_id ≡ seat.old.table_id) }
    ensures owner { seat.new.me ≡ (admitting grants.now seat.old.me.0, seat.old.me.1) }
    ensures guest { result.me ≡ (admitted grants.now seat.old.me.0, []) }
{
    let _grants = grants;
    desk.shared.split_seat::<Admit<G>>(seat)
}
