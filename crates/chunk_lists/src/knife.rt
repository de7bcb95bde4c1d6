ghost use Rattle.std.specs.Prelude.{◌≡◌, ℕ, ◌+◌, ◌*◌, ◌≤◌, ◌↔◌, ◌++◌, List, Option, length, Contains, IfOk, IsTrue, vec_len};
ghost use Rattle.std.specs.Vec.{vec_capacity};
ghost use Rattle.list_words.specs.Store.{AreMarks, IsOpen, Keeps, Stood, chunks_of, found_in, row, shut_now};
ghost use Rattle.chunk_lists.specs.Keepers.{KnownIn, ShownIn, claims_of};
ghost use Rattle.list_book.specs.Books.{fresh_book};
ghost use Rattle.list_table.specs.Ledgers.{opening_ledger};
ghost use Rattle.list_filers.specs.Filers.{shared_name};
ghost use Rattle.chunk_lists.specs.Knives.{fresh_store, lists_of};

use crate::keeper::Keeper;
use list_filers::{Filer, FilerRoom, Reader};
use list_machine::Grant;
use list_table::SharedLists;
use list_words::LeafLists;
use std::alloc::{AllocError, Global};
use std::marker::Model;
use std::sync::Arc;

/// The owner of lists by atomic words, which meets the contract of lists while filers file and readers read in other
/// threads.
#[derive(Drop)]
pub struct Knife {
    keeper: Keeper,
    room: FilerRoom,
}

impl Model for Knife {
    ghost use Rattle.chunk_lists.specs.Knives.{KnifeValue};

    ghost Value = { KnifeValue };

    ghost view = { λ k. record { keeper = k.keeper; grants = k.room.grants; items = k.room.items } };
}

impl Knife {
    /// So many lists that were never opened and so many free chunks, which filers and readers may share, and their
    /// owner. It refuses only for want of memory.
    pub fn new(
        alloc: Global,
        lists: u32,
        chunks: u32,
    ) -> Result<(Arc<SharedLists, Global>, Knife), AllocError>
        requires lists { lists ≤ 200000 }
        requires chunks { chunks ≤ 1000000 }
        ensures lists { IfOk result (λ r. (r.0.value.lists ≡ lists) × (r.0.value.chunks ≡ chunks)) }
        ensures knife { IfOk result (λ r. r.1 ≡ record { keeper = record { name = r.0.value.name; ledger = opening_ledger lists; book = fresh_book lists chunks }; grants = 0; items = 0 }) }
        ensures store { IfOk result (λ r. lists_of r.1 ≡ fresh_store (shared_name r.0.value) lists chunks) }
    {
        let (shared, keeper) = Keeper::new(alloc, lists, chunks)?;
        shared.name_tells_size();
        let room = FilerRoom::new(alloc);
        Ok((shared, Knife { keeper, room }))
    }
}

impl LeafLists for Knife {
    ghost use Rattle.chunk_lists.specs.Keepers.{KnownIn, ShownIn, claims_of};
    ghost use Rattle.chunk_lists.specs.Knives.{lists_of, seat_of, Sees};

    type Filer = Filer;

    type Reader = Reader;

    ghost store = { lists_of };

    ghost knows = { λ k. KnownIn k.keeper };

    ghost shown = { λ k. ShownIn k.keeper };

    ghost claims = { λ k. claims_of k.keeper };

    ghost seat = { seat_of };

    ghost sees = { Sees };

    ghost borne_out = { λ k f. Unit {0} };

    fn free(&self) -> u32 {
        self.keeper.free()
    }

    fn claimed(&self, list: u32) -> &[u32] {
        self.keeper.claimed(list)
    }

    fn owned(&self, list: u32) -> &[u32] {
        self.keeper.owned(list)
    }

    fn reserve(&mut self, list: u32, claimed: u32, owned: u32) -> Result<(), AllocError> {
        self.keeper.reserve(list, claimed, owned)
    }

    fn open_list(&mut self, list: u32) {
        self.keeper.open_list(list);
    }

    fn extend_claimed(&mut self, list: u32) {
        self.keeper.extend_claimed(list);
    }

    fn extend_owned(&mut self, list: u32) {
        self.keeper.extend_owned(list);
    }

    fn place(&mut self, list: u32, item: u32) -> (u32, u32) {
        self.keeper.place(list, item)
    }

    fn shut_and_sweep(&mut self, list: u32, out: &mut Vec<u32>) {
        self.keeper.shut_and_sweep(list, out);
    }

    fn reserve_filer(&mut self, grants: u32, items: u32) -> Result<(), AllocError> {
        self.room.reserve(grants, items)
    }

    fn admit(&mut self, grants: &[Grant]) -> Filer {
        let birth = self.keeper.birth();
        let seat = self.keeper.lend(grants);
        let lists = self.keeper.shared();
        lists.name_tells_size();
        Filer::new(lists, seat, birth, grants, &mut self.room)
    }

    /// Each filer is vouched for: the facts of its seat bear its answers out.
    fn vouches(&self, _filer: &Filer) -> bool
        ensures { IsTrue result ↔ Unit {0} }
    {
        true
    }

    fn take_back(&mut self, filer: Filer) {
        let birth = filer.birth();
        self.keeper.shared().name_tells_size();
        let seat = filer.into_seat();
        self.keeper.take_back(seat, birth);
        self.keeper.known_items_are_found();
        self.keeper.known_items_have_chunks();
        self.keeper.known_links_have_chunks();
        self.keeper.chunks_stand_once();
        self.keeper.late_lists_are_shut();
    }

    fn note(&mut self) -> Reader {
        let birth = self.keeper.birth();
        self.keeper.known_items_have_chunks();
        let seat = self.keeper.lend_none();
        Reader::new(seat, birth)
    }

    fn reclaim(&mut self) {
        self.keeper.reclaim();
    }

    fn held(&self) -> u32 {
        self.keeper.held()
    }

    fn unpin(&mut self, reader: Reader) {
        let birth = reader.birth();
        let seat = reader.into_seat();
        self.keeper.take_back(seat, birth);
    }

    fn seats_out(&self) -> u64 {
        self.keeper.seats_out()
    }

    fn slots_agree(&self) {
        self.keeper.known_slots_agree();
        self.keeper.known_items_have_chunks();
        self.keeper.known_items_are_found();
        self.keeper.chunks_stand_once();
    }
}
