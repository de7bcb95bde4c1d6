ghost use Rattle.std.specs.Prelude.{◌≡◌, ℕ, ◌+◌, ◌*◌, ◌/◌, ◌%◌, ◌<◌, ◌≤◌, List, [], ◌++◌, ◌∷◌, length, Option, Some, OnOk, OnErr, IfOk, Contains, slice_get, ◌^◌, true, vec_len};
ghost use Rattle.std.specs.Vec.{vec_capacity};
ghost use Rattle.list_machine.specs.Steps.{newcomer};
ghost use Rattle.list_machine.specs.declared.views.Fact.{Fact};
ghost use Rattle.list_machine.specs.declared.views.Fact.TheVariants.{Item, Link, Closed, Empty};
ghost use Rattle.list_machine.specs.declared.views.LinkWord.{LinkWord};
ghost use Rattle.list_words.specs.Store.{AreMarks, IsCleared, IsFoundAt, IsNextChunk, IsOpen, IsReclaimed, IsShut, MayAdmit, StandOnce, admitted, chunks_of, found_in, held_of, lengthened, linked, one_less, one_more, opened, placed_in, roomier, row, seats_out, shut_now, with_chunk, with_row, cleared_store};
ghost use Rattle.list_words.specs.declared.leaf_lists.Phase.TheVariants.{Fresh};
ghost use Rattle.list_book.specs.Books.{MayClearNext, fresh_book, next_in_order};
ghost use Rattle.list_table.specs.Ledgers.{Knows, opening_ledger};
ghost use Rattle.chunk_lists.specs.Keepers.{KeepsFacts, KnownIn, ShownIn, claims_of, store_of, store_with};

use crate::sweeping::shut_and_mark;
use crate::wiping::wipe;
use list_book::{
    Book, chunks_stand_once, counts_are_kept, numbers_are_small, order_is_of_shut_lists,
};
use list_machine::Grant;
use list_table::{GuestSeat, OwnerSeat, SharedLists};
use std::alloc::{AllocError, Global};
use std::marker::Model;
use std::sync::Arc;

/// The owner of lists by atomic words: a share of the lists, the owner's seat and its book. Contracts see what it
/// knows of the words and its book, and both as one store.
#[derive(Drop)]
pub struct Keeper {
    lists: Arc<SharedLists, Global>,
    seat: OwnerSeat,
    book: Book,
}

impl Model for Keeper {
    ghost use Rattle.chunk_lists.specs.Keepers.{KeeperValue, IsKeeper};

    ghost Value = { KeeperValue };

    ghost view = { λ k. record { name = k.seat.name; ledger = k.seat.ledger; book = k.book } };

    ghost invariant = { λ k. IsKeeper k.lists.value k.seat k.book };
}

impl Keeper {
    /// So many lists that were never opened and so many free chunks, and their owner. It refuses only for want of
    /// memory.
    pub fn new(
        alloc: Global,
        lists: u32,
        chunks: u32,
    ) -> Result<(Arc<SharedLists, Global>, Keeper), AllocError>
        requires lists { lists ≤ 200000 }
        requires chunks { chunks ≤ 1000000 }
        ensures lists { IfOk result (λ r. (r.0.value.lists ≡ lists) × (r.0.value.chunks ≡ chunks)) }
        ensures keeper { IfOk result (λ r. r.1 ≡ record { name = r.0.value.name; ledger = opening_ledger lists; book = fresh_book lists chunks }) }
    {
        let book = Book::new(alloc, lists, chunks)?;
        let (shared, seat) = SharedLists::new(alloc, lists, chunks)?;
        let shared = Arc::new(alloc, shared)?;
        let keeper = Keeper {
            lists: shared.clone()?,
            seat,
            book,
        };
        Ok((shared, keeper))
    }

    /// The lists, which filers and readers share.
    pub fn shared(&self) -> &SharedLists
        ensures name { result.now.name ≡ self.now.name }
        ensures lists { result.now.lists ≡ length (store_of self.now).rows }
        ensures chunks { result.now.chunks ≡ (store_of self.now).chunks }
    {
        &self.lists
    }

    /// How many lists are shut: the birth of a seat that is made now.
    pub fn birth(&self) -> u32
        ensures book { result ≡ length (store_of self.now).order }
        ensures ledger { result ≡ length self.now.ledger.owner.book.order }
    {
        self.book.birth()
    }

    /// How many chunks are in no chain.
    pub fn free(&self) -> u32
        ensures { result ≡ (store_of self.now).free }
    {
        self.book.free()
    }

    /// The chunks of the list's claimed chain.
    pub fn claimed(&self, list: u32) -> &[u32]
        requires { list < length (store_of self.now).rows }
        ensures { result.now ≡ (row (store_of self.now) list).claimed }
    {
        self.book.claimed(list)
    }

    /// The chunks of the list's owned chain.
    pub fn owned(&self, list: u32) -> &[u32]
        requires { list < length (store_of self.now).rows }
        ensures { result.now ≡ (row (store_of self.now) list).owned }
    {
        self.book.owned(list)
    }

    /// How many chunks the lists have that are shut and not cleared.
    pub fn held(&self) -> u32
        ensures { result ≡ held_of (store_of self.now) }
    {
        self.book.held()
    }

    /// How many seats are out.
    pub fn seats_out(&self) -> u64
        ensures { result ≡ seats_out (store_of self.now) }
    {
        self.book.seats_out()
    }

    /// Makes room for so many more chunks in the list's chains.
    pub fn reserve(&mut self, list: u32, claimed: u32, owned: u32) -> Result<(), AllocError>
        requires { list < length (store_of self.old).rows }
        ensures ok { OnOk result (store_of self.new ≡ with_row (store_of self.old) list (roomier (row (store_of self.old) list) claimed owned)) }
        ensures err { OnErr result (self.new ≡ self.old) }
        ensures known { self.new.ledger ≡ self.old.ledger }
    {
        self.book.reserve(list, claimed, owned)
    }

    /// Opens a list, with two empty chains.
    pub fn open_list(&mut self, list: u32)
        requires below { list < length (store_of self.old).rows }
        requires new { (row (store_of self.old) list).phase ≡ Fresh }
        ensures store { store_of self.new ≡ with_row (store_of self.old) list (opened (row (store_of self.old) list)) }
        ensures known { self.new.ledger ≡ self.old.ledger }
    {
        self.book.open_list(list);
    }

    /// Links the least free chunk at the end of the list's claimed chain.
    pub fn extend_claimed(&mut self, list: u32)
        requires takes { IsOpen (store_of self.old) list }
        requires room { 0 < (row (store_of self.old) list).claimed_room }
        requires free { 0 < (store_of self.old).free }
        ensures store { (c : ℕ) × IsNextChunk (store_of self.old) c × (store_of self.new ≡ with_chunk (store_of self.old) list (linked (row (store_of self.old) list) c)) }
        ensures known { KeepsFacts self.old self.new }
    {
        numbers_are_small(&self.book);
        let chain = self.book.claimed(list);
        let rank = chain.len() as u32;
        let behind = chain.last().copied();
        let chunk = self.book.extend_claimed(list);
        self.lists.link(&mut self.seat, list, behind, rank, chunk);
    }

    /// Puts the least free chunk at the end of the list's owned chain.
    pub fn extend_owned(&mut self, list: u32)
        requires takes { IsOpen (store_of self.old) list }
        requires room { 0 < (row (store_of self.old) list).owned_room }
        requires free { 0 < (store_of self.old).free }
        ensures store { (c : ℕ) × IsNextChunk (store_of self.old) c × (store_of self.new ≡ with_chunk (store_of self.old) list (lengthened (row (store_of self.old) list) c)) }
        ensures known { KeepsFacts self.old self.new }
    {
        let chunk = self.book.extend_owned(list);
        self.lists.adopt(&mut self.seat, list, chunk);
    }

    /// Places an item in the next slot of the list's owned chain, and answers its chunk and slot.
    pub fn place(&mut self, list: u32, item: u32) -> (u32, u32)
        requires takes { IsOpen (store_of self.old) list }
        requires room { length (row (store_of self.old) list).placed < 256 * length (row (store_of self.old) list).owned }
        ensures store { store_of self.new ≡ with_row (store_of self.old) list (placed_in (row (store_of self.old) list) item) }
        ensures chunk { slice_get (row (store_of self.old) list).owned (length (row (store_of self.old) list).placed / 256) ≡ Some result.0 }
        ensures slot { result.1 ≡ length (row (store_of self.old) list).placed % 256 }
        ensures placed { Knows self.new.ledger.owner.facts (Item list result.0 result.1 item) }
        ensures known { KeepsFacts self.old self.new }
    {
        numbers_are_small(&self.book);
        self.seat.notes_are_kept();
        let (chunk, slot) = self.book.use_slot(list);
        self.lists.place(&mut self.seat, list, chunk, slot, item);
        (chunk, slot)
    }

    /// Shuts the list, marks its slots as moved, and appends the item of each slot in which the mark found one, in
    /// the order of the claimed slots and then of the owned ones. It takes no memory.
    pub fn shut_and_sweep(&mut self, list: u32, out: &mut Vec<u32>)
        requires takes { IsOpen (store_of self.old) list }
        requires room { vec_len out.old + 256 * length (chunks_of (row (store_of self.old) list)) ≤ vec_capacity out.old }
        ensures store { (marked : List (Option ℕ)) × (length marked ≤ (row (store_of self.old) list).granted) × (store_of self.new ≡ shut_now (store_of self.old) list marked) }
        ensures found { out.new.items ≡ out.old.items ++ found_in (row (store_of self.new) list) }
        ensures marks { AreMarks (ShownIn self.new list) (claims_of self.new list) (row (store_of self.new) list) }
        ensures swept { (c x : ℕ) → KnownIn self.old list c x → Contains (found_in (row (store_of self.new) list)) x }
        ensures capacity { vec_capacity out.old ≤ vec_capacity out.new }
        ensures known { KeepsFacts self.old self.new }
    {
        numbers_are_small(&self.book);
        let claimed = self.book.claimed(list);
        let owned = self.book.owned(list);
        let used = self.book.used(list);
        shut_and_mark(&self.lists, &mut self.seat, list, claimed, owned, used, out);
        self.seat.notes_are_kept();
        self.book.shut(list);
    }

    /// Makes a seat with these grants, which is out until it is taken back, and knows what the owner knows of the
    /// lists that are open. It takes no memory.
    pub fn lend(&mut self, grants: &[Grant]) -> GuestSeat
        requires { (r : ℕ) × (i : ℕ) × MayAdmit (store_with self.old r i) grants.now }
        ensures store { store_of self.new ≡ admitted (store_of self.old) grants.now }
        ensures guest { result ≡ record { name = self.old.name; guest = newcomer self.old.ledger.owner grants.now } }
        ensures known { KeepsFacts self.old self.new }
    {
        self.book.grant(grants);
        self.lists.admit(&mut self.seat, grants)
    }

    /// Makes a seat with no grants.
    pub fn lend_none(&mut self) -> GuestSeat
        requires { seats_out (store_of self.old) < 18446744073709551615 }
        ensures store { store_of self.new ≡ one_more (store_of self.old) }
        ensures guest { result ≡ record { name = self.old.name; guest = newcomer self.old.ledger.owner [] } }
        ensures open { (l c k x : ℕ) → IsOpen (store_of self.old) l → Knows self.old.ledger.owner.facts (Item l c k x) → Knows result.guest.facts (Item l c k x) }
        ensures known { KeepsFacts self.old self.new }
    {
        numbers_are_small(&self.book);
        self.lend(&[])
    }

    /// Takes a seat back. The owner knows what its guest knew.
    pub fn take_back(&mut self, guest: GuestSeat, birth: u32)
        requires name { guest.name ≡ self.old.name }
        requires out { guest.guest.out ≡ true }
        requires birth { birth ≡ guest.guest.birth }
        ensures store { store_of self.new ≡ one_less (store_of self.old) birth }
        ensures learns { (f : Fact) → Knows guest.guest.facts f → Knows self.new.ledger.owner.facts f }
        ensures known { KeepsFacts self.old self.new }
    {
        self.lists.take_back(&mut self.seat, guest);
        self.book.count_off(birth);
    }

    /// Clears the shut lists that are not cleared, in the order in which they were shut, up to the first that a seat
    /// which is out may reach, and gives their chunks back. It takes no memory.
    pub fn reclaim(&mut self)
        ensures store { IsReclaimed (store_of self.old) (store_of self.new) }
        ensures known { (l c k : ℕ) (y : Option ℕ) → (IsCleared (store_of self.new) l → ⊥) → ShownIn self.old l c k y → ShownIn self.new l c k y }
    {
        counts_are_kept(&self.book);
        while let Some(list) = self.book.may_clear() {
            self.clear(list);
        }
        counts_are_kept(&self.book);
    }

    /// A law: of one slot the owner knows one thing.
    pub fn known_slots_agree(&self)
        ensures { (l c k : ℕ) (y z : Option ℕ) → ShownIn self.now l c k y → ShownIn self.now l c k z → y ≡ z }
    {
        self.seat.facts_agree();
    }

    /// A law: a chunk has one place in the chains of all lists.
    pub fn chunks_stand_once(&self)
        ensures { StandOnce (store_of self.now) }
    {
        chunks_stand_once(&self.book);
    }

    /// A law: of a shut list there is one mark for each place that its shut found claimed; and an item that the owner
    /// knows to stand there was found by its sweep, in its slot.
    pub fn known_items_are_found(&self)
        ensures claims { (l : ℕ) → IsShut (store_of self.now) l → length (row (store_of self.now) l).marked ≡ claims_of self.now l }
        ensures found { (l c k x : ℕ) → IsShut (store_of self.now) l → Knows self.now.ledger.owner.facts (Item l c k x) → IsFoundAt (row (store_of self.now) l) c k x }
    {
        self.seat.notes_are_kept();
        self.seat.facts_agree();
        self.seat.items_are_swept();
        self.seat.items_stand_in_chunks();
    }

    /// A law: an item that the owner knows stands in a chunk of its list, and is a number of 32 bits.
    pub fn known_items_have_chunks(&self)
        ensures { (l c k x : ℕ) → Knows self.now.ledger.owner.facts (Item l c k x) → Contains (chunks_of (row (store_of self.now) l)) c × (k < 256) × (x < 2 ^ 32) }
    {
        self.seat.items_stand_in_chunks();
    }

    /// A law: a chunk to which the owner knows a link to lead has that rank in the list's claimed chain.
    pub fn known_links_have_chunks(&self)
        ensures { (l r c : ℕ) (from : LinkWord) → Knows self.now.ledger.owner.facts (Link l from r c) → slice_get (row (store_of self.now) l).claimed r ≡ Some c }
    {
        self.seat.links_stand_in_chains();
    }

    /// A law: a list that is known to be shut is shut, and so is one of which a slot was marked while it was empty.
    pub fn late_lists_are_shut(&self)
        ensures closed { (l : ℕ) → Knows self.now.ledger.owner.facts (Closed l) → IsShut (store_of self.now) l }
        ensures empty { (l c k : ℕ) → Knows self.now.ledger.owner.facts (Empty l c k) → IsShut (store_of self.now) l }
    {
        self.seat.late_lists_are_shut();
    }

    /// Clears the next shut list.
    fn clear(&mut self, list: u32)
        requires may { MayClearNext self.old.book }
        requires next { list ≡ next_in_order self.old.book }
        ensures store { store_of self.new ≡ cleared_store (store_of self.old) list }
        ensures shut { IsShut (store_of self.old) list }
        ensures below { list < length (store_of self.old).rows }
        ensures known { (l c k : ℕ) (y : Option ℕ) → (l ≡ list → ⊥) → ShownIn self.old l c k y → ShownIn self.new l c k y }
    {
        numbers_are_small(&self.book);
        order_is_of_shut_lists(&self.book);
        self.seat.order_is_kept();
        let claimed = self.book.claimed(list);
        let owned = self.book.owned(list);
        wipe(&self.lists, &mut self.seat, list, claimed, owned);
        self.book.clear_next();
    }
}
