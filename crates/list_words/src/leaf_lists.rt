ghost use Rattle.std.specs.Prelude.{◌≡◌, ℕ, ◌+◌, ◌-◌, ◌*◌, ◌/◌, ◌%◌, ◌<◌, ◌≤◌, ◌↔◌, List, [], ◌++◌, length, Option, Some, OnOk, OnErr, IsTrue, Contains, slice_get, slice_index, vec_len};
ghost use Rattle.std.specs.Vec.{vec_capacity};
ghost use Rattle.list_words.specs.Filing.{Filing};
ghost use Rattle.list_words.specs.Store.{Store, Row, Seat, AreMarks, IsStanding, IsFiledAt, IsFoundAt, Stood, StandOnce, MayAdmit, ClearsTo, IsCleared, IsNextChunk, IsOpen, IsReclaimed, IsShut, Keeps, KeepsSlots, row, with_row, with_chunk, with_filer_room, roomier, opened, linked, lengthened, placed_in, shut_now, found_in, chunks_of, admitted, one_more, one_less, birth_now, seats_out, held_of};
ghost use Rattle.list_words.specs.declared.leaf_lists.Answer.{Answer};
ghost use Rattle.list_words.specs.declared.leaf_lists.Seen.{Seen};
ghost use Rattle.list_words.specs.declared.leaf_lists.Filed.TheVariants.{At, Late};
ghost use Rattle.list_words.specs.declared.leaf_lists.Phase.TheVariants.{Fresh};

use list_machine::Grant;
use std::alloc::AllocError;

/// How far a list's life has come.
#[derive(Clone, Copy, Debug, PartialEq, Eq)]
pub enum Phase {
    /// It was never opened.
    Fresh,
    /// It takes items.
    Open,
    /// It was shut and swept.
    Shut,
}

/// What a filing answered.
#[derive(Clone, Copy, Debug, PartialEq, Eq)]
pub enum Filed {
    /// The item stands in this slot of this chunk.
    At { chunk: u32, slot: u32 },
    /// The list was shut before the item came to stand.
    Late { seen: Seen },
}

/// What showed a filing that its list was shut.
#[derive(Clone, Copy, Debug, PartialEq, Eq)]
pub enum Seen {
    /// The claim word had the shut bit.
    Shut,
    /// The slot that was claimed had been marked as moved before the item came.
    Moved { chunk: u32, slot: u32 },
}

/// An item that was filed in a list, and the answer.
#[derive(Clone, Copy, Debug, PartialEq, Eq)]
pub struct Answer {
    pub list: u32,
    pub item: u32,
    pub filed: Filed,
}

/// A value that holds grants and answers, as contracts see it.
pub trait Filings {
    ghost use Rattle.list_words.specs.Filing.{Filing};

    ghost filing: { Self → Filing };

    /// What the filings answered, in order.
    fn answers(&self) -> &[Answer]
        ensures { result.now ≡ (filing self.now).answers };
}

/// The lists of leaves. Each list has two chains of chunks with 256 slots a chunk: loaders claim slots in the
/// claimed chain and file items there, and the owner of the lists places items in the owned chain.
///
/// Contracts see all lists as one store. A call changes only what its clauses name. The owner may know that an
/// item stands in a chunk of a list, and forgets none before the list is cleared.
pub trait LeafLists {
    ghost use Rattle.std.specs.Prelude.{ℕ, Option};
    ghost use Rattle.list_words.specs.Store.{Seat, Store};

    /// What files items into claimed slots.
    type Filer: Filings + Drop;

    /// What reads slots.
    type Reader: Drop;

    ghost store: { Self → Store };

    // the owner knows that the item stands in a slot of the chunk, which is one of the list's: list, chunk, item
    ghost knows: { Self → ℕ → ℕ → ℕ → Type 0 };

    // the owner knows of a slot of the list that it has this item, or, where that is None, that it was marked while it was
    // empty: list, chunk, slot, item
    ghost shown: { Self → ℕ → ℕ → ℕ → Option ℕ → Type 0 };

    // how many places of the list's claimed chain were claimed when it was shut
    ghost claims: { Self → ℕ → ℕ };

    // who the reader is
    ghost seat: { Self.Reader → Seat };

    // the reader knows that a slot of the chunk has the item: chunk, item
    ghost sees: { Self.Reader → ℕ → ℕ → Type 0 };

    // The slots and claim words that the answers of the filer name bear them out. It stays so, until somebody of the
    // filer's birth is taken back as the last one out, or a list is cleared in which it filed.
    ghost borne_out: { Self → Self.Filer → Type 0 };

    /// How many chunks are in no chain.
    fn free(&self) -> u32
        ensures { result ≡ (store self.now).free };

    /// The chunks of the list's claimed chain.
    fn claimed(&self, list: u32) -> &[u32]
        requires { list < length (store self.now).rows }
        ensures { result.now ≡ (row (store self.now) list).claimed };

    /// The chunks of the list's owned chain.
    fn owned(&self, list: u32) -> &[u32]
        requires { list < length (store self.now).rows }
        ensures { result.now ≡ (row (store self.now) list).owned };

    /// Makes room for so many more chunks in the list's chains.
    fn reserve(&mut self, list: u32, claimed: u32, owned: u32) -> Result<(), AllocError>
        requires { list < length (store self.old).rows }
        ensures ok { OnOk result (store self.new ≡ with_row (store self.old) list (roomier (row (store self.old) list) claimed owned)) }
        ensures err { OnErr result (store self.new ≡ store self.old) }
        ensures known { Keeps (knows self.old) (knows self.new) }
        ensures kept { KeepsSlots (shown self.old) (shown self.new) }
        ensures borne { (f : Self.Filer) → borne_out self.old f → borne_out self.new f };

    /// Opens a list, with two empty chains.
    fn open_list(&mut self, list: u32)
        requires below { list < length (store self.old).rows }
        requires new { (row (store self.old) list).phase ≡ Fresh }
        ensures store { store self.new ≡ with_row (store self.old) list (opened (row (store self.old) list)) }
        ensures known { Keeps (knows self.old) (knows self.new) }
        ensures kept { KeepsSlots (shown self.old) (shown self.new) }
        ensures borne { (f : Self.Filer) → borne_out self.old f → borne_out self.new f };

    /// Puts the least free chunk at the end of the claimed chain.
    fn extend_claimed(&mut self, list: u32)
        requires takes { IsOpen (store self.old) list }
        requires room { 0 < (row (store self.old) list).claimed_room }
        requires free { 0 < (store self.old).free }
        ensures store { (c : ℕ) × IsNextChunk (store self.old) c × (store self.new ≡ with_chunk (store self.old) list (linked (row (store self.old) list) c)) }
        ensures known { Keeps (knows self.old) (knows self.new) }
        ensures kept { KeepsSlots (shown self.old) (shown self.new) }
        ensures borne { (f : Self.Filer) → borne_out self.old f → borne_out self.new f };

    /// Puts the least free chunk at the end of the owned chain.
    fn extend_owned(&mut self, list: u32)
        requires takes { IsOpen (store self.old) list }
        requires room { 0 < (row (store self.old) list).owned_room }
        requires free { 0 < (store self.old).free }
        ensures store { (c : ℕ) × IsNextChunk (store self.old) c × (store self.new ≡ with_chunk (store self.old) list (lengthened (row (store self.old) list) c)) }
        ensures known { Keeps (knows self.old) (knows self.new) }
        ensures kept { KeepsSlots (shown self.old) (shown self.new) }
        ensures borne { (f : Self.Filer) → borne_out self.old f → borne_out self.new f };

    /// Places an item in the next slot of the owned chain, and answers its chunk and slot.
    fn place(&mut self, list: u32, item: u32) -> (u32, u32)
        requires takes { IsOpen (store self.old) list }
        requires room { length (row (store self.old) list).placed < 256 * length (row (store self.old) list).owned }
        ensures store { store self.new ≡ with_row (store self.old) list (placed_in (row (store self.old) list) item) }
        ensures chunk { slice_get (row (store self.old) list).owned (length (row (store self.old) list).placed / 256) ≡ Some result.0 }
        ensures slot { result.1 ≡ length (row (store self.old) list).placed % 256 }
        ensures placed { knows self.new list result.0 item }
        ensures shown { shown self.new list result.0 result.1 (Some item) }
        ensures known { Keeps (knows self.old) (knows self.new) }
        ensures kept { KeepsSlots (shown self.old) (shown self.new) }
        ensures borne { (f : Self.Filer) → borne_out self.old f → borne_out self.new f };

    /// Shuts the list, marks its slots as moved, and appends the item of each slot in which the mark found one,
    /// in the order of the claimed slots and then of the owned ones. It marks each place that was claimed before the
    /// shut, and what it appends is known to stand. It takes no memory.
    fn shut_and_sweep(&mut self, list: u32, out: &mut Vec<u32>)
        requires takes { IsOpen (store self.old) list }
        requires room { vec_len out.old + 256 * length (chunks_of (row (store self.old) list)) ≤ vec_capacity out.old }
        ensures store { (marked : List (Option ℕ)) × (length marked ≤ (row (store self.old) list).granted) × (store self.new ≡ shut_now (store self.old) list marked) }
        ensures found { out.new.items ≡ out.old.items ++ found_in (row (store self.new) list) }
        ensures slots { AreMarks (shown self.new list) (claims self.new list) (row (store self.new) list) }
        ensures marks { AreMarks (Stood (knows self.new list)) (claims self.new list) (row (store self.new) list) }
        ensures stands { (x : ℕ) → Contains (found_in (row (store self.new) list)) x → (c : ℕ) × knows self.new list c x }
        ensures swept { (c x : ℕ) → knows self.old list c x → Contains (found_in (row (store self.new) list)) x }
        ensures capacity { vec_capacity out.old ≤ vec_capacity out.new }
        ensures known { Keeps (knows self.old) (knows self.new) }
        ensures kept { KeepsSlots (shown self.old) (shown self.new) }
        ensures borne { (f : Self.Filer) → borne_out self.old f → borne_out self.new f };

    /// Makes room for one filer with so many grants and the answers of so many items.
    fn reserve_filer(&mut self, grants: u32, items: u32) -> Result<(), AllocError>
        ensures ok { OnOk result (store self.new ≡ with_filer_room (store self.old) grants items) }
        ensures err { OnErr result (store self.new ≡ store self.old) }
        ensures known { Keeps (knows self.old) (knows self.new) }
        ensures kept { KeepsSlots (shown self.old) (shown self.new) }
        ensures borne { (f : Self.Filer) → borne_out self.old f → borne_out self.new f };

    /// Makes a filer, which is out until it is taken back. It takes no memory.
    fn admit(&mut self, grants: &[Grant]) -> Self::Filer
        requires { MayAdmit (store self.old) grants.now }
        ensures store { store self.new ≡ admitted (store self.old) grants.now }
        ensures filer { Self.Filer.filing result ≡ record { name = (store self.old).name; birth = birth_now (store self.old); left = grants.now; answers = [] } }
        ensures vouched { borne_out self.new result }
        ensures known { Keeps (knows self.old) (knows self.new) }
        ensures kept { KeepsSlots (shown self.old) (shown self.new) }
        ensures borne { (f : Self.Filer) → borne_out self.old f → borne_out self.new f };

    /// Whether the slots and claim words that the filer's answers name bear these out.
    fn vouches(&self, filer: &Self::Filer) -> bool
        requires { (Self.Filer.filing filer.now).name ≡ (store self.now).name }
        ensures { IsTrue result ↔ borne_out self.now filer.now };

    /// Takes a filer back. Each item that it filed is one that the owner knows to stand in the slot that the answer
    /// names, whose chunk has its place in the list's claimed chain, and, where the list is shut, one that the mark of
    /// this place found. Each list in which an item came late is shut.
    fn take_back(&mut self, filer: Self::Filer)
        requires name { (Self.Filer.filing filer).name ≡ (store self.old).name }
        requires borne_out { borne_out self.old filer }
        ensures store { store self.new ≡ one_less (store self.old) (Self.Filer.filing filer).birth }
        ensures filed { (a : Answer) (c k : ℕ) → Contains (Self.Filer.filing filer).answers a → a.filed ≡ At c k → IsStanding (knows self.new a.list) (row (store self.old) a.list) c a.item }
        ensures slots { (a : Answer) (c k : ℕ) → Contains (Self.Filer.filing filer).answers a → a.filed ≡ At c k → IsFiledAt (shown self.new a.list) (claims self.new a.list) (row (store self.old) a.list) c k a.item }
        ensures late { (a : Answer) (s : Seen) → Contains (Self.Filer.filing filer).answers a → a.filed ≡ Late s → IsShut (store self.old) a.list }
        ensures known { Keeps (knows self.old) (knows self.new) }
        ensures kept { KeepsSlots (shown self.old) (shown self.new) }
        ensures borne { (f : Self.Filer) → 0 < slice_index (store self.new).out (Self.Filer.filing f).birth → borne_out self.old f → borne_out self.new f };

    /// Makes a reader, which is out until it is unpinned. It knows each item that the owner knows to stand in a
    /// chunk of a list that is open. It takes no memory.
    fn note(&mut self) -> Self::Reader
        requires { seats_out (store self.old) < 18446744073709551615 }
        ensures store { store self.new ≡ one_more (store self.old) }
        ensures reader { seat result ≡ record { name = (store self.old).name; birth = birth_now (store self.old) } }
        ensures sees { (l c x : ℕ) → IsOpen (store self.old) l → knows self.old l c x → Contains (chunks_of (row (store self.old) l)) c × sees result c x }
        ensures known { Keeps (knows self.old) (knows self.new) }
        ensures kept { KeepsSlots (shown self.old) (shown self.new) }
        ensures borne { (f : Self.Filer) → borne_out self.old f → borne_out self.new f };

    /// Clears the shut lists that are not cleared, in the order in which they were shut, up to the first that a
    /// reader or filer which is out may reach, and gives their chunks back. It takes no memory.
    fn reclaim(&mut self)
        ensures store { IsReclaimed (store self.old) (store self.new) }
        ensures known { (l c x : ℕ) → (IsCleared (store self.new) l → ⊥) → knows self.old l c x → knows self.new l c x }
        ensures kept { (l c k : ℕ) (y : Option ℕ) → (IsCleared (store self.new) l → ⊥) → shown self.old l c k y → shown self.new l c k y }
        ensures borne { (f : Self.Filer) → ((a : Answer) (c k : ℕ) → Contains (Self.Filer.filing f).answers a → a.filed ≡ At c k → IsCleared (store self.new) a.list → ⊥) → borne_out self.old f → borne_out self.new f };

    /// How many chunks the lists have that are shut and not cleared.
    fn held(&self) -> u32
        ensures { result ≡ held_of (store self.now) };

    /// Gives a reader back. It takes no memory.
    fn unpin(&mut self, reader: Self::Reader)
        requires { (seat reader).name ≡ (store self.old).name }
        ensures store { store self.new ≡ one_less (store self.old) (seat reader).birth }
        ensures known { Keeps (knows self.old) (knows self.new) }
        ensures kept { KeepsSlots (shown self.old) (shown self.new) }
        ensures borne { (f : Self.Filer) → 0 < slice_index (store self.new).out (Self.Filer.filing f).birth → borne_out self.old f → borne_out self.new f };

    /// How many readers and filers are out.
    fn seats_out(&self) -> u64
        ensures { result ≡ seats_out (store self.now) };

    /// A law of what the owner knows of slots. Of one slot it knows one thing; it knows an item in a chunk exactly where
    /// it knows that a slot of the chunk has it; the chunk stands in the list's chains, in which each chunk has one
    /// place; and of a shut list there is one mark for each claim, and each item that it knows there was found at its place.
    fn slots_agree(&self)
        ensures agree { (l c k : ℕ) (y z : Option ℕ) → shown self.now l c k y → shown self.now l c k z → y ≡ z }
        ensures known { (l c x : ℕ) → knows self.now l c x ↔ ((k : ℕ) × shown self.now l c k (Some x)) }
        ensures known_chunks { (l c k x : ℕ) → shown self.now l c k (Some x) → Contains (chunks_of (row (store self.now) l)) c × (k < 256) }
        ensures once { StandOnce (store self.now) }
        ensures claimed { (l : ℕ) → IsShut (store self.now) l → length (row (store self.now) l).marked ≡ claims self.now l }
        ensures found { (l c k x : ℕ) → IsShut (store self.now) l → shown self.now l c k (Some x) → IsFoundAt (row (store self.now) l) c k x };
}
