ghost use Rattle.std.specs.Prelude.{◌≡◌, ◌≢◌, ℕ, suc, ◌+◌, ◌-◌, ◌*◌, ◌/◌, ◌%◌, ◌^◌, ◌<◌, ◌≤◌, ◌↔◌, Bool, if◌then◌else◌, All, AllPairs, replicate, List, [], ◌++◌, Option, Some, length, slice_get, slice_index, Contains, IfOk, OnOk, OnErr, IsTrue, vec_len};
ghost use Rattle.list_machine.specs.Words.{decode};
ghost use Rattle.list_machine.specs.declared.views.Grant.{Grant};
ghost use Rattle.list_machine.specs.Grants.{granted_in_all};
ghost use Rattle.list_words.specs.Filing.{Filing, HasGrant, answered};
ghost use Rattle.list_words.specs.Plain.{Bears, BearsOut, Knows, SameFiled, Saw, Shown, StayFiled, chunk_at, claims_in, fresh_plain, list_in, next_cleared, next_list, seat_of, slot_word, store_of, with_list};
ghost use Rattle.list_words.specs.PlainRows.{filed_list, items_of, no_list};
ghost use Rattle.list_words.specs.PlainGrants.{MayGrant, grant_lists};
ghost use Rattle.list_words.specs.Store.{AreMarks, IsCleared, IsFiledAt, IsFoundAt, IsInNoChain, IsNextChunk, IsOpen, IsReclaimed, IsShut, IsStanding, Keeps, KeepsSlots, MayAdmit, StandOnce, Stood, Unreached, admitted, birth_now, chunks_of, found_in, lengthened, linked, one_less, one_more, opened, placed_in, roomier, row, seats_out, shut_now, with_chunk, with_filer_room, with_row};
ghost use Rattle.list_words.specs.declared.leaf_lists.Filed.TheVariants.{At, Late};
ghost use Rattle.list_words.specs.declared.leaf_lists.Answer.{Answer};
ghost use Rattle.list_words.specs.declared.leaf_lists.Seen.{Seen};
ghost use Rattle.list_words.specs.declared.leaf_lists.Phase.TheVariants.{Fresh, Shut};
ghost use Rattle.std.specs.Vec.{vec_capacity};
ghost use Rattle.list_words.specs.declared.leaf_lists.Seen.TheVariants.{Shut as SawShut};

use crate::births::{count_off, is_counted};
use crate::plain_filer::PlainReader;
use crate::plain_homes::Home;
use crate::plain_row::PlainRow;
use crate::within::{append_within, push_within};
use crate::{Answer, Filed, Filings, Grant, LeafLists, Phase, PlainFiler};
use chunk_pool::Pool;
use std::alloc::{AllocError, Global};
use std::marker::Model;
use std::mem;
use std::snapshot::Snapshot;

#[cfg(test)]
mod parts;

/// Lists over vectors, for one thread. Contracts see the lists with their items, and what is counted of them.
#[derive(Drop)]
pub struct PlainLists {
    rows: Vec<PlainRow>,
    pool: Pool,
    homes: Vec<Home>,
    order: Vec<u32>,
    cleared: u32,
    out: Vec<u64>,
    seats: u64,
    held: u32,
    given: u32,
    spare_grants: Vec<Grant>,
    spare_answers: Vec<Answer>,
    grants_room: u32,
    items_room: u32,
    alloc: Global,
}

impl Model for PlainLists {
    ghost use Rattle.list_words.specs.Plain.{Plain};

    ghost Value = { Plain };

    ghost use Rattle.list_words.specs.PlainKept.{plain_of, IsKept};

    ghost view = { plain_of };

    ghost invariant = { IsKept };
}

impl PlainLists {
    /// So many lists that were never opened, and so many free chunks.
    pub fn new(alloc: Global, lists: u32, chunks: u32) -> Result<PlainLists, AllocError>
        requires lists { lists ≤ 200000 }
        requires chunks { chunks ≤ 1000000 }
        ensures { IfOk result (λ all. all ≡ fresh_plain lists chunks) }
    {
        let rows = fresh_rows(alloc, lists)?;
        let nowhere = Home {
            list: 0,
            owned: false,
            rank: 0,
        };
        let homes = vec![in alloc; nowhere; chunks as usize]?;
        let mut out = Vec::with_capacity(alloc, lists as usize + 1)?;
        push_within(&mut out, 0);
        let pool = Pool::new(alloc, chunks)?;
        let order = Vec::with_capacity(alloc, lists as usize)?;
        Ok(PlainLists {
            rows,
            pool,
            homes,
            order,
            cleared: 0,
            out,
            seats: 0,
            held: 0,
            given: 0,
            spare_grants: Vec::new(alloc),
            spare_answers: Vec::new(alloc),
            grants_room: 0,
            items_room: 0,
            alloc,
        })
    }

    /// Claims the next slot of the list's claimed chain and files the item there, or tells that the list is shut.
    /// It uses one grant of the filer in the list.
    pub fn file(&mut self, filer: &mut PlainFiler, list: u32, item: u32) -> Filed
        requires granted { HasGrant filer.old list }
        requires room { ((list_in self.old.lists list).phase ≡ Shut → ⊥) → length (list_in self.old.lists list).filed < (list_in self.old.lists list).granted }
        ensures filer { filer.new ≡ answered filer.old list item result }
        ensures late { (list_in self.old.lists list).phase ≡ Shut → (result ≡ Late SawShut) × (self.new ≡ self.old) }
        ensures filed { ((list_in self.old.lists list).phase ≡ Shut → ⊥) → self.new ≡ with_list self.old list (filed_list (list_in self.old.lists list) item) }
        ensures at { ((list_in self.old.lists list).phase ≡ Shut → ⊥) → (c : ℕ) × (slice_get (list_in self.old.lists list).claimed (length (list_in self.old.lists list).filed / 256) ≡ Some c) × (result ≡ At c (length (list_in self.old.lists list).filed % 256)) }
    {
        let row = &mut self.rows[list as usize];
        let filed = row.file(item);
        filer.record(list, item, filed);
        filed
    }

    /// The word of a slot: 0 where it has no item, and the item with the moved bit where the list is shut.
    pub fn slot(&self, chunk: u32, i: u32) -> u64
        requires chunk { chunk < self.now.chunks }
        requires within { i < 256 }
        ensures word { (owned : Bool) (l r : ℕ) → chunk_at self.now.lists owned l r ≡ Some chunk → decode result ≡ slot_word (list_in self.now.lists l) owned r i }
        ensures free { IsInNoChain (store_of self.now) chunk → result ≡ 0 }
    {
        let home = self.homes[chunk as usize];
        match self.rows.get(home.list as usize) {
            Some(row) => row.slot(home.owned, home.rank, chunk, i),
            None => 0,
        }
    }

    /// Whether the slot or claim word that the answer names bears it out.
    fn bears(&self, answer: &Answer) -> bool
        ensures { IsTrue result ↔ Bears (list_in self.now.lists answer.now.list) answer.now.item answer.now.filed }
    {
        let Some(row) = self.rows.get(answer.list as usize) else {
            return false;
        };
        match answer.filed {
            Filed::At { chunk, slot } => match self.homes.get(chunk as usize) {
                Some(home) => row.has_filed(home.rank, chunk, slot, answer.item),
                None => false,
            },
            Filed::Late { .. } => row.phase() == Phase::Shut,
        }
    }

    /// Whether the next list in the order of shuts may be cleared.
    fn may_clear(&self) -> bool
        ensures may { IsTrue result ↔ ((self.now.cleared < length self.now.order) × Unreached self.now.out self.now.cleared) }
        ensures begun { self.now.cleared ≤ length self.now.order }
    {
        let next = self.cleared as usize;
        next < self.order.len() && self.out[next] == 0
    }

    /// Clears the next list in the order of shuts.
    fn clear_next(&mut self)
        requires some { self.old.cleared < length self.old.order }
        requires nobody { Unreached self.old.out self.old.cleared }
        ensures cleared { self.new ≡ next_cleared self.old }
        ensures shut { (list_in self.old.lists (next_list self.old)).phase ≡ Shut }
    {
        let list = self.order[self.cleared as usize];
        let row = &mut self.rows[list as usize];
        self.pool.give_all(row.claimed());
        self.pool.give_all(row.owned());
        self.held -= (row.claimed().len() + row.owned().len()) as u32;
        row.empty(self.alloc);
        self.cleared += 1;
    }
}

impl LeafLists for PlainLists {
    ghost use Rattle.list_words.specs.Plain.{Knows, BearsOut, Saw, Shown, claims_in, seat_of, store_of};

    type Filer = PlainFiler;

    type Reader = PlainReader;

    ghost store = { store_of };

    ghost knows = { Knows };

    ghost shown = { Shown };

    ghost claims = { claims_in };

    ghost seat = { seat_of };

    ghost sees = { Saw };

    ghost borne_out = { BearsOut };

    fn free(&self) -> u32 {
        self.pool.free()
    }

    fn claimed(&self, list: u32) -> &[u32] {
        let row = &self.rows[list as usize];
        row.claimed()
    }

    fn owned(&self, list: u32) -> &[u32] {
        let row = &self.rows[list as usize];
        row.owned()
    }

    fn reserve(&mut self, list: u32, claimed: u32, owned: u32) -> Result<(), AllocError>
        requires { list < length (store_of self.old).rows }
        ensures ok { OnOk result (store_of self.new ≡ with_row (store_of self.old) list (roomier (row (store_of self.old) list) claimed owned)) }
        ensures err { OnErr result (store_of self.new ≡ store_of self.old) }
        ensures known { Keeps (Knows self.old) (Knows self.new) }
        ensures kept { KeepsSlots (Shown self.old) (Shown self.new) }
        ensures borne { (f : Filing) → BearsOut self.old f → BearsOut self.new f }
        ensures stays { StayFiled self.old.lists self.new.lists }
        ensures same_filed { SameFiled self.old self.new }
    {
        let row = &mut self.rows[list as usize];
        row.reserve(claimed, owned)?;
        Ok(())
    }

    fn open_list(&mut self, list: u32)
        requires below { list < length (store_of self.old).rows }
        requires new { (row (store_of self.old) list).phase ≡ Fresh }
        ensures store { store_of self.new ≡ with_row (store_of self.old) list (opened (row (store_of self.old) list)) }
        ensures known { Keeps (Knows self.old) (Knows self.new) }
        ensures kept { KeepsSlots (Shown self.old) (Shown self.new) }
        ensures borne { (f : Filing) → BearsOut self.old f → BearsOut self.new f }
        ensures stays { StayFiled self.old.lists self.new.lists }
        ensures same_filed { SameFiled self.old self.new }
    {
        let row = &mut self.rows[list as usize];
        row.open();
    }

    fn extend_claimed(&mut self, list: u32)
        requires takes { IsOpen (store_of self.old) list }
        requires room { 0 < (row (store_of self.old) list).claimed_room }
        requires free { 0 < (store_of self.old).free }
        ensures store { (c : ℕ) × IsNextChunk (store_of self.old) c × (store_of self.new ≡ with_chunk (store_of self.old) list (linked (row (store_of self.old) list) c)) }
        ensures known { Keeps (Knows self.old) (Knows self.new) }
        ensures kept { KeepsSlots (Shown self.old) (Shown self.new) }
        ensures borne { (f : Filing) → BearsOut self.old f → BearsOut self.new f }
        ensures stays { StayFiled self.old.lists self.new.lists }
        ensures same_filed { SameFiled self.old self.new }
    {
        let Some(chunk) = self.pool.take() else {
            unreachable!()
        };
        let row = &mut self.rows[list as usize];
        self.homes[chunk as usize] = Home {
            list,
            owned: false,
            rank: row.claimed().len() as u32,
        };
        row.link(chunk);
    }

    fn extend_owned(&mut self, list: u32)
        requires takes { IsOpen (store_of self.old) list }
        requires room { 0 < (row (store_of self.old) list).owned_room }
        requires free { 0 < (store_of self.old).free }
        ensures store { (c : ℕ) × IsNextChunk (store_of self.old) c × (store_of self.new ≡ with_chunk (store_of self.old) list (lengthened (row (store_of self.old) list) c)) }
        ensures known { Keeps (Knows self.old) (Knows self.new) }
        ensures kept { KeepsSlots (Shown self.old) (Shown self.new) }
        ensures borne { (f : Filing) → BearsOut self.old f → BearsOut self.new f }
        ensures stays { StayFiled self.old.lists self.new.lists }
        ensures same_filed { SameFiled self.old self.new }
    {
        let Some(chunk) = self.pool.take() else {
            unreachable!()
        };
        let row = &mut self.rows[list as usize];
        self.homes[chunk as usize] = Home {
            list,
            owned: true,
            rank: row.owned().len() as u32,
        };
        row.lengthen(chunk);
    }

    fn place(&mut self, list: u32, item: u32) -> (u32, u32)
        requires takes { IsOpen (store_of self.old) list }
        requires room { length (row (store_of self.old) list).placed < 256 * length (row (store_of self.old) list).owned }
        ensures store { store_of self.new ≡ with_row (store_of self.old) list (placed_in (row (store_of self.old) list) item) }
        ensures chunk { slice_get (row (store_of self.old) list).owned (length (row (store_of self.old) list).placed / 256) ≡ Some result.0 }
        ensures slot { result.1 ≡ length (row (store_of self.old) list).placed % 256 }
        ensures placed { Knows self.new list result.0 item }
        ensures shown { Shown self.new list result.0 result.1 (Some item) }
        ensures known { Keeps (Knows self.old) (Knows self.new) }
        ensures kept { KeepsSlots (Shown self.old) (Shown self.new) }
        ensures borne { (f : Filing) → BearsOut self.old f → BearsOut self.new f }
        ensures stays { StayFiled self.old.lists self.new.lists }
        ensures same_filed { SameFiled self.old self.new }
    {
        let row = &mut self.rows[list as usize];
        row.place(item)
    }

    fn shut_and_sweep(&mut self, list: u32, out: &mut Vec<u32>)
        requires takes { IsOpen (store_of self.old) list }
        requires room { vec_len out.old + 256 * length (chunks_of (row (store_of self.old) list)) ≤ vec_capacity out.old }
        ensures store { (marked : List (Option ℕ)) × (length marked ≤ (row (store_of self.old) list).granted) × (store_of self.new ≡ shut_now (store_of self.old) list marked) }
        ensures found { out.new.items ≡ out.old.items ++ found_in (row (store_of self.new) list) }
        ensures slots { AreMarks (Shown self.new list) (claims_in self.new list) (row (store_of self.new) list) }
        ensures marks { AreMarks (Stood (Knows self.new list)) (claims_in self.new list) (row (store_of self.new) list) }
        ensures stands { (x : ℕ) → Contains (found_in (row (store_of self.new) list)) x → (c : ℕ) × Knows self.new list c x }
        ensures swept { (c x : ℕ) → Knows self.old list c x → Contains (found_in (row (store_of self.new) list)) x }
        ensures capacity { vec_capacity out.old ≤ vec_capacity out.new }
        ensures known { Keeps (Knows self.old) (Knows self.new) }
        ensures kept { KeepsSlots (Shown self.old) (Shown self.new) }
        ensures borne { (f : Filing) → BearsOut self.old f → BearsOut self.new f }
        ensures stays { StayFiled self.old.lists self.new.lists }
        ensures same_filed { SameFiled self.old self.new }
        ensures all { out.new.items ≡ out.old.items ++ items_of (list_in self.old.lists list) }
    {
        let row = &mut self.rows[list as usize];
        row.sweep(out);
        self.held += (row.claimed().len() + row.owned().len()) as u32;
        push_within(&mut self.order, list);
        push_within(&mut self.out, 0);
    }

    fn reserve_filer(&mut self, grants: u32, items: u32) -> Result<(), AllocError>
        ensures ok { OnOk result (store_of self.new ≡ with_filer_room (store_of self.old) grants items) }
        ensures err { OnErr result (store_of self.new ≡ store_of self.old) }
        ensures known { Keeps (Knows self.old) (Knows self.new) }
        ensures kept { KeepsSlots (Shown self.old) (Shown self.new) }
        ensures borne { (f : Filing) → BearsOut self.old f → BearsOut self.new f }
        ensures stays { StayFiled self.old.lists self.new.lists }
        ensures same_filed { SameFiled self.old self.new }
    {
        self.spare_grants.reserve(grants as usize)?;
        self.spare_answers.reserve(items as usize)?;
        self.grants_room = self.grants_room.max(grants);
        self.items_room = self.items_room.max(items);
        Ok(())
    }

    fn admit(&mut self, grants: &[Grant]) -> PlainFiler
        requires { MayAdmit (store_of self.old) grants.now }
        ensures store { store_of self.new ≡ admitted (store_of self.old) grants.now }
        ensures filer { result ≡ record { name = (store_of self.old).name; birth = birth_now (store_of self.old); left = grants.now; answers = [] } }
        ensures vouched { BearsOut self.new result }
        ensures known { Keeps (Knows self.old) (Knows self.new) }
        ensures kept { KeepsSlots (Shown self.old) (Shown self.new) }
        ensures borne { (f : Filing) → BearsOut self.old f → BearsOut self.new f }
        ensures stays { StayFiled self.old.lists self.new.lists }
        ensures same_filed { SameFiled self.old self.new }
    {
        let mut kept = mem::replace(&mut self.spare_grants, Vec::new(self.alloc));
        append_within(&mut kept, grants);
        let answers = mem::replace(&mut self.spare_answers, Vec::new(self.alloc));
        self.given += grant_all(&mut self.rows, grants);
        self.grants_room = 0;
        self.items_room = 0;
        let birth = self.order.len();
        self.out[birth] += 1;
        self.seats += 1;
        PlainFiler::new(birth as u32, kept, answers)
    }

    /// True exactly where somebody with the filer's birth is out, and each answer of the filer is borne out by the
    /// slot or claim word that it names.
    fn vouches(&self, filer: &PlainFiler) -> bool
        ensures { IsTrue result ↔ BearsOut self.now filer.now }
    {
        if !is_counted(&self.out, filer.birth()) {
            return false;
        }
        for answer in filer.answers() {
            if !self.bears(answer) {
                return false;
            }
        }
        true
    }

    fn take_back(&mut self, filer: PlainFiler)
        requires name { filer.name ≡ (store_of self.old).name }
        requires borne_out { BearsOut self.old filer }
        ensures store { store_of self.new ≡ one_less (store_of self.old) filer.birth }
        ensures filed { (a : Answer) (c k : ℕ) → Contains filer.answers a → a.filed ≡ At c k → IsStanding (Knows self.new a.list) (row (store_of self.old) a.list) c a.item }
        ensures slots { (a : Answer) (c k : ℕ) → Contains filer.answers a → a.filed ≡ At c k → IsFiledAt (Shown self.new a.list) (claims_in self.new a.list) (row (store_of self.old) a.list) c k a.item }
        ensures late { (a : Answer) (s : Seen) → Contains filer.answers a → a.filed ≡ Late s → IsShut (store_of self.old) a.list }
        ensures known { Keeps (Knows self.old) (Knows self.new) }
        ensures kept { KeepsSlots (Shown self.old) (Shown self.new) }
        ensures borne { (f : Filing) → 0 < slice_index (store_of self.new).out f.birth → BearsOut self.old f → BearsOut self.new f }
        ensures stays { StayFiled self.old.lists self.new.lists }
        ensures same_filed { SameFiled self.old self.new }
    {
        if count_off(&mut self.out, filer.birth()) {
            self.seats -= 1;
        }
    }

    fn note(&mut self) -> PlainReader
        requires { seats_out (store_of self.old) < 18446744073709551615 }
        ensures store { store_of self.new ≡ one_more (store_of self.old) }
        ensures reader { seat_of result ≡ record { name = (store_of self.old).name; birth = birth_now (store_of self.old) } }
        ensures sees { (l c x : ℕ) → IsOpen (store_of self.old) l → Knows self.old l c x → Contains (chunks_of (row (store_of self.old) l)) c × Saw result c x }
        ensures known { Keeps (Knows self.old) (Knows self.new) }
        ensures kept { KeepsSlots (Shown self.old) (Shown self.new) }
        ensures borne { (f : Filing) → BearsOut self.old f → BearsOut self.new f }
        ensures stays { StayFiled self.old.lists self.new.lists }
        ensures same_filed { SameFiled self.old self.new }
    {
        let now = self.order.len();
        self.out[now] += 1;
        self.seats += 1;
        PlainReader {
            birth: now as u32,
            lists: Snapshot::of(&self.rows),
        }
    }

    fn reclaim(&mut self)
        ensures store { IsReclaimed (store_of self.old) (store_of self.new) }
        ensures known { (l c x : ℕ) → (IsCleared (store_of self.new) l → ⊥) → Knows self.old l c x → Knows self.new l c x }
        ensures kept { (l c k : ℕ) (y : Option ℕ) → (IsCleared (store_of self.new) l → ⊥) → Shown self.old l c k y → Shown self.new l c k y }
        ensures borne { (f : Filing) → ((a : Answer) (c k : ℕ) → Contains f.answers a → a.filed ≡ At c k → IsCleared (store_of self.new) a.list → ⊥) → BearsOut self.old f → BearsOut self.new f }
        ensures stays { (l : ℕ) → (IsCleared (store_of self.new) l → ⊥) → list_in self.new.lists l ≡ list_in self.old.lists l }
    {
        while self.may_clear() {
            self.clear_next();
        }
    }

    fn held(&self) -> u32 {
        self.held
    }

    fn unpin(&mut self, reader: PlainReader)
        requires { (seat_of reader).name ≡ (store_of self.old).name }
        ensures store { store_of self.new ≡ one_less (store_of self.old) (seat_of reader).birth }
        ensures known { Keeps (Knows self.old) (Knows self.new) }
        ensures kept { KeepsSlots (Shown self.old) (Shown self.new) }
        ensures borne { (f : Filing) → 0 < slice_index (store_of self.new).out f.birth → BearsOut self.old f → BearsOut self.new f }
        ensures stays { StayFiled self.old.lists self.new.lists }
        ensures same_filed { SameFiled self.old self.new }
    {
        if count_off(&mut self.out, reader.birth) {
            self.seats -= 1;
        }
    }

    fn seats_out(&self) -> u64 {
        self.seats
    }

    fn slots_agree(&self) {
        let _ = &self.seats;
    }
}

/// So many lists that were never opened.
fn fresh_rows(alloc: Global, lists: u32) -> Result<Vec<PlainRow>, AllocError>
    ensures { IfOk result (λ rows. rows.items ≡ replicate lists no_list) }
{
    let mut rows = Vec::with_capacity(alloc, lists as usize)?;
    for _ in 0..lists {
        rows.push(PlainRow::new(alloc))?;
    }
    Ok(rows)
}

/// Lets the slots of the grants be claimed. Answers how many these are in all.
fn grant_all(rows: &mut Vec<PlainRow>, grants: &[Grant]) -> u32
    requires apart { AllPairs (λ (a b : Grant). a.list ≢ b.list) grants.now }
    requires takes { All (MayGrant rows.old.items) grants.now }
    requires few { granted_in_all grants.now < 2 ^ 31 }
    ensures rows { rows.new.items ≡ grant_lists grants.now rows.old.items }
    ensures len { vec_len rows.new ≡ vec_len rows.old }
    ensures all { result ≡ granted_in_all grants.now }
{
    let mut all = 0;
    for grant in grants {
        let row = &mut rows[grant.list as usize];
        row.grant(grant.n);
        all += grant.n;
    }
    all
}
