ghost use Rattle.std.specs.Prelude.{◌≡◌, ◌≢◌, ℕ, suc, ◌+◌, ◌-◌, ◌*◌, ◌/◌, ◌%◌, ◌^◌, ◌<◌, ◌≤◌, if◌then◌else◌, All, AllPairs, replicate, map, Some, length, slice_get, sum, IfOk, OnOk, OnErr, MatchOption, vec_len};
ghost use Rattle.list_machine.specs.declared.views.Grant.{Grant};
ghost use Rattle.list_machine.specs.Grants.{granted_in_all};
ghost use Rattle.list_words.specs.PlainGrants.{MayGrant};
ghost use Rattle.list_words.specs.declared.leaf_lists.Phase.TheVariants.{Fresh};
ghost use Rattle.list_book.specs.BookKept.{bare_list};
ghost use Rattle.list_book.specs.Books.{IsInNoRow, IsSized, MayClearNext, MayGrantAll, TakesItems, book_held, book_row, fresh_book, fresh_row, granted_rows, lengthened_row, linked_row, next_in_order, opened_row, roomier_row, row_at, used_row, with_book_row, with_grants, with_next_cleared, with_seat, with_shut_list, with_taken_chunk, without_seat};

use crate::list_row::ListRow;
use chunk_pool::Pool;
use list_words::{Grant, count_off, push_within};
use std::alloc::{AllocError, Global};
use std::marker::Model;

pub mod laws;
#[cfg(test)]
mod parts;

/// What the owner of lists keeps of them in its own memory, without the items in their slots: for each list its
/// phase and its chains, the free chunks, the order in which lists were shut, and who is out by birth.
///
/// A seat is born when it is made, and its birth is how many lists were shut then. A shut list may be cleared
/// once nobody is out who was born before it was shut.
#[derive(Drop)]
pub struct Book {
    rows: Vec<ListRow>,
    pool: Pool,
    order: Vec<u32>,
    cleared: u32,
    out: Vec<u64>,
    seats: u64,
    held: u32,
    given: u32,
    alloc: Global,
}

impl Model for Book {
    ghost use Rattle.list_book.specs.Books.{BookValue};

    ghost Value = { BookValue };

    ghost use Rattle.list_book.specs.BookKept.{book_of, IsKept};

    ghost view = { book_of };

    ghost invariant = { IsKept };
}

impl Book {
    /// The book of so many lists that were never opened, and of so many free chunks.
    pub fn new(alloc: Global, lists: u32, chunks: u32) -> Result<Book, AllocError>
        requires lists { lists ≤ 200000 }
        requires chunks { chunks ≤ 1000000 }
        ensures { IfOk result (λ book. book ≡ fresh_book lists chunks) }
    {
        let rows = fresh_rows(alloc, lists)?;
        let mut out = Vec::with_capacity(alloc, lists as usize + 1)?;
        push_within(&mut out, 0);
        let pool = Pool::new(alloc, chunks)?;
        let order = Vec::with_capacity(alloc, lists as usize)?;
        Ok(Book {
            rows,
            pool,
            order,
            cleared: 0,
            out,
            seats: 0,
            held: 0,
            given: 0,
            alloc,
        })
    }

    /// How many chunks are in no chain.
    pub fn free(&self) -> u32
        ensures { result ≡ self.now.free }
    {
        self.pool.free()
    }

    /// The chunks of the list's claimed chain.
    pub fn claimed(&self, list: u32) -> &[u32]
        requires { list < length self.now.rows }
        ensures { result.now ≡ (book_row self.now list).claimed }
    {
        let row = &self.rows[list as usize];
        row.claimed()
    }

    /// The chunks of the list's owned chain.
    pub fn owned(&self, list: u32) -> &[u32]
        requires { list < length self.now.rows }
        ensures { result.now ≡ (book_row self.now list).owned }
    {
        let row = &self.rows[list as usize];
        row.owned()
    }

    /// How many slots of the list's owned chain are used.
    pub fn used(&self, list: u32) -> u32
        requires { list < length self.now.rows }
        ensures { result ≡ (book_row self.now list).used }
    {
        let row = &self.rows[list as usize];
        row.used()
    }

    /// How many slots of the list's claimed chain were granted.
    pub fn granted(&self, list: u32) -> u32
        requires { list < length self.now.rows }
        ensures { result ≡ (book_row self.now list).granted }
    {
        let row = &self.rows[list as usize];
        row.granted()
    }

    /// How many chunks the lists have that are shut and not cleared.
    pub fn held(&self) -> u32
        ensures { result ≡ book_held self.now }
    {
        self.held
    }

    /// How many seats are out.
    pub fn seats_out(&self) -> u64
        ensures { result ≡ sum self.now.out }
    {
        self.seats
    }

    /// The birth of a seat that is made now: how many lists are shut.
    pub fn birth(&self) -> u32
        ensures { result ≡ length self.now.order }
    {
        self.order.len() as u32
    }

    /// Makes room for so many more chunks in the list's chains.
    pub fn reserve(&mut self, list: u32, claimed: u32, owned: u32) -> Result<(), AllocError>
        requires { list < length self.old.rows }
        ensures ok { OnOk result (self.new ≡ with_book_row self.old list (roomier_row (book_row self.old list) claimed owned)) }
        ensures err { OnErr result (self.new ≡ self.old) }
    {
        let row = &mut self.rows[list as usize];
        row.reserve(claimed, owned)?;
        Ok(())
    }

    /// Opens a list, with two empty chains.
    pub fn open_list(&mut self, list: u32)
        requires below { list < length self.old.rows }
        requires new { (book_row self.old list).phase ≡ Fresh }
        ensures { self.new ≡ with_book_row self.old list (opened_row (book_row self.old list)) }
    {
        let row = &mut self.rows[list as usize];
        row.open();
    }

    /// Puts the least free chunk at the end of the list's claimed chain, and answers it. It takes no memory.
    pub fn extend_claimed(&mut self, list: u32) -> u32
        requires takes { TakesItems self.old list }
        requires room { 0 < (book_row self.old list).claimed_room }
        requires free { 0 < self.old.free }
        ensures below { result < self.old.chunks }
        ensures unused { IsInNoRow self.old result }
        ensures least { (c : ℕ) → c < self.old.chunks → IsInNoRow self.old c → result ≤ c }
        ensures book { self.new ≡ with_taken_chunk self.old list (linked_row (book_row self.old list) result) }
    {
        let Some(chunk) = self.pool.take() else {
            unreachable!()
        };
        let row = &mut self.rows[list as usize];
        row.link(chunk);
        chunk
    }

    /// Puts the least free chunk at the end of the list's owned chain, and answers it. It takes no memory.
    pub fn extend_owned(&mut self, list: u32) -> u32
        requires takes { TakesItems self.old list }
        requires room { 0 < (book_row self.old list).owned_room }
        requires free { 0 < self.old.free }
        ensures below { result < self.old.chunks }
        ensures unused { IsInNoRow self.old result }
        ensures least { (c : ℕ) → c < self.old.chunks → IsInNoRow self.old c → result ≤ c }
        ensures book { self.new ≡ with_taken_chunk self.old list (lengthened_row (book_row self.old list) result) }
    {
        let Some(chunk) = self.pool.take() else {
            unreachable!()
        };
        let row = &mut self.rows[list as usize];
        row.lengthen(chunk);
        chunk
    }

    /// Uses the next slot of the list's owned chain, and answers its chunk and slot.
    pub fn use_slot(&mut self, list: u32) -> (u32, u32)
        requires takes { TakesItems self.old list }
        requires room { (book_row self.old list).used < 256 * length (book_row self.old list).owned }
        ensures book { self.new ≡ with_book_row self.old list (used_row (book_row self.old list)) }
        ensures chunk { slice_get (book_row self.old list).owned ((book_row self.old list).used / 256) ≡ Some result.0 }
        ensures slot { result.1 ≡ (book_row self.old list).used % 256 }
    {
        let row = &mut self.rows[list as usize];
        row.use_slot()
    }

    /// Shuts a list, which is then the last in the order. It takes no memory.
    pub fn shut(&mut self, list: u32)
        requires { TakesItems self.old list }
        ensures { self.new ≡ with_shut_list self.old list }
    {
        let row = &mut self.rows[list as usize];
        row.shut();
        self.held += (row.claimed().len() + row.owned().len()) as u32;
        push_within(&mut self.order, list);
        push_within(&mut self.out, 0);
    }

    /// Notes grants, and one more seat of the present birth, which has them. It takes no memory.
    pub fn grant(&mut self, grants: &[Grant])
        requires { MayGrantAll self.old grants.now }
        ensures { self.new ≡ with_grants self.old grants.now }
    {
        self.given += grant_all(&mut self.rows, grants);
        self.count_in();
    }

    /// Counts one more seat of the present birth. It takes no memory.
    pub fn count_in(&mut self)
        requires { sum self.old.out < 18446744073709551615 }
        ensures { self.new ≡ with_seat self.old }
    {
        let birth = self.order.len();
        self.out[birth] += 1;
        self.seats += 1;
    }

    /// Counts a seat of a birth off. Where none of that birth is out, the counts stay.
    pub fn count_off(&mut self, birth: u32)
        ensures { self.new ≡ without_seat self.old birth }
    {
        if count_off(&mut self.out, birth) {
            self.seats -= 1;
        }
    }

    /// The next list in the order of shuts, if it may be cleared: if nobody is out who was born before it was shut.
    pub fn may_clear(&self) -> Option<u32>
        ensures { MatchOption result (MayClearNext self.now → ⊥) (λ list. MayClearNext self.now × (list ≡ next_in_order self.now)) }
    {
        let next = self.cleared as usize;
        if next < self.order.len() && self.out[next] == 0 {
            Some(self.order[next])
        } else {
            None
        }
    }

    /// Clears the next list in the order of shuts: its chunks are free, and it has none. It takes no memory.
    pub fn clear_next(&mut self)
        requires { MayClearNext self.old }
        ensures { self.new ≡ with_next_cleared self.old }
    {
        let list = self.order[self.cleared as usize];
        let row = &mut self.rows[list as usize];
        self.pool.give_all(row.claimed());
        self.pool.give_all(row.owned());
        self.held -= (row.claimed().len() + row.owned().len()) as u32;
        row.empty(self.alloc);
        self.cleared += 1;
    }
}

/// So many lists that were never opened.
fn fresh_rows(alloc: Global, lists: u32) -> Result<Vec<ListRow>, AllocError>
    ensures { IfOk result (λ rows. rows.items ≡ replicate lists fresh_row) }
{
    let mut rows = Vec::with_capacity(alloc, lists as usize)?;
    for _ in 0..lists {
        rows.push(ListRow::new(alloc))?;
    }
    Ok(rows)
}

/// Lets the slots of the grants be claimed. Answers how many these are in all.
fn grant_all(rows: &mut Vec<ListRow>, grants: &[Grant]) -> u32
    requires apart { AllPairs (λ (g h : Grant). g.list ≢ h.list) grants.now }
    requires takes { All (MayGrant (map bare_list rows.old.items)) grants.now }
    requires sized { (l : ℕ) → IsSized (row_at rows.old.items l) }
    requires few { granted_in_all grants.now < 2 ^ 31 }
    ensures rows { rows.new.items ≡ granted_rows grants.now rows.old.items }
    ensures sized { (l : ℕ) → IsSized (row_at rows.new.items l) }
    ensures len { vec_len rows.new ≡ vec_len rows.old }
    ensures all { result ≡ granted_in_all grants.now }
{
    let mut all = 0;
    for grant in grants {
        let row = &mut rows[grant.list as usize];
        row.grant(grant.n);
        all += grant.n;
    }
    all
}
