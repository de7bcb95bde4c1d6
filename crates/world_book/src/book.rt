ghost use Rattle.std.specs.Prelude.{All, Some, None, vec_len, ◌≡◌, ℕ, suc, ◌+◌, ◌-◌, ◌*◌, ◌/◌, ◌%◌, ◌^◌, ◌<◌, ◌≤◌, ◌++◌, true, replicate, length, slice_index, IfOk, OnOk, OnErr, if◌then◌else◌};
ghost use Rattle.list_machine.specs.Facts.{is_shut};
ghost use Rattle.list_machine.specs.Moves.{chunk_at, chunk_count, is_clearing, last_begun, may_begin, next_mark};
ghost use Rattle.list_machine.specs.Steps.{after_first_clear, after_shut, after_split, leaves_after_grants, opening, opening_leaf, with_claimed, with_leaf, with_one_used, with_owned, with_stage, without_chains};
ghost use Rattle.list_machine.specs.declared.views.Grant.{Grant};
ghost use Rattle.list_machine.specs.declared.views.Leaf.{Leaf};
ghost use Rattle.list_machine.specs.declared.views.Stage.TheVariants.{Swept, Cleared};
ghost use Rattle.world_book.specs.Owners.{HasMark, HasWord, counted_off, leaf_at, state_of, without_facts};

use crate::row::Row;
use list_machine::Grant;
use std::alloc::{AllocError, Global};
use std::marker::Model;

#[cfg(test)]
mod parts;

/// What the owner keeps of all lists: their rows, the order in which lists were shut, how many of these are cleared, and how many
/// seats are out, by birth. A seat's birth is how many lists were shut when it was made.
///
/// Contracts see a book as the owner's view without facts.
#[derive(Drop)]
pub struct Book {
    rows: Vec<Row>,
    order: Vec<u32>,
    cleared: usize,
    out: Vec<u64>,
    alloc: Global,
}

impl Model for Book {
    ghost use Rattle.list_machine.specs.declared.views.Owner.{Owner};

    ghost Value = { Owner };

    ghost use Rattle.world_book.specs.BookKept.{owner_of, IsBook};

    ghost view = { owner_of };

    ghost invariant = { IsBook };
}

impl Book {
    /// The book of so many lists, with which nothing was done, and of nobody who is out.
    pub fn new(alloc: Global, lists: u32) -> Result<Book, AllocError>
        ensures { IfOk result (λ book. book ≡ opening lists) }
    {
        let rows = opening_rows(alloc, lists)?;
        let out = vec![in alloc; 0u64]?;
        Ok(Book {
            rows,
            order: Vec::new(alloc),
            cleared: 0,
            out,
            alloc,
        })
    }

    /// What is kept of a list.
    pub fn row(&self, list: u32) -> &Row
        requires { list < length self.now.book.leaves }
        ensures { result.now ≡ leaf_at self.now list }
    {
        &self.rows[list as usize]
    }

    /// How many lists are shut: the birth of a seat that is made now.
    pub fn birth(&self) -> usize
        ensures { result ≡ length self.now.book.order }
    {
        self.order.len()
    }

    /// Puts a chunk at the end of the list's claimed chain.
    pub fn link(&mut self, list: u32, chunk: u32) -> Result<(), AllocError>
        requires list { list < length self.old.book.leaves }
        requires few { length (leaf_at self.old list).claimed < 2 ^ 32 }
        ensures ok { OnOk result (self.new ≡ with_leaf self.old list (with_claimed (leaf_at self.old list) chunk)) }
        ensures err { OnErr result (self.new ≡ self.old) }
    {
        let row = &mut self.rows[list as usize];
        row.link(chunk)?;
        Ok(())
    }

    /// Puts a chunk at the end of the list's owned chain.
    pub fn adopt(&mut self, list: u32, chunk: u32) -> Result<(), AllocError>
        requires list { list < length self.old.book.leaves }
        requires few { length (leaf_at self.old list).owned < 2 ^ 32 }
        ensures ok { OnOk result (self.new ≡ with_leaf self.old list (with_owned (leaf_at self.old list) chunk)) }
        ensures err { OnErr result (self.new ≡ self.old) }
    {
        let row = &mut self.rows[list as usize];
        row.adopt(chunk)?;
        Ok(())
    }

    /// Uses the next slot of the list's owned chain. Answers its chunk and its number there.
    pub fn use_slot(&mut self, list: u32) -> (u32, u32)
        requires list { list < length self.old.book.leaves }
        requires room { (leaf_at self.old list).used < 256 * length (leaf_at self.old list).owned }
        ensures book { self.new ≡ with_leaf self.old list (with_one_used (leaf_at self.old list)) }
        ensures chunk { result.0 ≡ chunk_at (leaf_at self.old list).owned (leaf_at self.old list).used }
        ensures slot { result.1 ≡ (leaf_at self.old list).used % 256 }
    {
        let row = &mut self.rows[list as usize];
        row.use_slot()
    }

    /// Shuts a list, in which so many places were claimed. It is then the last in the order.
    pub fn shut(&mut self, list: u32, found: u64) -> Result<(), AllocError>
        requires { list < length self.old.book.leaves }
        ensures ok { OnOk result (self.new ≡ without_facts (after_shut self.old list (leaf_at self.old list) found)) }
        ensures err { OnErr result (self.new ≡ self.old) }
    {
        self.order.reserve(1)?;
        self.out.push(0)?;
        let place = self.order.len() as u64;
        let row = &mut self.rows[list as usize];
        row.shut(place, found);
        let Ok(()) = self.order.push(list) else {
            unreachable!()
        };
        Ok(())
    }

    /// Counts one more mark in a shut list. Answers the chunk and the number of the slot that is marked with it.
    pub fn mark_next(&mut self, list: u32) -> (u32, u32)
        requires list { list < length self.old.book.leaves }
        requires mark { HasMark (leaf_at self.old list) }
        ensures book { (p f m : ℕ) → (leaf_at self.old list).stage ≡ Swept p f m → self.new ≡ with_leaf self.old list (with_stage (leaf_at self.old list) (Swept p f (suc m))) }
        ensures chunk { (p f m : ℕ) → (leaf_at self.old list).stage ≡ Swept p f m → result.0 ≡ (next_mark (leaf_at self.old list) f m).0 }
        ensures slot { (p f m : ℕ) → (leaf_at self.old list).stage ≡ Swept p f m → result.1 ≡ (next_mark (leaf_at self.old list) f m).1 }
    {
        let row = &mut self.rows[list as usize];
        row.mark_next()
    }

    /// Counts one more cleared word. Answers the chunk that has it, and its number there: that of a slot, or 256 for the link.
    pub fn clear_next(&mut self, list: u32) -> (u32, u32)
        requires list { list < length self.old.book.leaves }
        requires word { HasWord (leaf_at self.old list) }
        ensures book { (p n : ℕ) → (leaf_at self.old list).stage ≡ Cleared p n → self.new ≡ with_leaf self.old list (with_stage (leaf_at self.old list) (Cleared p (suc n))) }
        ensures chunk { (p n : ℕ) → (leaf_at self.old list).stage ≡ Cleared p n → result.0 ≡ slice_index ((leaf_at self.old list).claimed ++ (leaf_at self.old list).owned) ((n - 1) / 257) }
        ensures word { (p n : ℕ) → (leaf_at self.old list).stage ≡ Cleared p n → result.1 ≡ (n - 1) % 257 }
    {
        let row = &mut self.rows[list as usize];
        row.clear_next()
    }

    /// The list whose clearing began last, if it has words left to be cleared.
    pub fn clearing(&self) -> Option<u32>
        ensures { result ≡ (if is_clearing (state_of self.now) then Some (last_begun (state_of self.now)) else None) }
    {
        let last = self.cleared.checked_sub(1)?;
        let list = self.order[last];
        let row = &self.rows[list as usize];
        if row.is_clearing() { Some(list) } else { None }
    }

    /// Whether the clearing of the next shut list may begin: there is one, and nobody is out who was born before it was shut.
    pub fn may_begin(&self) -> bool
        ensures { result ≡ may_begin (state_of self.now) }
    {
        self.cleared < self.order.len() && self.out[self.cleared] == 0
    }

    /// Begins the clearing of the next shut list, with one word. Answers the list.
    pub fn begin_clear(&mut self) -> u32
        requires { may_begin (state_of self.old) ≡ true }
        ensures list { result ≡ slice_index self.old.book.order self.old.book.cleared }
        ensures book { self.new ≡ without_facts (after_first_clear self.old result (leaf_at self.old result)) }
    {
        let list = self.order[self.cleared];
        let place = self.cleared as u64;
        let row = &mut self.rows[list as usize];
        row.begin_clear(place);
        self.cleared += 1;
        list
    }

    /// Lets go of a list's chunks.
    pub fn release(&mut self, list: u32)
        requires { list < length self.old.book.leaves }
        ensures { self.new ≡ with_leaf self.old list (without_chains (leaf_at self.old list)) }
    {
        let row = &mut self.rows[list as usize];
        row.release(self.alloc);
    }

    /// Notes grants, and one more seat of the present birth, which has them.
    pub fn admit(&mut self, grants: &[Grant])
        requires lists { All (λ (g : Grant). g.list < length self.old.book.leaves) grants.now }
        requires few { All (λ (a : Leaf). a.granted < 2 ^ 32) (leaves_after_grants 0 self.old.book.leaves grants.now) }
        requires seats { slice_index self.old.out (length self.old.book.order) < 2 ^ 64 - 1 }
        ensures { self.new ≡ after_split self.old grants.now }
    {
        grant_all(&mut self.rows, grants);
        let birth = self.order.len();
        self.out[birth] += 1;
    }

    /// Counts a seat of this birth off. A birth that is still to come has no seats.
    pub fn count_off(&mut self, birth: usize)
        ensures { self.new ≡ counted_off self.old birth }
    {
        if birth < self.out.len() {
            self.out[birth] = self.out[birth].saturating_sub(1);
        }
    }
}

/// Lets the places of the grants be claimed.
fn grant_all(rows: &mut Vec<Row>, grants: &[Grant])
    requires lists { All (λ (g : Grant). g.list < vec_len rows.old) grants.now }
    requires few { All (λ (a : Leaf). a.granted < 2 ^ 32) (leaves_after_grants 0 rows.old.items grants.now) }
    ensures rows { rows.new.items ≡ leaves_after_grants 0 rows.old.items grants.now }
    ensures len { vec_len rows.new ≡ vec_len rows.old }
{
    for grant in grants {
        let row = &mut rows[grant.list as usize];
        row.grant(grant.n);
    }
}

/// So many lists with which nothing was done.
fn opening_rows(alloc: Global, lists: u32) -> Result<Vec<Row>, AllocError>
    ensures { IfOk result (λ rows. rows.items ≡ replicate lists opening_leaf) }
{
    let mut rows = Vec::with_capacity(alloc, lists as usize)?;
    for _ in 0..lists {
        rows.push(Row::new(alloc))?;
    }
    Ok(rows)
}
