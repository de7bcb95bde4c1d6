ghost use Rattle.std.specs.Prelude.{◌≡◌, All, ℕ, ◌+◌, ◌-◌, ◌*◌, ◌^◌, ◌<◌, ◌≤◌, length, slice_index_or, IfOk, OnOk, OnErr, if◌then◌else◌, []};
ghost use Rattle.list_machine.specs.Words.{item_in};
ghost use Rattle.list_machine.specs.State.{link_at, zero_words};
ghost use Rattle.list_machine.specs.Machine.{State, state};
ghost use Rattle.list_machine.specs.Moves.{chunk_adopted, chunk_linked, is_blank, item_filed, item_placed, list_shut, next_mark, place_claimed, seat_joined, seat_made, slot_marked};
ghost use Rattle.list_machine.specs.Steps.{leaves_after_grants, nobody, opening};
ghost use Rattle.list_machine.specs.declared.views.Grant.{Grant};
ghost use Rattle.list_machine.specs.declared.views.Leaf.{Leaf};
ghost use Rattle.list_machine.specs.declared.views.Stage.TheVariants.{Swept};
ghost use Rattle.list_machine.specs.declared.words.Claimed.TheVariants.{Index, Shut};
ghost use Rattle.world_words.specs.WordRows.{HasLink, link_behind, made_count, words_in};
ghost use Rattle.world_book.specs.Owners.{HasMark, leaf_at};
ghost use Rattle.world_lists.specs.Seats.{claim_of};
ghost use Rattle.world_lists.specs.Lists.{Make, Shows, item_at};

use crate::seat::{Seat, Unfiled};
use list_machine::{Claimed, Grant};
use std::alloc::{AllocError, Global};
use std::marker::Model;
use world_book::{Book, Row};
use world_words::Rows;

#[cfg(test)]
mod parts;

/// All lists of a world.
///
/// Contracts see the words, the owner's view without facts, and the seats without grants and facts: what the machine's states
/// have besides is knowledge, which takes no memory.
#[derive(Drop)]
pub struct Lists {
    words: Rows,
    book: Book,
    seats: Vec<Seat>,
}

impl Model for Lists {
    ghost use Rattle.world_lists.specs.Lists.{ListsValue};

    ghost Value = { ListsValue };

    ghost use Rattle.world_lists.specs.ListsKept.{lists_of, AreLists};

    ghost view = { lists_of };

    ghost invariant = { AreLists };
}

impl Lists {
    /// So many lists, all of whose words are 0, while only the owner has a seat.
    pub fn new(alloc: Global, lists: u32) -> Result<Lists, AllocError>
        ensures { IfOk result (λ made. Shows made (state zero_words (opening lists) [])) }
    {
        let words = Rows::new(alloc, lists)?;
        let book = Book::new(alloc, lists)?;
        Ok(Lists {
            words,
            book,
            seats: Vec::new(alloc),
        })
    }

    /// A seat claims the next place of a list.
    pub fn claim(&mut self, seat: usize, list: u32) -> Claimed
        requires seat { seat < length self.old.seats }
        requires list { list < length self.old.owner.book.leaves }
        requires room { ((words_in self.old.words).claim list).value < 2 ^ 63 - 1 }
        ensures lists { Make self.old self.new (λ s. place_claimed s seat list) }
        ensures answer { result ≡ (if ((words_in self.old.words).claim list).high then Shut else Index ((words_in self.old.words).claim list).value) }
    {
        let claimed = self.words.claim(list);
        let guest = &mut self.seats[seat];
        guest.take(list, claimed);
        claimed
    }

    /// A seat files an item into a slot where that is blank, and says whether it was. Either way its claim is settled.
    pub fn file(&mut self, seat: usize, chunk: u32, slot: u32, item: u32) -> bool
        requires seat { seat < length self.old.seats }
        requires chunk { chunk < made_count self.old.words }
        requires slot { slot < 256 }
        ensures lists { (list : ℕ) → Make self.old self.new (λ s. item_filed s seat list chunk slot item) }
        ensures filed { result ≡ is_blank ((words_in self.old.words).slot chunk slot) }
    {
        let filed = self.words.file(chunk, slot, item);
        let guest = &mut self.seats[seat];
        guest.settle();
        filed
    }

    /// The place that a seat has claimed and not filed into.
    pub fn unfiled(&self, seat: usize) -> Option<Unfiled>
        requires { seat < length self.now.seats }
        ensures { claim_of result ≡ (slice_index_or self.now.seats seat nobody).claim }
    {
        let guest = &self.seats[seat];
        guest.claim()
    }

    /// The link of a list, or the one behind a chunk of its claimed chain.
    pub fn link_word(&self, list: u32, last: Option<u32>) -> u64
        requires { HasLink self.now.words list last }
        ensures { result ≡ link_at (words_in self.now.words) list (link_behind last) }
    {
        self.words.link(list, last)
    }

    /// The item in a slot of a chunk, whether it was moved or not, if the slot has one.
    pub fn item(&self, chunk: u32, slot: u32) -> Option<u32>
        requires chunk { chunk < made_count self.now.words }
        requires slot { slot < 256 }
        ensures { result ≡ item_in ((words_in self.now.words).slot chunk slot) }
    {
        self.words.item(chunk, slot)
    }

    /// How many chunks have their words: those with the numbers below.
    pub fn made(&self) -> usize
        ensures { result ≡ made_count self.now.words }
    {
        self.words.made()
    }

    /// What the owner keeps of a list.
    pub fn row(&self, list: u32) -> &Row
        requires { list < length self.now.owner.book.leaves }
        ensures { result.now ≡ leaf_at self.now.owner list }
    {
        self.book.row(list)
    }

    /// The owner places an item in the next slot of the list's owned chain.
    pub fn place(&mut self, list: u32, item: u32)
        requires list { list < length self.old.owner.book.leaves }
        requires room { (leaf_at self.old.owner list).used < 256 * length (leaf_at self.old.owner list).owned }
        ensures { Make self.old self.new (λ s. item_placed s list item) }
    {
        let (chunk, slot) = self.book.use_slot(list);
        self.words.place(chunk, slot, item);
    }

    /// A chunk joins the owned chain of a list. Its words are made where it is the first that has none. Where memory is wanting
    /// the lists stay as they stood.
    pub fn adopt(&mut self, list: u32, chunk: u32) -> Result<(), AllocError>
        requires list { list < length self.old.owner.book.leaves }
        requires next { chunk ≤ made_count self.old.words }
        requires few { length (leaf_at self.old.owner list).owned < 2 ^ 32 }
        ensures ok { OnOk result (Make self.old self.new (λ s. chunk_adopted s list chunk)) }
        ensures err { OnErr result (Make self.old self.new (λ s. s)) }
    {
        self.make(chunk)?;
        self.book.adopt(list, chunk)?;
        Ok(())
    }

    /// A chunk is linked behind the claimed chain of a list. Its words are made where it is the first that has none. Where memory is
    /// wanting the lists stay as they stood.
    pub fn link(&mut self, list: u32, chunk: u32) -> Result<(), AllocError>
        requires list { list < length self.old.owner.book.leaves }
        requires next { chunk ≤ made_count self.old.words }
        requires small { chunk < 2 ^ 32 - 1 }
        requires few { length (leaf_at self.old.owner list).claimed < 2 ^ 32 }
        ensures ok { OnOk result (Make self.old self.new (λ s. chunk_linked s list chunk)) }
        ensures err { OnErr result (Make self.old self.new (λ s. s)) }
    {
        self.make(chunk)?;
        let row = self.book.row(list);
        let rank = row.claimed().len() as u32;
        let last = row.last_claimed();
        self.book.link(list, chunk)?;
        self.words.link_to(list, last, rank, chunk);
        Ok(())
    }

    /// Makes the words of a chunk that is the first without.
    fn make(&mut self, chunk: u32) -> Result<(), AllocError>
        requires { chunk ≤ made_count self.old.words }
        ensures lists { Make self.old self.new (λ s. s) }
        ensures owner { self.new.owner ≡ self.old.owner }
        ensures made { OnOk result (chunk < made_count self.new.words) }
    {
        if chunk as usize == self.words.made() {
            self.words.make_chunk()?;
        }
        Ok(())
    }

    /// Shuts a list. Where memory is wanting the lists stay as they stood.
    pub fn shut(&mut self, list: u32) -> Result<(), AllocError>
        requires { list < length self.old.owner.book.leaves }
        ensures ok { OnOk result (Make self.old self.new (λ s. list_shut s list)) }
        ensures err { OnErr result (self.new ≡ self.old) }
    {
        let found = self.words.claims(list);
        self.book.shut(list, found)?;
        self.words.shut(list);
        Ok(())
    }

    /// Marks the next slot of a list that is swept. Answers its item, if it has one.
    pub fn mark(&mut self, list: u32) -> Option<u32>
        requires list { list < length self.old.owner.book.leaves }
        requires mark { HasMark (leaf_at self.old.owner list) }
        ensures lists { Make self.old self.new (λ s. slot_marked s list) }
        ensures item { (p f m : ℕ) → (leaf_at self.old.owner list).stage ≡ Swept p f m → result ≡ item_at self.old (next_mark (leaf_at self.old.owner list) f m) }
    {
        let (chunk, slot) = self.book.mark_next(list);
        self.words.mark(chunk, slot)
    }

    /// Makes a seat with these grants. Its number is how many seats there were. Where memory is wanting the lists stay as they
    /// stood.
    pub fn split(&mut self, grants: &[Grant]) -> Result<(), AllocError>
        requires lists { All (λ (g : Grant). g.list < length self.old.owner.book.leaves) grants.now }
        requires few { All (λ (a : Leaf). a.granted < 2 ^ 32) (leaves_after_grants 0 self.old.owner.book.leaves grants.now) }
        ensures ok { OnOk result (Make self.old self.new (λ s. seat_made s grants.now)) }
        ensures err { OnErr result (self.new ≡ self.old) }
    {
        let birth = self.book.birth();
        self.seats.push(Seat::new(birth))?;
        self.book.admit(grants);
        Ok(())
    }

    /// Takes a seat back.
    pub fn join(&mut self, seat: usize)
        requires { seat < length self.old.seats }
        ensures { Make self.old self.new (λ s. seat_joined s seat) }
    {
        let guest = &mut self.seats[seat];
        let birth = guest.birth();
        guest.leave();
        self.book.count_off(birth);
    }
}
