//! What holds of every seat, as clauses of calls without work.
ghost use Rattle.std.specs.Prelude.{◌≡◌, ℕ, ◌+◌, ◌*◌, ◌^◌, ◌<◌, ◌≤◌, List, length, true};
ghost use Rattle.list_machine.specs.Facts.{IsAt, Chain, chain_of, HasChunk, Stands, is_shut};
ghost use Rattle.list_machine.specs.Rule.{AreOrdered};
ghost use Rattle.list_machine.specs.Steps.{IsSweptPlace};
ghost use Rattle.list_machine.specs.Walks.{IsWalk, WalkedLink};
ghost use Rattle.list_machine.specs.declared.views.Fact.TheVariants.{Item, Link, Closed, Empty};
ghost use Rattle.list_machine.specs.declared.views.LinkWord.{LinkWord};
ghost use Rattle.list_machine.specs.declared.views.Leaf.{Leaf};
ghost use Rattle.list_machine.specs.declared.views.Stage.TheVariants.{Swept};
ghost use Rattle.list_table.specs.Ledgers.{IsKept, Knows};

use crate::seats::{GuestSeat, OwnerSeat};

impl OwnerSeat {
    /// A law: the owner's notes are borne out by what it knows.
    pub fn notes_are_kept(&self)
        ensures { IsKept self.now.ledger }
    {
        let _ = &self.size;
    }

    /// A law: the shut lists have their places in the order, and those are cleared whose places come first.
    pub fn order_is_kept(&self)
        ensures { AreOrdered self.now.ledger.owner.book.leaves self.now.ledger.owner.book.order self.now.ledger.owner.book.cleared }
    {
        let _ = &self.size;
    }

    /// A law: the owner knows one item of a slot, and none where a mark found the slot empty.
    pub fn facts_agree(&self)
        ensures one { (l h c k x y : ℕ) → Knows self.now.ledger.owner.facts (Item l c k x) → Knows self.now.ledger.owner.facts (Item h c k y) → x ≡ y }
        ensures none { (l h c k x : ℕ) → Knows self.now.ledger.owner.facts (Item l c k x) → Knows self.now.ledger.owner.facts (Empty h c k) → ⊥ }
    {
        let _ = &self.size;
    }

    /// A law: a list that was found shut is shut, and so is one of which a slot was marked while it was empty.
    pub fn late_lists_are_shut(&self)
        ensures closed { (l : ℕ) → Knows self.now.ledger.owner.facts (Closed l) → (a : Leaf) × IsAt self.now.ledger.owner.book.leaves l a × (is_shut a.stage ≡ true) }
        ensures empty { (l c k : ℕ) → Knows self.now.ledger.owner.facts (Empty l c k) → (a : Leaf) × IsAt self.now.ledger.owner.book.leaves l a × (is_shut a.stage ≡ true) }
    {
        let _ = &self.size;
    }

    /// A law: an item that the owner knows to be in a shut list stands at a place that the sweep marks.
    pub fn items_are_swept(&self)
        ensures { (l c k x p f m : ℕ) (a : Leaf) → Knows self.now.ledger.owner.facts (Item l c k x) → IsAt self.now.ledger.owner.book.leaves l a → a.stage ≡ Swept p f m
            → (y : Chain) × (r : ℕ) × IsAt (chain_of a y) r c × (k < 256) × IsSweptPlace a f y (256 * r + k) }
    {
        let _ = &self.size;
    }

    /// A law: a chunk to which the owner knows a link to lead has that rank in the list's claimed chain. The clearing
    /// of the list has not begun.
    pub fn links_stand_in_chains(&self)
        ensures { (l r c : ℕ) (from : LinkWord) → Knows self.now.ledger.owner.facts (Link l from r c) → (a : Leaf) × IsAt self.now.ledger.owner.book.leaves l a × Stands a.stage × IsAt a.claimed r c }
    {
        let _ = &self.size;
    }

    /// A law: an item that the owner knows stands in a chunk of its list, whose clearing has not begun, and is a number
    /// of 32 bits.
    pub fn items_stand_in_chunks(&self)
        ensures { (l c k x : ℕ) → Knows self.now.ledger.owner.facts (Item l c k x) → (a : Leaf) × IsAt self.now.ledger.owner.book.leaves l a × Stands a.stage × HasChunk a c × (k < 256) × (x < 2 ^ 32) }
    {
        let _ = &self.size;
    }
}

impl GuestSeat {
    /// A law: a guest has walked at most as many links as there are chunks.
    pub fn walks_are_short(&self)
        ensures { (chunks : ℕ) (walked : List WalkedLink) → IsWalk self.now.guest chunks walked → length walked ≤ chunks }
    {
        let _ = &self.size;
    }
}
