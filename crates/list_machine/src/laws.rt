ghost use Rattle.std.specs.Prelude.{◌≡◌, ℕ, suc, ◌+◌, ◌*◌, ◌^◌, ◌<◌, ◌≤◌, List, [], length, true};
ghost use Rattle.list_machine.specs.Words.{link_to};
ghost use Rattle.list_machine.specs.State.{link_at, zero_words};
ghost use Rattle.list_machine.specs.Facts.{IsAt, Chain, chain_of, HasChunk, Holds, Stands, is_shut, list_of};
ghost use Rattle.list_machine.specs.Rule.{Sound};
ghost use Rattle.list_machine.specs.Steps.{IsNextMark, IsSweptPlace, KnowsLink, opening};
ghost use Rattle.list_machine.specs.Walks.{IsWalk, WalkedLink};
ghost use Rattle.list_machine.specs.Machine.{State, IsSound, Step, Run};
ghost use Rattle.list_machine.specs.declared.views.LinkWord.{LinkWord};
ghost use Rattle.list_machine.specs.declared.views.Fact.{Fact};
ghost use Rattle.list_machine.specs.declared.views.Fact.TheVariants.{Item, Closed, Empty};
ghost use Rattle.list_machine.specs.declared.views.Stage.TheVariants.{Swept};
ghost use Rattle.list_machine.specs.declared.views.Unfiled.TheVariants.{Place};
ghost use Rattle.list_machine.specs.declared.views.Leaf.{Leaf};
ghost use Rattle.list_machine.specs.declared.views.Guest.{Guest};

/// A law: the rule holds at the start, when all words are 0 and only the owner has a seat.
pub fn the_rule_holds_at_the_start()
    ensures { (lists : ℕ) → Sound zero_words (opening lists) [] }
{}

/// A law: each step that a seat may make keeps the rule.
pub fn steps_keep_the_rule()
    ensures { (s t : State) → IsSound s → Step s t → IsSound t }
{}

/// A law: what a filer or a reader knows of the words stays true for as long as it is out, whatever
/// steps all seats make.
pub fn facts_outlast_steps()
    ensures { (s t : State) (j k : ℕ) (v u : Guest) (f : Fact) → IsSound s → Run s t
        → IsAt s.guests j v → IsAt v.facts k f → IsAt t.guests j u → u.out ≡ true
        → Holds t.words f }
{}

/// A law: what the owner knows of a list it knows until the clearing of the list begins, and so long it
/// is true, whatever steps all seats make.
pub fn facts_of_the_owner_outlast_steps()
    ensures { (s t : State) (q : ℕ) (f : Fact) (e : Leaf) → IsSound s → Run s t
        → IsAt s.owner.facts q f → IsAt t.owner.book.leaves (list_of f) e → Stands e.stage
        → (k : ℕ) × IsAt t.owner.facts k f × Holds t.words f }
{}

/// A law: the way to a claimed place is there. Each link word that leads to a rank on the way holds the
/// link to a chunk of that rank.
pub fn claimed_places_have_chunks()
    ensures { (s : State) (j l i q : ℕ) (from : LinkWord) (v : Guest) → IsSound s
        → IsAt s.guests j v → v.claim ≡ Place l i → KnowsLink v l from q → 256 * q ≤ i
        → (c : ℕ) × (c + 1 < 2 ^ 32) × (link_at s.words l from ≡ link_to q c) }
{}

/// A law: a claim word counts far below 2^63, so a claim has room.
pub fn claim_counts_are_small()
    ensures { (s : State) (l : ℕ) (a : Leaf) → IsSound s
        → IsAt s.owner.book.leaves l a → (s.words.claim l).value < 2 ^ 31 }
{}

/// A law: a filer walks at most as many links as there are chunks.
pub fn walks_are_short()
    ensures { (s : State) (j chunks : ℕ) (v : Guest) (walked : List WalkedLink) → IsSound s
        → IsAt s.guests j v → IsWalk v chunks walked → length walked ≤ chunks }
{}

/// A law: a list that a seat found shut is shut, and so is one in which a slot was marked while it was
/// empty.
pub fn late_lists_are_shut()
    ensures closed { (s : State) (l q : ℕ) (a : Leaf) → IsSound s
        → IsAt s.owner.facts q (Closed l) → IsAt s.owner.book.leaves l a
        → is_shut a.stage ≡ true }
    ensures empty { (s : State) (l c k q : ℕ) (a : Leaf) → IsSound s
        → IsAt s.owner.facts q (Empty l c k) → IsAt s.owner.book.leaves l a
        → is_shut a.stage ≡ true }
    ensures guests_closed { (s : State) (j l q : ℕ) (v : Guest) (a : Leaf) → IsSound s
        → IsAt s.guests j v → IsAt v.facts q (Closed l) → IsAt s.owner.book.leaves l a
        → is_shut a.stage ≡ true }
    ensures guests_empty { (s : State) (j l c k q : ℕ) (v : Guest) (a : Leaf) → IsSound s
        → IsAt s.guests j v → IsAt v.facts q (Empty l c k) → IsAt s.owner.book.leaves l a
        → is_shut a.stage ≡ true }
{}

/// A law: an item that the owner knows to be in a shut list stands at a place that the sweep marks.
pub fn items_are_swept()
    ensures { (s : State) (l c k x p f m q : ℕ) (a : Leaf) → IsSound s
        → IsAt s.owner.facts q (Item l c k x) → IsAt s.owner.book.leaves l a
        → a.stage ≡ Swept p f m
        → (y : Chain) × (r : ℕ) × IsAt (chain_of a y) r c × (k < 256)
        × IsSweptPlace a f y (256 * r + k) }
{}

/// A law: while places are left that a sweep marks, the next one has its slot.
pub fn sweeps_go_on()
    ensures { (s : State) (l p f m : ℕ) (a : Leaf) → IsSound s
        → IsAt s.owner.book.leaves l a → a.stage ≡ Swept p f m → m < f + a.used
        → (x : Chain) × (r : ℕ) × (c : ℕ) × (k : ℕ) × IsAt (chain_of a x) r c × (k < 256)
        × IsNextMark a f m x (256 * r + k) }
{}

/// A law: the owner's facts agree. A slot has one item, and none where it was marked while it was empty.
pub fn facts_agree()
    ensures one { (s : State) (l h c k x y p q : ℕ) → IsSound s
        → IsAt s.owner.facts p (Item l c k x) → IsAt s.owner.facts q (Item h c k y) → x ≡ y }
    ensures none { (s : State) (l h c k x p q : ℕ) → IsSound s
        → IsAt s.owner.facts p (Item l c k x) → IsAt s.owner.facts q (Empty h c k) → ⊥ }
{}

/// A law: what a seat knows is true now.
pub fn facts_hold()
    ensures owner { (s : State) (q : ℕ) (f : Fact) → IsSound s → IsAt s.owner.facts q f
        → Holds s.words f }
    ensures guests { (s : State) (j q : ℕ) (v : Guest) (f : Fact) → IsSound s
        → IsAt s.guests j v → IsAt v.facts q f → Holds s.words f }
{}

/// A law: an item that a seat knows to be in a list stands in a chunk of the list's chains.
pub fn items_stand_in_chains()
    ensures owner { (s : State) (l c k x q : ℕ) → IsSound s
        → IsAt s.owner.facts q (Item l c k x)
        → (a : Leaf) × IsAt s.owner.book.leaves l a × HasChunk a c × (k < 256) }
    ensures guests { (s : State) (j l c k x q : ℕ) (v : Guest) → IsSound s
        → IsAt s.guests j v → IsAt v.facts q (Item l c k x)
        → (a : Leaf) × IsAt s.owner.book.leaves l a × HasChunk a c × (k < 256) }
{}
