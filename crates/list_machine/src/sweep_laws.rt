//! Laws of sweeps.
ghost use Rattle.std.specs.Prelude.{◌≡◌, ℕ, ◌+◌, ◌*◌, ◌<◌, ◌≤◌, true, false};
ghost use Rattle.list_machine.specs.Words.{blank};
ghost use Rattle.list_machine.specs.Facts.{IsAt, Chain, chain_of, Stands};
ghost use Rattle.list_machine.specs.Steps.{IsNextMark, IsSweptPlace};
ghost use Rattle.list_machine.specs.Sweeps.{mark_index};
ghost use Rattle.list_machine.specs.Machine.{State, IsSound, Run};
ghost use Rattle.list_machine.specs.Moves.{next_mark};
ghost use Rattle.list_machine.specs.declared.views.Fact.TheVariants.{Item};
ghost use Rattle.list_machine.specs.declared.views.Stage.TheVariants.{Swept};
ghost use Rattle.list_machine.specs.declared.views.Leaf.{Leaf};
ghost use Rattle.list_machine.specs.declared.views.Guest.{Guest};

/// A law: an item that a filer or a reader knows to be in a shut list stands at a place that the sweep
/// marks, as one that the owner knows does.
pub fn items_of_guests_are_swept()
    ensures { (s : State) (j l c k x p f m q : ℕ) (v : Guest) (a : Leaf) → IsSound s
        → IsAt s.guests j v → IsAt v.facts q (Item l c k x)
        → IsAt s.owner.book.leaves l a → a.stage ≡ Swept p f m
        → (y : Chain) × (r : ℕ) × IsAt (chain_of a y) r c × (k < 256)
        × IsSweptPlace a f y (256 * r + k) }
{}

/// A law: of the places that a sweep marks, the first ones are marked, as many as it has made marks, and
/// no other slot of the list is: one that was not claimed before the shut has neither a mark nor an item.
/// So a place of the sweep that is still blank has its mark to come.
pub fn first_places_are_marked()
    ensures marked { (s : State) (l c k p f m r : ℕ) (y : Chain) (a : Leaf) → IsSound s
        → IsAt s.owner.book.leaves l a → a.stage ≡ Swept p f m → IsAt (chain_of a y) r c → k < 256
        → IsSweptPlace a f y (256 * r + k) → mark_index f y (256 * r + k) < m
        → (s.words.slot c k).high ≡ true }
    ensures unmarked { (s : State) (l c k p f m r : ℕ) (y : Chain) (a : Leaf) → IsSound s
        → IsAt s.owner.book.leaves l a → a.stage ≡ Swept p f m → IsAt (chain_of a y) r c → k < 256
        → m ≤ mark_index f y (256 * r + k) → (s.words.slot c k).high ≡ false }
    ensures past { (s : State) (l c k p f m r : ℕ) (a : Leaf) → IsSound s
        → IsAt s.owner.book.leaves l a → a.stage ≡ Swept p f m → IsAt a.claimed r c → k < 256
        → f ≤ 256 * r + k → s.words.slot c k ≡ blank }
    ensures blank { (s : State) (l c k p f m r : ℕ) (y : Chain) (a : Leaf) → IsSound s
        → IsAt s.owner.book.leaves l a → a.stage ≡ Swept p f m → IsAt (chain_of a y) r c → k < 256
        → IsSweptPlace a f y (256 * r + k) → s.words.slot c k ≡ blank
        → m ≤ mark_index f y (256 * r + k) }
{}

/// A law: while places are left that a sweep marks, `next_mark` has the chunk and the slot of the next
/// one; and no slot has two places, so the next one was not marked before.
pub fn next_marks_are_new()
    ensures slot { (s : State) (l p f m : ℕ) (a : Leaf) → IsSound s
        → IsAt s.owner.book.leaves l a → a.stage ≡ Swept p f m → m < f + a.used
        → (x : Chain) × (r : ℕ) × IsAt (chain_of a x) r (next_mark a f m).0
        × ((next_mark a f m).1 < 256) × IsNextMark a f m x (256 * r + (next_mark a f m).1) }
    ensures alone { (s : State) (l c k p f m r q : ℕ) (y z : Chain) (a : Leaf) → IsSound s
        → IsAt s.owner.book.leaves l a → a.stage ≡ Swept p f m → IsAt (chain_of a y) r c
        → IsAt (chain_of a z) q c → IsNextMark a f m z (256 * q + k)
        → mark_index f y (256 * r + k) ≡ m }
{}

/// A law: where a sweep has marked all its places, the list and its slots stay as they are until the
/// clearing of the list begins, whatever steps all seats make. So no slot gets an item any more.
pub fn swept_lists_stay()
    ensures list { (s t : State) (l p f m : ℕ) (a e : Leaf) → IsSound s → Run s t
        → IsAt s.owner.book.leaves l a → a.stage ≡ Swept p f m → f + a.used ≤ m
        → IsAt t.owner.book.leaves l e → Stands e.stage → e ≡ a }
    ensures slots { (s t : State) (l c k p f m r : ℕ) (y : Chain) (a e : Leaf) → IsSound s → Run s t
        → IsAt s.owner.book.leaves l a → a.stage ≡ Swept p f m → f + a.used ≤ m
        → IsAt t.owner.book.leaves l e → Stands e.stage → IsAt (chain_of a y) r c → k < 256
        → t.words.slot c k ≡ s.words.slot c k }
{}
