//! Laws of the store, as clauses of functions without code: what its rows are after a call.
ghost use Rattle.std.specs.Prelude.{◌≡◌, ◌≢◌, ℕ, ◌+◌, ◌<◌, List, Option, Some, Contains, length, slice_get};
ghost use Rattle.list_machine.specs.declared.views.Grant.{Grant};
ghost use Rattle.list_machine.specs.Grants.{granted_in};
ghost use Rattle.list_words.specs.Store.{AreMarks, IsCleared, IsInOneSlot, IsKeptOrCleared, IsOpen, IsReclaimed, IsShut, Row, SameBesidesGranted, Store, admitted, chunks_of, found_in, held_of, opened, roomier, row, shut_now, shut_with, with_chunk, with_row};
ghost use Rattle.list_words.specs.declared.leaf_lists.Phase.TheVariants.{Fresh, Open};

use crate::LeafLists;

/// A law: a list that takes items is one of the lists. Where the row of one list changes, the rows of the others stay.
/// No more chunks are held where a list took items before and takes them then, where it is opened, and where there is
/// room for more of its chunks.
pub fn rows_after_a_change()
    ensures within { (s : Store) (l : ℕ) → IsOpen s l → l < length s.rows }
    ensures here { (s : Store) (l : ℕ) (r : Row) → l < length s.rows → row (with_row s l r) l ≡ r }
    ensures others { (s : Store) (l m : ℕ) (r : Row) → m ≢ l → row (with_row s l r) m ≡ row s m }
    ensures held { (s : Store) (l : ℕ) (r : Row) → IsOpen s l → r.phase ≡ Open → held_of (with_row s l r) ≡ held_of s }
    ensures opened { (s : Store) (l : ℕ) → l < length s.rows → (row s l).phase ≡ Fresh → held_of (with_row s l (opened (row s l))) ≡ held_of s }
    ensures reserved { (s : Store) (l claimed owned : ℕ) → l < length s.rows → held_of (with_row s l (roomier (row s l) claimed owned)) ≡ held_of s }
{}

/// A law: the rows after a chunk was taken for a chain of one list. No more chunks are held.
pub fn rows_after_a_link()
    ensures here { (s : Store) (l : ℕ) (r : Row) → IsOpen s l → row (with_chunk s l r) l ≡ r }
    ensures others { (s : Store) (l m : ℕ) (r : Row) → m ≢ l → row (with_chunk s l r) m ≡ row s m }
    ensures held { (s : Store) (l : ℕ) (r : Row) → IsOpen s l → r.phase ≡ Open → held_of (with_chunk s l r) ≡ held_of s }
{}

/// A law: the rows after a filer was made. They differ from those before in what was granted alone: in each list that
/// rises by the slots that the filer's grants give there.
pub fn rows_after_grants()
    ensures besides { (s : Store) (gs : List Grant) (l : ℕ) → SameBesidesGranted (row (admitted s gs) l) (row s l) }
    ensures granted { (s : Store) (gs : List Grant) (l : ℕ) → l < length s.rows → (row (admitted s gs) l).granted ≡ (row s l).granted + granted_in l gs }
    ensures held { (s : Store) (gs : List Grant) → held_of (admitted s gs) ≡ held_of s }
{}

/// A law: the rows after a list was shut. What takes items then took items before, and the chunks of the list are held.
pub fn rows_after_a_shut()
    ensures here { (s : Store) (l : ℕ) (marked : List (Option ℕ)) → IsOpen s l → row (shut_now s l marked) l ≡ shut_with (row s l) marked }
    ensures others { (s : Store) (l m : ℕ) (marked : List (Option ℕ)) → m ≢ l → row (shut_now s l marked) m ≡ row s m }
    ensures open { (s : Store) (l m : ℕ) (marked : List (Option ℕ)) → IsOpen s l → IsOpen (shut_now s l marked) m → (m ≢ l) × IsOpen s m }
    ensures held { (s : Store) (l : ℕ) (marked : List (Option ℕ)) → IsOpen s l → held_of (shut_now s l marked) ≡ held_of s + length (chunks_of (row s l)) }
{}

/// A law: the rows after lists were cleared. Each is as it was, or empty in the same phase; where the lists in the order
/// of shuts are shut, which stays so, the lists that take items are as they were.
pub fn rows_after_a_reclaim()
    ensures each { (s t : Store) (l : ℕ) → IsReclaimed s t → IsKeptOrCleared (row s l) (row t l) }
    ensures uncleared { (s t : Store) (l : ℕ) → IsReclaimed s t → (IsCleared t l → ⊥) → row t l ≡ row s l }
    ensures open { (s t : Store) (l : ℕ) → IsReclaimed s t → ((m : ℕ) → Contains s.order m → IsShut s m) → IsOpen s l → row t l ≡ row s l }
    ensures shut { (s t : Store) (l : ℕ) → IsReclaimed s t → ((m : ℕ) → Contains s.order m → IsShut s m) → Contains t.order l → IsShut t l }
{}

/// A law of every kind of lists: an item that is known in one slot of a list alone is found once by the list's sweep.
pub fn items_are_found_once<L: LeafLists>(lists: &L)
    ensures { (l i j x : ℕ) → AreMarks (L.shown lists.now l) (L.claims lists.now l) (row (L.store lists.now) l) → IsInOneSlot (L.shown lists.now l) x
        → slice_get (found_in (row (L.store lists.now) l)) i ≡ Some x → slice_get (found_in (row (L.store lists.now) l)) j ≡ Some x → i ≡ j }
{
    lists.slots_agree();
}
