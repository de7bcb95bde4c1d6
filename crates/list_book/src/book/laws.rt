ghost use Rattle.std.specs.Prelude.{◌≡◌, ℕ, suc, ◌+◌, ◌*◌, ◌^◌, ◌<◌, ◌≤◌, Bool, Some, length, slice_index, sum_by};
ghost use Rattle.list_book.specs.Books.{HasNoChunks, IsOrderOfShut, book_row, chunk_in, row_count};
ghost use Rattle.list_words.specs.declared.leaf_lists.Phase.TheVariants.{Fresh, Shut};

use super::Book;

/// A law: a chunk stands at one place of one chain of one list.
pub fn chunks_stand_once(book: &Book)
    ensures { (owned w : Bool) (l h r q c : ℕ) → chunk_in book.now.rows owned l r ≡ Some c → chunk_in book.now.rows w h q ≡ Some c → (owned ≡ w) × (l ≡ h) × (r ≡ q) }
{
    let _ = &book.rows;
}

/// A law: the numbers of chunks in chains are below the number of chunks, each of which is free or in a chain.
/// Used slots and granted ones have their chunks, the granted ones until the list is shut. A list that was never
/// opened has no chunks.
pub fn numbers_are_small(book: &Book)
    ensures chunks { (owned : Bool) (l r c : ℕ) → chunk_in book.now.rows owned l r ≡ Some c → c < book.now.chunks }
    ensures total { sum_by row_count book.now.rows + book.now.free ≡ book.now.chunks }
    ensures used { (l : ℕ) → (book_row book.now l).used ≤ 256 * length (book_row book.now l).owned }
    ensures granted { (l : ℕ) → ((book_row book.now l).phase ≡ Shut → ⊥) → (book_row book.now l).granted ≤ 256 * length (book_row book.now l).claimed }
    ensures fresh { (l : ℕ) → (book_row book.now l).phase ≡ Fresh → HasNoChunks (book_row book.now l) }
    ensures few_lists { length book.now.rows ≤ 200000 }
    ensures few_chunks { book.now.chunks ≤ 1000000 }
    ensures few_given { book.now.given < 2 ^ 31 }
{
    let _ = &book.rows;
}

/// A law: the lists in the order are those that were shut, each once, and those of them that are cleared have no
/// chunks.
pub fn order_is_of_shut_lists(book: &Book)
    ensures { IsOrderOfShut book.now.rows book.now.order book.now.cleared }
{
    let _ = &book.rows;
}

/// A law: there is a count of seats for each birth, and nobody is out who was born before the last list that is
/// cleared was shut.
pub fn counts_are_kept(book: &Book)
    ensures births { length book.now.out ≡ suc (length book.now.order) }
    ensures begun { book.now.cleared ≤ length book.now.order }
    ensures past { (b : ℕ) → b < book.now.cleared → slice_index book.now.out b ≡ 0 }
{
    let _ = &book.rows;
}
