//! Laws of filings.
ghost use Rattle.std.specs.Prelude.{◌≡◌, ℕ, ◌+◌, ◌<◌, List, length, Some, Contains, slice_get};
ghost use Rattle.list_words.specs.declared.leaf_lists.Answer.{Answer};
ghost use Rattle.list_words.specs.Filing.{Filing as FilerValue};
ghost use Rattle.batch_filing.specs.Filings.{IsFilerOf};

use crate::filing::Filing;
use list_words::Filings;

/// A law: once all items were tried, each has one answer, at its place.
pub fn filings_answer_every_item()
    ensures { (first k : ℕ) (lists : List ℕ) (filer : FilerValue) → IsFilerOf first lists (length lists) filer → k < length lists
        → (a : Answer) × (slice_get filer.answers k ≡ Some a) × (a.item ≡ first + k) × (slice_get lists k ≡ Some a.list) }
{}

/// A law of types: a filing whose filer may go to another thread may go there too. The bound of `goes_to_threads` is what
/// is proved.
pub fn filings_go_to_threads<F: Filings + Send>(filing: &Filing<F>) {
    goes_to_threads(filing);
}

/// Takes what may be handed to a thread, and nothing else.
fn goes_to_threads<T: Send>(_value: &T) {}
