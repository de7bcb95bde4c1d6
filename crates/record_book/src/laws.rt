//! Laws of kept batches, and of types.
ghost use Rattle.std.specs.Prelude.{◌≡◌, ℕ, ◌+◌, ◌<◌, ◌≤◌, List, [], ◌∷◌, ◌++◌, length, Some, slice_get};
ghost use Rattle.cube_math.specs.Batches.{BatchValue};
ghost use Rattle.cube_math.specs.Points.{PointValue};
ghost use Rattle.record_model.specs.Admissions.{admitted, admitted_points};
ghost use Rattle.record_model.specs.Records.{Record};
ghost use Rattle.record_model.specs.declared.event.Event.TheVariants.{Admission, Look, Publication};
ghost use Rattle.record_book.specs.KeptBatches.{KeptValue, kept_as, kept_of, points_in};

use crate::book::RecordBook;
use crate::kept_batch::KeptBatch;

/// A law: the points of the kept batches, one batch after the other, are those of the items, and each batch ends before
/// the later ones begin.
pub fn kept_batches_hold_the_items()
    ensures items { (events : Record) → points_in (kept_of events) ≡ admitted_points events }
    ensures order { (events : Record) (i j : ℕ) (a b : KeptValue) → slice_get (kept_of events) i ≡ Some a → slice_get (kept_of events) j ≡ Some b
        → i < j → a.first + length a.points ≤ b.first }
{}

/// A law: an admission adds its batch behind the others, with the number of the next item, and no other event changes
/// the kept batches.
pub fn admissions_add_kept_batches()
    ensures admission { (events : Record) (batch : BatchValue) (loader : ℕ)
        → kept_of (events ++ (Admission batch.input batch.points, loader) ∷ []) ≡ kept_of events ++ kept_as batch loader (admitted events) ∷ [] }
    ensures publication { (events : Record) (input loader : ℕ) (points : List PointValue)
        → kept_of (events ++ (Publication input points, loader) ∷ []) ≡ kept_of events }
    ensures look { (events : Record) (pass : ℕ) → kept_of (events ++ (Look, pass) ∷ []) ≡ kept_of events }
{}

/// A law of types: threads may share books and kept batches, and be handed them. The bounds of `goes_to_threads` are what
/// is proved.
pub fn books_go_to_threads(book: &RecordBook, batch: &KeptBatch) {
    goes_to_threads(book);
    goes_to_threads(batch);
}

/// Takes what threads may share and be handed, and nothing else.
fn goes_to_threads<T: Send + Sync>(_value: &T) {}
