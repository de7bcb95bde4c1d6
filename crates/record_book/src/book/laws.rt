ghost use Rattle.std.specs.Prelude.{◌≡◌, ℕ, ◌+◌, ◌<◌, ◌≤◌, ◌↔◌, Bool, List, All, length, count_by, filter, IsTrue, Some, slice_get};
ghost use Rattle.cube_math.specs.Points.{PointValue};
ghost use Rattle.octree_model.specs.Bags.{IsSameBag};
ghost use Rattle.octree_model.specs.Numbers.{up_to};
ghost use Rattle.record_model.specs.Admissions.{admitted};
ghost use Rattle.record_model.specs.Records.{published};
ghost use Rattle.record_book.specs.KeptBatches.{KeptValue, kept_of};
ghost use Rattle.record_book.specs.PublishedItems.{is_published_item, items_passing, published_among};
ghost use Rattle.record_book.specs.declared.row.Standing.TheVariants.{Published};

use super::RecordBook;

/// A law: the published points are those of the published items, each as often, whatever the order of the publications was.
/// So the published points that pass a test, as those in a cube, are the points of those of the items passing it that are
/// published.
pub fn published_items_have_the_published_points(book: &RecordBook)
    ensures all { IsSameBag (published book.now.events) (published_among book.now (up_to (admitted book.now.events))) }
    ensures passing { (test : PointValue → Bool)
        → IsSameBag (filter test (published book.now.events)) (published_among book.now (items_passing test book.now.events)) }
{
    let _ = &book.rows;
}

/// A law: an item is published where its batch is; and of some items as many have published points as are published.
pub fn items_are_published_with_their_batch(book: &RecordBook)
    ensures batch { (place item : ℕ) (b : KeptValue) → slice_get (kept_of book.now.events) place ≡ Some b → b.first ≤ item → item < b.first + length b.points
        → (IsTrue (is_published_item book.now item) ↔ (slice_get book.now.standings place ≡ Some Published)) }
    ensures number { (items : List ℕ) → All (λ item. item < admitted book.now.events) items
        → length (published_among book.now items) ≡ count_by (is_published_item book.now) items }
{
    let _ = &book.rows;
}
