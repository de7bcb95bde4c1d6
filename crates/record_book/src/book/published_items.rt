ghost use Rattle.std.specs.Prelude.{◌≡◌, ℕ, ◌+◌, ◌<◌, ◌≤◌, All, length, IfOk, IfSome, IsTrue, slice_get};
ghost use Rattle.record_model.specs.Admissions.{admitted};
ghost use Rattle.record_book.specs.KeptBatches.{kept_of};
ghost use Rattle.record_book.specs.PublishedItems.{is_published_item, published_among};

use super::RecordBook;
use crate::row::Standing;
use cube_math::Point;
use std::alloc::{AllocError, Global};

impl RecordBook {
    /// Whether an item is one of a published batch.
    pub fn is_published_item(&self, item: u32) -> bool
        requires { item < admitted self.now.events }
        ensures { result ≡ is_published_item self.now item }
    {
        self.is_published_at(self.place_of(item))
    }

    /// Of some items, the points of those that are published, in the order of the items. An item of the same batch as the
    /// one before it, or of the next batch, costs no search.
    pub fn published_among(&self, alloc: Global, items: &[u32]) -> Result<Vec<Point>, AllocError>
        requires { All (λ item. item < admitted self.now.events) items.now }
        ensures { IfOk result (λ points. points.items ≡ published_among self.now items.now) }
    {
        let mut points = Vec::with_capacity(alloc, items.len())?;
        let mut place = 0;
        for item in items {
            place = self.place_near(*item, place);
            if self.is_published_at(place) {
                points.push(self.point_at(place, *item))?;
            }
        }
        Ok(points)
    }

    // Whether the batch at a place, and so each of its items, is published.
    fn is_published_at(&self, place: u32) -> bool
        requires { place < length (kept_of self.now.events) }
        ensures { (item : ℕ) → IfSome (slice_get (kept_of self.now.events) place) (λ b. (b.first ≤ item) × (item < b.first + length b.points))
            → result ≡ is_published_item self.now item }
    {
        self.standings[place as usize] == Standing::Published
    }

    // The place of the batch that has an item. One place and the next are tried before it is searched for.
    fn place_near(&self, item: u32, near: u32) -> u32
        requires { item < admitted self.now.events }
        ensures place { result < length (kept_of self.now.events) }
        ensures item { IfSome (slice_get (kept_of self.now.events) result) (λ b. (b.first ≤ item) × (item < b.first + length b.points)) }
    {
        if self.has_at(near, item) {
            return near;
        }
        let next = near.saturating_add(1);
        if self.has_at(next, item) {
            return next;
        }
        self.place_of(item)
    }

    // Whether a batch is at a place and has an item.
    fn has_at(&self, place: u32, item: u32) -> bool
        ensures place { IsTrue result → place < length (kept_of self.now.events) }
        ensures item { IsTrue result → IfSome (slice_get (kept_of self.now.events) place) (λ b. (b.first ≤ item) × (item < b.first + length b.points)) }
    {
        let Some(batch) = self.kept.get(place as usize) else {
            return false;
        };
        if item < batch.first() {
            return false;
        }
        item - batch.first() < batch.len()
    }
}
