ghost use Rattle.std.specs.Prelude.{◌≡◌, ◌+◌, ◌<◌, ◌≤◌, ℕ, Some, nat_le, slice_get, length};
ghost use Rattle.cube_math.specs.Points.{PointValue};
ghost use Rattle.pinned_version.specs.Books.{AreInOrder, BatchItems, point_in, point_of};

use cube_math::Point;
use std::marker::Model;
use std::sync::Arc;
use std::sync::ledger::Ledger;
use step_count::Steps;

/// The points of a published batch, which books share, with the number of its first item. Contracts see both.
#[derive(Drop)]
pub struct BookBatch {
    first: u32,
    points: Arc<Vec<Point>>,
}

impl Model for BookBatch {
    ghost use Rattle.pinned_version.specs.Books.{BatchItems};

    ghost Value = { BatchItems };

    ghost view = { λ b. record { first = b.first; points = b.points.value.items } };
}

impl BookBatch {
    /// A batch whose items have the numbers from `first` on, in the order of the points.
    pub fn new(first: u32, points: Arc<Vec<Point>>) -> BookBatch
        ensures { result ≡ record { first = first; points = points.value.items } }
    {
        BookBatch { first, points }
    }

    /// The number of its first item.
    pub fn first(&self) -> u32
        ensures { result ≡ self.now.first }
    {
        self.first
    }

    /// Its points, in the order of their items.
    pub fn points(&self) -> &[Point]
        ensures { result.now ≡ self.now.points }
    {
        self.points.as_slice()
    }

    /// The point of an item, or None where the batch doesn't have it.
    fn get(&self, item: u32) -> Option<Point>
        ensures { result ≡ point_in self.now item }
    {
        if self.first <= item {
            let points = self.points();
            points.get((item - self.first) as usize).copied()
        } else {
            None
        }
    }
}

/// The points of a version by item number. Contracts see the list of its batches.
#[derive(Drop)]
pub struct PointBook {
    batches: Vec<BookBatch>,
}

impl Model for PointBook {
    ghost use Rattle.std.specs.Prelude.{List};
    ghost use Rattle.pinned_version.specs.Books.{BatchItems, AreInOrder};

    ghost Value = { List BatchItems };

    ghost view = { λ b. b.batches.items };

    ghost invariant = { λ b. AreInOrder b.batches.items };
}

impl PointBook {
    /// A book of these batches, moved in, which stand in the order of their items.
    pub fn new(batches: Vec<BookBatch>) -> PointBook
        requires { AreInOrder batches.items }
        ensures { result ≡ batches.items }
    {
        PointBook { batches }
    }

    /// A law: the batches stand in the order of their items, and no two of them share one.
    pub fn is_in_order(&self)
        ensures { AreInOrder self.now }
    {
        let _ = &self.batches;
    }

    /// The point of an item, or None where no batch has it. It looks first into the batch at the place `near`, and leaves
    /// there the place where it looked last: no answer depends on it. One step.
    pub fn get<L: Ledger>(&self, item: u32, near: &mut usize, steps: &mut Steps<L>) -> Option<Point>
        ensures point { result ≡ point_of self.now item }
        ensures steps { steps.new ≡ steps.old + 1 }
    {
        steps.tick();
        let found = point_near(&self.batches, item, *near);
        if found.is_some() {
            return found;
        }
        let begun = batches_begun(&self.batches, item);
        if begun == 0 {
            return None;
        }
        *near = begun - 1;
        point_at(&self.batches, item, begun - 1)
    }
}

/// The point of an item in the batch at a place, where there is such a batch and it has the item.
fn point_near(batches: &[BookBatch], item: u32, near: usize) -> Option<Point>
    requires { AreInOrder batches.now }
    ensures { (p : PointValue) → result ≡ Some p → point_of batches.now item ≡ Some p }
{
    if near < batches.len() {
        batches[near].get(item)
    } else {
        None
    }
}

/// How many batches begin at the item or before it.
fn batches_begun(batches: &[BookBatch], item: u32) -> usize
    requires { AreInOrder batches.now }
    ensures within { result ≤ length batches.now }
    ensures before { (k : ℕ) (b : BatchItems) → slice_get batches.now k ≡ Some b → k < result → b.first ≤ item }
    ensures behind { (k : ℕ) (b : BatchItems) → slice_get batches.now k ≡ Some b → result ≤ k → item < b.first }
{
    batches.partition_point(
        |batch: &BookBatch| -> bool
            ensures { result ≡ nat_le batch.now.first item }
        { batch.first <= item },
    )
}

/// The point of an item, of which no batch is known to have it but the one at the place: those behind it begin later.
fn point_at(batches: &[BookBatch], item: u32, place: usize) -> Option<Point>
    requires order { AreInOrder batches.now }
    requires within { place < length batches.now }
    requires before { (k : ℕ) (b : BatchItems) → slice_get batches.now k ≡ Some b → k < place + 1 → b.first ≤ item }
    requires behind { (k : ℕ) (b : BatchItems) → slice_get batches.now k ≡ Some b → place + 1 ≤ k → item < b.first }
    ensures { result ≡ point_of batches.now item }
{
    batches[place].get(item)
}
