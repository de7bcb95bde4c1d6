ghost use Rattle.std.specs.Prelude.{◌≡◌, ◌+◌, ◌^◌, ◌<◌, ◌≤◌, IsTrue, ◌↔◌, IfOk, length};
ghost use Rattle.record_book.specs.KeptBatches.{kept_as};

use cube_math::{Batch, Entry, Point};
use std::alloc::{AllocError, Global};
use std::marker::Model;
use std::sync::Arc;
use version_rows::BatchRow;

/// An admitted batch. Whoever needs its points shares them.
#[derive(Drop)]
pub struct KeptBatch {
    input: u32,
    loader: u32,
    first: u32,
    points: Arc<Vec<Point>>,
}

impl Model for KeptBatch {
    ghost use Rattle.std.specs.Prelude.{◌+◌, ◌^◌, ◌<◌, ◌≤◌, length};
    ghost use Rattle.record_book.specs.KeptBatches.{KeptValue};

    ghost Value = { KeptValue };

    ghost view = { λ b. record { input = b.input; loader = b.loader; first = b.first; points = b.points.value.items } };

    ghost invariant = { λ b. (1 ≤ length b.points.value.items) × (b.first + length b.points.value.items < 2 ^ 32) };
}

impl KeptBatch {
    /// A copy of the batch, whose items have the numbers from `first` on.
    pub(crate) fn copy_of(
        alloc: Global,
        batch: &Batch,
        loader: u32,
        first: u32,
    ) -> Result<KeptBatch, AllocError>
        requires { first + length batch.now.points < 2 ^ 32 }
        ensures { IfOk result (λ kept. kept ≡ kept_as batch.now loader first) }
    {
        let points = Vec::from_slice(alloc, batch.points())?;
        let points = Arc::new(alloc, points)?;
        Ok(KeptBatch {
            input: batch.input(),
            loader,
            first,
            points,
        })
    }

    /// The number of the input, from 0.
    pub fn input(&self) -> u32
        ensures { result ≡ self.now.input }
    {
        self.input
    }

    /// The number of the pass that admitted it, from 0.
    pub fn loader(&self) -> u32
        ensures { result ≡ self.now.loader }
    {
        self.loader
    }

    /// The number of the first item. The others follow, in the order of the points.
    pub fn first(&self) -> u32
        ensures { result ≡ self.now.first }
    {
        self.first
    }

    /// The points, at least one.
    pub fn points(&self) -> &Arc<Vec<Point>>
        ensures { result.now.value.items ≡ self.now.points }
    {
        &self.points
    }

    /// How many points there are.
    pub(crate) fn len(&self) -> u32
        ensures value { result ≡ length self.now.points }
        ensures some { 1 ≤ result }
        ensures end { self.now.first + result < 2 ^ 32 }
    {
        self.points.len() as u32
    }

    /// Its entry in the journal.
    pub(crate) fn entry(&self) -> Entry
        ensures { result ≡ record { input = self.now.input; loader = self.now.loader; len = length self.now.points } }
    {
        Entry {
            input: self.input,
            loader: self.loader,
            len: self.len(),
        }
    }

    /// Its row, with the number of its publication.
    pub(crate) fn row(&self, number: u32) -> BatchRow
        ensures { result ≡ record { number = number; input = self.now.input; loader = self.now.loader; first = self.now.first; len = length self.now.points } }
    {
        BatchRow {
            number,
            input: self.input,
            loader: self.loader,
            first: self.first,
            len: self.len(),
        }
    }

    /// Whether it is a copy of the batch, with this loader and this number of the first item.
    pub(crate) fn is_copy_of(&self, batch: &Batch, loader: u32, first: u32) -> bool
        ensures { IsTrue result ↔ (self.now ≡ kept_as batch.now loader first) }
    {
        if self.input != batch.input() || self.loader != loader || self.first != first {
            return false;
        }
        self.points.as_slice() == batch.points()
    }
}
