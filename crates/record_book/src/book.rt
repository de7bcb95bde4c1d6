ghost use Rattle.std.specs.Prelude.{◌≡◌, ◌+◌, ◌^◌, ◌<◌, ◌≤◌, ◌↔◌, ℕ, [], ◌∷◌, ◌++◌, false, true, length, IfNone, IfOk, IfSome, IsTrue, OnErr, OnOk, Some, nat_le, slice_get, slice_set};
ghost use Rattle.record_model.specs.Admissions.{admitted, admitted_points};
ghost use Rattle.record_model.specs.Records.{journal, published};
ghost use Rattle.record_model.specs.declared.event.Event.TheVariants.{Admission, Look, Publication};
ghost use Rattle.version_rows.specs.Journals.{AreBatchesOf};
ghost use Rattle.record_book.specs.Books.{IsOut, entries_of};
ghost use Rattle.record_book.specs.BookKept.{IsRowOf, event_of_row};
ghost use Rattle.record_book.specs.KeptBatches.{KeptValue, kept_as, kept_of};
ghost use Rattle.record_book.specs.declared.row.Standing.TheVariants.{Abandoned, Out, Published};

pub mod laws;
mod published_items;

use crate::kept_batch::KeptBatch;
use crate::row::{Row, Standing};
use crate::within::push_within;
use cube_math::{Batch, Entry, Point};
use std::alloc::{AllocError, Global};
use std::marker::Model;
use version_rows::BatchRow;

/// What a store keeps of its record. Contracts see the record, where each admitted batch stands, and whether `reserve`
/// took the memory for one event more.
#[derive(Drop)]
pub struct RecordBook {
    rows: Vec<Row>,
    kept: Vec<KeptBatch>,
    standings: Vec<Standing>,
    entries: Vec<Entry>,
    batches: Vec<BatchRow>,
    admitted: u32,
    room: bool,
}

impl Model for RecordBook {
    ghost use Rattle.record_book.specs.Books.{BookValue};

    ghost Value = { BookValue };

    ghost use Rattle.record_book.specs.BookKept.{IsKept, book_of};

    ghost view = { book_of };

    ghost invariant = { IsKept };
}

impl RecordBook {
    /// The book of no events. It takes no memory.
    pub fn new(alloc: Global) -> RecordBook
        ensures { result ≡ record { events = []; standings = []; room = false } }
    {
        RecordBook {
            rows: Vec::new(alloc),
            kept: Vec::new(alloc),
            standings: Vec::new(alloc),
            entries: Vec::new(alloc),
            batches: Vec::new(alloc),
            admitted: 0,
            room: false,
        }
    }

    /// How many points were admitted: the number of the next item.
    pub fn admitted(&self) -> u32
        ensures { result ≡ admitted self.now.events }
    {
        self.admitted
    }

    /// How many batches were published.
    pub fn published(&self) -> u32
        ensures { result ≡ length (journal self.now.events) }
    {
        self.entries.len() as u32
    }

    /// The published batches in order, each with its input, its loader and how many points it has.
    pub fn journal(&self) -> &[Entry]
        ensures { result.now ≡ entries_of self.now.events }
    {
        self.entries.as_slice()
    }

    /// The published batches in order, each with the numbers of its items.
    pub fn batches(&self) -> &[BatchRow]
        ensures { AreBatchesOf self.now.events result.now }
    {
        self.batches.as_slice()
    }

    /// The admitted batches in order, published or not.
    pub fn kept(&self) -> &[KeptBatch]
        ensures { result.now ≡ kept_of self.now.events }
    {
        self.kept.as_slice()
    }

    /// Where each admitted batch stands, in the same order.
    pub fn standings(&self) -> &[Standing]
        ensures value { result.now ≡ self.now.standings }
        ensures many { length result.now ≡ length (kept_of self.now.events) }
    {
        self.standings.as_slice()
    }

    /// The place among the admitted batches of the one that has this item. The last batch is looked at first.
    pub fn place_of(&self, item: u32) -> u32
        requires { item < admitted self.now.events }
        ensures place { result < length (kept_of self.now.events) }
        ensures item { IfSome (slice_get (kept_of self.now.events) result) (λ b. (b.first ≤ item) × (item < b.first + length b.points)) }
    {
        let last = self.kept.len() - 1;
        if self.kept[last].first() <= item {
            return last as u32;
        }
        (self.begun(item) - 1) as u32
    }

    // How many batches begin at the item or before it.
    fn begun(&self, item: u32) -> usize
        ensures within { result ≤ length (kept_of self.now.events) }
        ensures before { (k : ℕ) (b : KeptValue) → slice_get (kept_of self.now.events) k ≡ Some b → k < result → b.first ≤ item }
        ensures behind { (k : ℕ) (b : KeptValue) → slice_get (kept_of self.now.events) k ≡ Some b → result ≤ k → item < b.first }
    {
        self.kept.partition_point(
            |batch: &KeptBatch| -> bool
                ensures { result ≡ nat_le batch.now.first item }
            { batch.first() <= item },
        )
    }

    /// The point of an item.
    pub fn point(&self, item: u32) -> Point
        requires { item < admitted self.now.events }
        ensures { slice_get (admitted_points self.now.events) item ≡ Some result }
    {
        self.point_at(self.place_of(item), item)
    }

    // The point of an item of the batch at a place.
    fn point_at(&self, place: u32, item: u32) -> Point
        requires place { place < length (kept_of self.now.events) }
        requires item { IfSome (slice_get (kept_of self.now.events) place) (λ b. (b.first ≤ item) × (item < b.first + length b.points)) }
        ensures { slice_get (admitted_points self.now.events) item ≡ Some result }
    {
        let batch = &self.kept[place as usize];
        batch.points()[(item - batch.first()) as usize]
    }

    /// The place of a batch that is out: it was admitted by this loader with this number of its first item, and was
    /// neither published nor abandoned. None where no such batch is out.
    pub fn find(&self, batch: &Batch, loader: u32, first: u32) -> Option<u32>
        ensures found { IfSome result (λ place. IsOut self.now place (kept_as batch.now loader first)) }
        ensures none { IfNone result ((place : ℕ) → IsOut self.now place (kept_as batch.now loader first) → ⊥) }
    {
        if first >= self.admitted {
            return None;
        }
        let place = self.place_of(first);
        if self.is_out(place, batch, loader, first) {
            Some(place)
        } else {
            None
        }
    }

    /// Whether the batch at a place is this one, and is out.
    pub fn is_out(&self, place: u32, batch: &Batch, loader: u32, first: u32) -> bool
        requires { place < length (kept_of self.now.events) }
        ensures { IsTrue result ↔ IsOut self.now place (kept_as batch.now loader first) }
    {
        if self.standings[place as usize] != Standing::Out {
            return false;
        }
        self.kept[place as usize].is_copy_of(batch, loader, first)
    }

    /// The published points in the order of the publications.
    pub fn published_points(&self, alloc: Global) -> Result<Vec<Point>, AllocError>
        ensures { IfOk result (λ points. points.items ≡ published self.now.events) }
    {
        let mut points = Vec::with_capacity(alloc, self.published_count())?;
        for row in &self.rows {
            points.extend_from_slice(self.published_by(row))?;
        }
        Ok(points)
    }

    // The points that a row's event publishes.
    fn published_by(&self, row: &Row) -> &[Point]
        requires { IsRowOf (length (kept_of self.now.events)) row.now }
        ensures { result.now ≡ published (event_of_row (kept_of self.now.events) row.now ∷ []) }
    {
        match row {
            Row::Publishes(place) => self.kept[*place as usize].points().as_slice(),
            Row::Admits(_) | Row::Looks(_) => &[],
        }
    }

    // How many points were published.
    fn published_count(&self) -> usize {
        let mut count = 0usize;
        for entry in &self.entries {
            count = count.saturating_add(entry.len as usize);
        }
        count
    }

    /// A copy of a batch that is to be admitted next, by this loader.
    pub fn keep(&self, alloc: Global, batch: &Batch, loader: u32) -> Result<KeptBatch, AllocError>
        requires { admitted self.now.events + length batch.now.points < 2 ^ 32 }
        ensures { IfOk result (λ kept. kept ≡ kept_as batch.now loader (admitted self.now.events)) }
    {
        KeptBatch::copy_of(alloc, batch, loader, self.admitted)
    }

    /// Takes the memory for one event more.
    pub fn reserve(&mut self) -> Result<(), AllocError>
        ensures ok { OnOk result (self.new ≡ record self.old { room = true }) }
        ensures err { OnErr result (self.new ≡ self.old) }
    {
        self.rows.reserve(1)?;
        self.kept.reserve(1)?;
        self.standings.reserve(1)?;
        self.entries.reserve(1)?;
        self.batches.reserve(1)?;
        self.room = true;
        Ok(())
    }

    /// Appends the admission of a batch, which is out then, and answers its place. It takes no memory.
    pub fn admit(&mut self, batch: KeptBatch) -> u32
        requires room { IsTrue self.old.room }
        requires next { batch.first ≡ admitted self.old.events }
        ensures events { self.new.events ≡ self.old.events ++ (Admission batch.input batch.points, batch.loader) ∷ [] }
        ensures standings { self.new.standings ≡ self.old.standings ++ Out ∷ [] }
        ensures place { result ≡ length self.old.standings }
    {
        let place = self.kept.len() as u32;
        self.admitted += batch.len();
        self.room = false;
        push_within(&mut self.rows, Row::Admits(place));
        push_within(&mut self.kept, batch);
        push_within(&mut self.standings, Standing::Out);
        place
    }

    /// Appends the publication of a batch that is out, by its loader, and answers how many were published then. It takes no
    /// memory.
    pub fn publish(&mut self, place: u32) -> u32
        requires room { IsTrue self.old.room }
        requires out { slice_get self.old.standings place ≡ Some Out }
        ensures events { IfSome (slice_get (kept_of self.old.events) place) (λ b.
            self.new.events ≡ self.old.events ++ (Publication b.input b.points, b.loader) ∷ []) }
        ensures standings { self.new.standings ≡ slice_set self.old.standings place Published }
        ensures number { result ≡ length (journal self.new.events) }
    {
        let number = self.entries.len() as u32 + 1;
        let batch = &self.kept[place as usize];
        let entry = batch.entry();
        let row = batch.row(number);
        self.room = false;
        push_within(&mut self.rows, Row::Publishes(place));
        push_within(&mut self.entries, entry);
        push_within(&mut self.batches, row);
        self.standings[place as usize] = Standing::Published;
        number
    }

    /// Appends a look by a pass. It takes no memory.
    pub fn look(&mut self, pass: u32)
        requires { IsTrue self.old.room }
        ensures events { self.new.events ≡ self.old.events ++ (Look, pass) ∷ [] }
        ensures standings { self.new.standings ≡ self.old.standings }
    {
        self.room = false;
        push_within(&mut self.rows, Row::Looks(pass));
    }

    /// Gives up a batch that is out. Its points stay admitted.
    pub fn abandon(&mut self, place: u32)
        requires { slice_get self.old.standings place ≡ Some Out }
        ensures { self.new ≡ record self.old { standings = slice_set self.old.standings place Abandoned } }
    {
        self.standings[place as usize] = Standing::Abandoned;
    }
}
