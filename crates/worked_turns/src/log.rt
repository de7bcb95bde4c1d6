//! A log: a value that stands for a record, and keeps each event of it as a row.
ghost use Rattle.std.specs.Prelude.{◌≡◌, ◌↔◌, ◌<◌, ◌+◌, ◌^◌, [], ◌∷◌, ◌++◌, length, IsNone, IsTrue, map};
ghost use Rattle.record_model.specs.Records.{journal, event_of};
ghost use Rattle.record_model.specs.declared.event.Act.TheVariants.{Looked};
ghost use Rattle.worked_turns.specs.Logs.{event_of_row};

use batch_front::{Act, Chronicle};
use cube_math::Batch;
use std::alloc::Global;
use std::marker::Model;

/// What one pass did in one turn.
#[derive(Drop)]
pub struct Row {
    /// What was done.
    pub act: Act,
    /// The batch that it was done with. A look has none.
    pub batch: Option<Batch>,
    /// The number of the pass.
    pub pass: u32,
}

/// Rows in order, and a name that stays.
#[derive(Drop)]
pub struct Log {
    name: u32,
    rows: Vec<Row>,
    published: u32,
}

impl Model for Log {
    ghost use Rattle.std.specs.Prelude.{◌≡◌, ◌-◌, length, map, vec_len};
    ghost use Rattle.std.specs.Vec.{vec_capacity};
    ghost use Rattle.record_model.specs.Records.{journal};
    ghost use Rattle.worked_turns.specs.Logs.{LogValue, event_of_row};

    ghost Value = { LogValue };

    ghost view = { λ l. record { name = l.name; events = map event_of_row l.rows.items; room = vec_capacity l.rows - vec_len l.rows } };

    ghost invariant = { λ l. length (journal (map event_of_row l.rows.items)) ≡ l.published };
}

impl Chronicle for Log {
    type Site = u32;

    ghost record = { λ l. l.events };

    ghost site = { λ l. l.name };

    fn published(&self) -> u32 {
        self.published
    }
}

impl Log {
    /// A log with no rows.
    pub fn new(alloc: Global, name: u32) -> Log
        ensures name { result.name ≡ name }
        ensures events { result.events ≡ [] }
    {
        Log {
            name,
            rows: Vec::new(alloc),
            published: 0,
        }
    }

    /// The name.
    pub fn name(&self) -> u32
        ensures { result ≡ self.now.name }
    {
        self.name
    }

    /// The rows, in order.
    pub fn rows(&self) -> &[Row]
        ensures { map event_of_row result.now ≡ self.now.events }
    {
        self.rows.as_slice()
    }

    /// Makes room for one row more, and says whether there is: not where memory is short, or where 2 ^ 32 - 1 rows are
    /// publications.
    pub fn reserve(&mut self) -> bool
        ensures name { self.new.name ≡ self.old.name }
        ensures events { self.new.events ≡ self.old.events }
        ensures room { IsTrue result → 0 < self.new.room }
        ensures few { IsTrue result → length (journal self.old.events) + 1 < 2 ^ 32 }
    {
        self.published < u32::MAX && self.rows.reserve(1).is_ok()
    }

    /// Adds the row of an event.
    pub fn add(&mut self, act: Act, batch: Option<Batch>, pass: u32)
        requires batch { IsNone batch ↔ (act ≡ Looked) }
        requires room { 0 < self.old.room }
        requires few { length (journal (self.old.events ++ (event_of act batch, pass) ∷ [])) < 2 ^ 32 }
        ensures name { self.new.name ≡ self.old.name }
        ensures events { self.new.events ≡ self.old.events ++ (event_of act batch, pass) ∷ [] }
    {
        match self.rows.push(Row { act, batch, pass }) {
            Ok(()) => self.published += act.publications(),
            Err(_) => unreachable!(),
        }
    }
}
