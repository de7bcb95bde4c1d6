//! What a thread takes turns with, and what a turn gives.
ghost use Rattle.std.specs.Prelude.{◌≡◌, length};
ghost use Rattle.record_model.specs.Records.{journal};

use crate::chronicle::Chronicle;
use crate::rule::{Chair, Opening};
use std::marker::Model;
use std::snapshot::Snapshot;

/// The right to take turns, for one thread at a time. It has seen a beginning of the record, and knows which events it added.
#[derive(Drop)]
pub struct Pass<V: Chronicle> {
    pub(crate) seat: Chair<V>,
    pub(crate) opening: Snapshot<Opening<V>>,
    pub(crate) number: u32,
    pub(crate) known: u32,
}

impl<V: Chronicle> Model for Pass<V> {
    ghost use Rattle.std.specs.Prelude.{◌≡◌, ℕ, length};
    ghost use Rattle.batch_front.specs.Passes.{PassValue, pass_value, IsPass};

    ghost Value = { PassValue V.Site };

    ghost view = { λ p. pass_value record { table = p.seat.table_id; site = V.site p.opening.value.value.value; passes = p.opening.value.passes } p.number p.seat.me.0 };

    ghost invariant = { λ p. IsPass (V.site p.opening.value.value.value) p.number p.known p.seat.me };
}

impl<V: Chronicle> Pass<V> {
    /// The number of the pass, from 0.
    pub fn number(&self) -> u32
        ensures { result ≡ self.now.number }
    {
        self.number
    }

    /// The number of publications that the pass has seen.
    pub fn known(&self) -> u32
        ensures { result ≡ length (journal self.now.seen) }
    {
        self.known
    }
}

/// What a pass had seen, to be told to another pass of the same front.
#[derive(Drop)]
pub struct News<V: Chronicle> {
    pub(crate) seat: Chair<V>,
    pub(crate) opening: Snapshot<Opening<V>>,
    pub(crate) known: u32,
}

impl<V: Chronicle> Model for News<V> {
    ghost use Rattle.std.specs.Prelude.{◌≡◌, ℕ, length};
    ghost use Rattle.batch_front.specs.Passes.{NewsValue, IsNews};

    ghost Value = { NewsValue V.Site };

    ghost view = { λ n. record { front = record { table = n.seat.table_id; site = V.site n.opening.value.value.value; passes = n.opening.value.passes }; seen = n.seat.me.0.told } };

    ghost invariant = { λ n. IsNews n.known n.seat.me };
}

/// What lets a turn append one event.
#[derive(Drop)]
pub struct Pen<V: Chronicle> {
    pub(crate) pass: Snapshot<Pass<V>>,
    pub(crate) unused: bool,
}

impl<V: Chronicle> Model for Pen<V> {
    ghost use Rattle.std.specs.Option.{unwrap_or};
    ghost use Rattle.batch_front.specs.Passes.{PenValue};

    ghost Value = { PenValue V.Site };

    ghost view = { λ p. record { front = p.pass.value.front; turn = unwrap_or p.pass.value.turn 0; unused = p.unused } };
}

/// What the pass has that holds the turn.
#[derive(Drop)]
pub struct Turn<V: Chronicle> {
    /// What the turn is about.
    pub value: V,
    /// What lets the turn append one event.
    pub pen: Pen<V>,
}
