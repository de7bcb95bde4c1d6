//! The rule of the front's table, and what its steps tell.
//! Word 0 counts the tickets that were drawn, word 1 the tickets that were served and word 2 the events, each
//! modulo 2 ^ 64. Slot 0 has the value while nobody holds the turn.
use crate::chronicle::Chronicle;
use atomic_table::{Join, Play, Seat, Split, Table, TableRule};
use record_model::Event;
use std::alloc::Global;
use std::collections::LinkedList;
use std::marker::{Brand, PhantomData};
use std::snapshot::Snapshot;

/// What a front was made with.
#[derive(Drop)]
pub struct Opening<V> {
    pub value: Snapshot<V>,
    pub passes: u32,
}

/// What a pass knows. No value of it is made.
pub struct Card<S> {
    pub site: S,
    pub number: u32,
    pub seen: LinkedList<(Event, u32)>,
    pub mine: LinkedList<Event>,
}

/// Where a seat stands: away, or with the ticket of a turn. No value of it is made.
pub enum Place {
    Away,
    Waits { ticket: u64 },
    Holds { ticket: u64 },
}

/// What a seat knows: one card where it is a pass, and what it was told. No value of it is made.
pub struct View<S> {
    pub cards: LinkedList<Card<S>>,
    pub told: LinkedList<(Event, u32)>,
    pub place: Place,
}

pub struct Rule<V> {
    value: PhantomData<V>,
}

impl<V: Chronicle> TableRule<Option<V>, View<V::Site>, Opening<V>> for Rule<V> {
    ghost use Rattle.batch_front.specs.Turns.{Kept, first_view};

    ghost holds = { λ key. Kept V.record V.site (V.site key.value.value) key.passes };

    ghost first = { λ key. first_view (V.site key.value.value) key.passes };
}

pub type Desk<V> = Table<Option<V>, View<<V as Chronicle>::Site>, Opening<V>, Rule<V>, Global>;

pub type Chair<V> = Seat<Option<V>, View<<V as Chronicle>::Site>>;

/// A ticket is drawn.
pub struct Draw;

impl<V, S> Play<Option<V>, View<S>> for Draw {
    ghost use Rattle.batch_front.specs.Turns.{Drew};

    ghost then = { Drew };
}

/// It is seen which ticket is served.
pub struct Look<V> {
    value: PhantomData<V>,
}

impl<V: Chronicle> Play<Option<V>, View<V::Site>> for Look<V> {
    ghost use Rattle.batch_front.specs.Turns.{Saw};

    ghost then = { Saw V.record V.site };
}

/// An event, which a call picks.
pub trait Told {
    ghost use Rattle.record_model.specs.declared.event.Event.{Event};

    ghost event: { Event };
}

impl Told for Brand {
    ghost use Rattle.record_model.specs.declared.event.Event.TheVariants.{Look};

    ghost event = { Look };
}

/// An event is committed to the record.
pub struct Commit<E> {
    event: PhantomData<E>,
}

impl<V, S, E: Told> Play<Option<V>, View<S>> for Commit<E> {
    ghost use Rattle.batch_front.specs.Turns.{Committed};

    ghost then = { Committed E.event };
}

/// The next ticket is served.
pub struct Leave;

impl<V, S> Play<Option<V>, View<S>> for Leave {
    ghost use Rattle.batch_front.specs.Turns.{Left};

    ghost then = { Left };
}

/// What was told is compared with what was seen.
pub struct Compare;

impl<V, S> Play<Option<V>, View<S>> for Compare {
    ghost use Rattle.batch_front.specs.Turns.{Compared};

    ghost then = { Compared };
}

/// A pass is dealt.
pub struct Deal;

impl<S> Split<View<S>> for Deal {
    ghost use Rattle.batch_front.specs.Turns.{dealer, dealt};

    ghost left = { dealer };

    ghost right = { dealt };
}

/// A pass tells what it has seen.
pub struct Tell;

impl<S> Split<View<S>> for Tell {
    ghost use Rattle.batch_front.specs.Turns.{teller};

    ghost left = { λ v. v };

    ghost right = { teller };
}

/// A pass is told what another has seen.
pub struct Hear;

impl<S> Join<View<S>> for Hear {
    ghost use Rattle.batch_front.specs.Turns.{hearer, blank};

    ghost both = { hearer };

    ghost spent = { blank };
}

/// A pass is gathered.
pub struct Gather;

impl<S> Join<View<S>> for Gather {
    ghost use Rattle.batch_front.specs.Turns.{gatherer, blank};

    ghost both = { gatherer };

    ghost spent = { blank };
}
