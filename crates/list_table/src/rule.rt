//! The rule of the table of lists, and what its steps tell.

use crate::views::View;
use atomic_table::{Join, Play, Seat, Split, Table, TableRule};
use std::alloc::Global;
use std::marker::{Brand, PhantomData};

/// How many lists and chunks there are.
#[derive(Clone, Copy, Debug, PartialEq, Eq)]
pub(crate) struct Size {
    pub(crate) lists: u32,
    pub(crate) chunks: u32,
}

pub(crate) struct Rule;

impl TableRule<(), View, Size> for Rule {
    ghost use Rattle.list_table.specs.Ruled.{IsRuled, first_view};

    ghost holds = { λ size. IsRuled size.lists size.chunks };

    ghost first = { λ size. first_view size.lists };
}

pub(crate) type Desk = Table<(), View, Size, Rule, Global>;

pub(crate) type Chair = Seat<(), View>;

/// What a step is about. The step does not read it: contracts do, to say what the step tells.
#[derive(Clone, Copy)]
pub(crate) struct Aim {
    pub(crate) list: u32,
    pub(crate) behind: Option<u32>,
    pub(crate) number: u32,
    pub(crate) chunk: u32,
    pub(crate) slot: u32,
}

/// What a step tells of the number that it found and of the seat after it. A call picks it.
pub(crate) trait Move {
    ghost use Rattle.std.specs.Prelude.{ℕ};
    ghost use Rattle.list_table.specs.Ruled.{Sat};

    ghost then: { ℕ → Sat → Type 0 };
}

impl Move for Brand {
    ghost then = { λ found seat. Unit {0} };
}

/// A step that tells what its move says.
pub(crate) struct Act<M> {
    told: PhantomData<M>,
}

impl<M: Move> Play<(), View> for Act<M> {
    ghost then = { λ step before found after. M.then found after };
}

/// The grants of a new filer. A call picks them.
pub(crate) trait Given {
    ghost use Rattle.std.specs.Prelude.{List};
    ghost use Rattle.list_machine.specs.declared.views.Grant.{Grant};

    ghost grants: { List Grant };
}

impl Given for Brand {
    ghost use Rattle.std.specs.Prelude.{[]};

    ghost grants = { [] };
}

/// The owner makes a seat with these grants.
pub(crate) struct Admit<G> {
    grants: PhantomData<G>,
}

impl<G: Given> Split<View> for Admit<G> {
    ghost use Rattle.list_table.specs.Ruled.{admitting, admitted};

    ghost left = { admitting G.grants };

    ghost right = { admitted G.grants };
}

/// The owner takes a seat back.
pub(crate) struct TakeBack;

impl Join<View> for TakeBack {
    ghost use Rattle.list_table.specs.Ruled.{taking_back, spent};

    ghost both = { taking_back };

    ghost spent = { spent };
}
