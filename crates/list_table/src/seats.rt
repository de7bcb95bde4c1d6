//! The seats at a table of lists: tokens of no bytes that a thread steps with.

use crate::rule::{Chair, Size};
use std::marker::Model;
use std::snapshot::Snapshot;

/// The owner's seat. Contracts see the name of its lists, and what the owner knows of them.
#[derive(Drop)]
pub struct OwnerSeat {
    pub(crate) seat: Chair,
    pub(crate) size: Snapshot<Size>,
}

impl Model for OwnerSeat {
    ghost use Rattle.list_table.specs.Ruled.{ledger_of};
    ghost use Rattle.list_table.specs.Tables.{OwnerValue, IsOwnerSeat, name_of};

    ghost Value = { OwnerValue };

    ghost view = { λ s. record { name = name_of s.size.value.lists s.size.value.chunks s.seat.table_id; ledger = ledger_of s.seat.me.0 } };

    ghost invariant = { λ s. IsOwnerSeat s.size.value.lists s.size.value.chunks s.seat.me };
}

/// The seat of a filer or a reader. Contracts see the name of its lists, and what the guest knows of them.
#[derive(Drop)]
pub struct GuestSeat {
    pub(crate) seat: Chair,
    pub(crate) size: Snapshot<Size>,
}

impl Model for GuestSeat {
    ghost use Rattle.list_table.specs.Ruled.{guest_of};
    ghost use Rattle.list_table.specs.Tables.{GuestValue, IsGuestSeat, name_of};

    ghost Value = { GuestValue };

    ghost view = { λ s. record { name = name_of s.size.value.lists s.size.value.chunks s.seat.table_id; guest = guest_of s.seat.me.0 } };

    ghost invariant = { λ s. IsGuestSeat s.size.value.lists s.size.value.chunks s.seat.me };
}
