//! The steps by which the owner makes seats and takes them back.
ghost use Rattle.std.specs.Prelude.{◌≡◌, ◌<◌, true, []};
ghost use Rattle.list_machine.specs.Steps.{IsGrantable, newcomer};
ghost use Rattle.list_table.specs.Ruled.{ledger_after_split, ledger_after_join};

use crate::SharedLists;
use crate::lists::{load, split};
use crate::rule::{Aim, TakeBack};
use crate::seats::{GuestSeat, OwnerSeat};
use list_machine::Grant;
use std::marker::Brand;
use std::snapshot::Snapshot;

impl SharedLists {
    /// Makes a seat with these grants, which is out until it is taken back. It knows what the owner knows of the
    /// lists that are not shut.
    pub fn admit(&self, seat: &mut OwnerSeat, grants: &[Grant]) -> GuestSeat
        requires name { seat.old.name ≡ self.now.name }
        requires grants { IsGrantable seat.old.ledger.owner.book.leaves grants.now }
        ensures name { seat.new.name ≡ seat.old.name }
        ensures ledger { seat.new.ledger ≡ ledger_after_split seat.old.ledger grants.now }
        ensures guest { result ≡ record { name = seat.old.name; guest = newcomer seat.old.ledger.owner grants.now } }
    {
        let guest = split::<Brand>(&self.desk, &mut seat.seat, grants);
        GuestSeat {
            seat: guest,
            size: Snapshot::of(&self.size),
        }
    }

    /// Takes a seat back. The owner knows what its guest knew.
    pub fn take_back(&self, seat: &mut OwnerSeat, guest: GuestSeat)
        requires owner { seat.old.name ≡ self.now.name }
        requires guest { guest.name ≡ self.now.name }
        requires out { guest.guest.out ≡ true }
        ensures name { seat.new.name ≡ seat.old.name }
        ensures ledger { seat.new.ledger ≡ ledger_after_join seat.old.ledger guest.guest }
    {
        let GuestSeat { seat: chair, .. } = guest;
        self.desk
            .shared
            .join_seat::<TakeBack>(&mut seat.seat, chair);
        let aim = Aim {
            list: 0,
            behind: None,
            number: 0,
            chunk: 0,
            slot: 0,
        };
        load::<Brand>(&self.desk, &mut seat.seat, 0, aim);
    }
}
