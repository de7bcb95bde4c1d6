//! Filers: each files items in lists that others file in too, and waits for nobody.
ghost use Rattle.std.specs.Prelude.{◌≡◌, ◌≢◌, ℕ, ◌<◌, ◌≤◌, [], ◌∷◌, ◌++◌, length, true, All, AllPairs};
ghost use Rattle.list_machine.specs.declared.views.Grant.{Grant};
ghost use Rattle.list_table.specs.Tables.{ListsValue};
ghost use Rattle.list_machine.specs.Grants.{granted_in_all};
ghost use Rattle.list_filers.specs.Filers.{shared_name, AreShown, IsNew};
ghost use Rattle.list_filers.specs.Rooms.{no_room};

use crate::ways::Ways;
use crate::{FilerRoom, cursors};
use list_machine::Grant;
use list_table::{GuestSeat, SharedLists};
use list_words::{Answer, Filed, Filings, SharedFiler, push_within};
use std::marker::Model;
use std::sync::ledger::Ledger;
use step_count::Steps;

/// A filer of lists that threads share. It keeps for each of its lists where it stands in the claimed chain, so it
/// follows no link twice, and it keeps the answers to its filings.
#[derive(Drop)]
pub struct Filer {
    ways: Ways,
    birth: u32,
    answers: Vec<Answer>,
}

impl Model for Filer {
    ghost use Rattle.std.specs.Vec.{vec_capacity};
    ghost use Rattle.list_filers.specs.Filers.{FilerValue, filer_of, IsFiler};

    ghost Value = { FilerValue };

    ghost view = { λ f. filer_of f.ways f.birth f.answers.items };

    ghost invariant = { λ f. IsFiler f.ways f.birth f.answers.items (vec_capacity f.answers) };
}

impl Filings for Filer {
    ghost filing = { λ f. f.filing };

    fn answers(&self) -> &[Answer] {
        &self.answers
    }
}

impl SharedFiler for Filer {
    ghost use Rattle.list_filers.specs.Ways.{IsShown};

    type Lists = SharedLists;

    ghost walked = { λ f. f.walked };

    ghost shows = { λ f. IsShown f.guest };

    fn file<L: Ledger>(
        &mut self,
        lists: &SharedLists,
        list: u32,
        item: u32,
        steps: &mut Steps<L>,
    ) -> Filed {
        let filed = self.ways.file(lists, list, item, steps);
        push_within(&mut self.answers, Answer { list, item, filed });
        filed
    }
}

impl Filer {
    /// A filer of the lists with the seat of a new guest, which was made when `birth` lists were shut. It takes the
    /// memory from the room, and no other.
    pub fn new(
        lists: &SharedLists,
        seat: GuestSeat,
        birth: u32,
        grants: &[Grant],
        room: &mut FilerRoom,
    ) -> Filer
        requires name { seat.name ≡ lists.now.name }
        requires guest { IsNew seat.guest birth grants.now }
        requires apart { AllPairs (λ (a b : Grant). a.list ≢ b.list) grants.now }
        requires within { All (λ (g : Grant). g.list < lists.now.lists) grants.now }
        requires grants_room { length grants.now ≤ room.old.grants }
        requires items_room { granted_in_all grants.now ≤ room.old.items }
        ensures filing { result.filing ≡ record { name = shared_name lists.now; birth = birth; left = grants.now; answers = [] } }
        ensures walked { result.walked ≡ 0 }
        ensures knows { result.guest ≡ seat.guest }
        ensures room { room.new ≡ no_room }
    {
        let (mut places, answers) = room.take();
        cursors::start(&mut places, grants);
        Filer {
            ways: Ways::new(lists, seat, places),
            birth,
            answers,
        }
    }

    /// How many lists were shut when the filer was made.
    pub fn birth(&self) -> u32
        ensures { result ≡ self.now.filing.birth }
    {
        self.birth
    }

    /// The filer's seat. What its guest knows bears all answers out.
    pub fn into_seat(self) -> GuestSeat
        ensures name { (s : ListsValue) → self.filing.name ≡ shared_name s → result.name ≡ s.name }
        ensures guest { result.guest ≡ self.guest }
        ensures out { result.guest.out ≡ true }
        ensures birth { result.guest.birth ≡ self.filing.birth }
        ensures grants { result.guest.grants ≡ self.filing.left }
        ensures shown { AreShown result.guest self.filing.answers }
    {
        let Filer { ways, .. } = self;
        ways.into_seat()
    }
}
