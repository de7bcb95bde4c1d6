ghost use Rattle.std.specs.Prelude.{◌≡◌, ℕ, Option};
ghost use Rattle.list_machine.specs.Steps.{nobody};
ghost use Rattle.list_machine.specs.declared.views.Unfiled.TheVariants.{Nothing};
ghost use Rattle.world_lists.specs.Seats.{claim_of, fresh_guest, place_given, with_claim};

use list_machine::Claimed;
use std::marker::Model;

/// A place of the claimed chain of a list that was claimed and not filed into yet.
#[derive(Clone, Copy, Debug, PartialEq, Eq)]
pub struct Unfiled {
    pub list: u32,
    pub index: u64,
}

/// A filer's or a reader's seat: whether it is out, how many lists were shut when it was made, and its claim.
#[derive(Drop)]
pub struct Seat {
    out: bool,
    birth: usize,
    claim: Option<Unfiled>,
}

impl Model for Seat {
    ghost use Rattle.list_machine.specs.declared.views.Guest.{Guest};

    ghost Value = { Guest };

    ghost use Rattle.world_lists.specs.Seats.{guest_of};

    ghost view = { guest_of };
}

impl Seat {
    /// The seat that is made when so many lists are shut.
    pub fn new(birth: usize) -> Seat
        ensures { result ≡ fresh_guest birth }
    {
        Seat {
            out: true,
            birth,
            claim: None,
        }
    }

    pub fn is_out(&self) -> bool
        ensures { result ≡ self.now.out }
    {
        self.out
    }

    /// How many lists were shut when it was made.
    pub fn birth(&self) -> usize
        ensures { result ≡ self.now.birth }
    {
        self.birth
    }

    /// The place that it has claimed and not filed into.
    pub fn claim(&self) -> Option<Unfiled>
        ensures { claim_of result ≡ self.now.claim }
    {
        self.claim
    }

    /// Takes what a claim in a list gave.
    pub fn take(&mut self, list: u32, claimed: Claimed)
        ensures { self.new ≡ with_claim self.old (place_given list claimed) }
    {
        self.claim = match claimed {
            Claimed::Index(index) => Some(Unfiled { list, index }),
            Claimed::Shut => None,
        };
    }

    /// Has no claim any more.
    pub fn settle(&mut self)
        ensures { self.new ≡ with_claim self.old Nothing }
    {
        self.claim = None;
    }

    /// Is out no longer.
    pub fn leave(&mut self)
        ensures { self.new ≡ nobody }
    {
        self.out = false;
        self.birth = 0;
        self.claim = None;
    }
}
