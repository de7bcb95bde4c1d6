//! What passes do, and what a record has of it.
ghost use Rattle.std.specs.Prelude.{◌≡◌};
ghost use Rattle.record_model.specs.Records.{publications};

use cube_math::Point;
use std::collections::LinkedList;

/// What a pass did in a turn.
#[derive(Clone, Copy, Debug, PartialEq, Eq)]
pub enum Act {
    /// It admitted a batch.
    Admitted,
    /// It published a batch.
    Published,
    /// It looked.
    Looked,
}

impl Act {
    /// How many publications an act is: one or none.
    pub fn publications(self) -> u32
        ensures { result ≡ publications self }
    {
        match self {
            Act::Published => 1,
            Act::Admitted | Act::Looked => 0,
        }
    }
}

/// What the record has of an act: of a batch, the number of its input and its points. No value of it is made.
pub enum Event {
    /// The admission of a batch.
    Admission {
        input: u32,
        points: LinkedList<Point>,
    },
    /// The publication of a batch.
    Publication {
        input: u32,
        points: LinkedList<Point>,
    },
    /// A look.
    Look,
}
