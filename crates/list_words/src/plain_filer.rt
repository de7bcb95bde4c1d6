ghost use Rattle.std.specs.Prelude.{◌≡◌, ◌≤◌, []};
ghost use Rattle.std.specs.Vec.{vec_capacity};
ghost use Rattle.list_machine.specs.Grants.{granted_in_all};
ghost use Rattle.list_words.specs.Filing.{HasGrant, answered};

use crate::plain_row::PlainRow;
use crate::within::push_within;
use crate::{Answer, Filed, Filings, Grant};
use std::marker::Model;
use std::snapshot::Snapshot;

/// A filer of lists over vectors.
#[derive(Drop)]
pub struct PlainFiler {
    birth: u32,
    grants: Vec<Grant>,
    answers: Vec<Answer>,
}

impl Model for PlainFiler {
    ghost use Rattle.list_words.specs.Filing.{Filing};

    ghost Value = { Filing };

    ghost use Rattle.list_words.specs.PlainFilers.{filing_of, HasAnswerRoom};

    ghost view = { filing_of };

    ghost invariant = { HasAnswerRoom };
}

impl Filings for PlainFiler {
    ghost filing = { λ f. f };

    fn answers(&self) -> &[Answer] {
        &self.answers
    }
}

impl PlainFiler {
    /// A filer with these grants, and with room for an answer to each of their slots.
    pub fn new(birth: u32, grants: Vec<Grant>, answers: Vec<Answer>) -> PlainFiler
        requires none { answers.items ≡ [] }
        requires room { granted_in_all grants.items ≤ vec_capacity answers }
        ensures { result ≡ record { name = []; birth = birth; left = grants.items; answers = [] } }
    {
        PlainFiler {
            birth,
            grants,
            answers,
        }
    }

    pub fn birth(&self) -> u32
        ensures { result ≡ self.now.birth }
    {
        self.birth
    }

    /// Uses one grant of the list, and keeps the answer.
    pub fn record(&mut self, list: u32, item: u32, filed: Filed)
        requires { HasGrant self.old list }
        ensures { self.new ≡ answered self.old list item filed }
    {
        push_within(&mut self.answers, Answer { list, item, filed });
    }
}

/// A reader of lists over vectors. Such lists are read by their owner, so it keeps its birth alone. Contracts see the
/// lists as they were when it was made, too.
#[derive(Drop)]
pub struct PlainReader {
    pub birth: u32,
    pub(crate) lists: Snapshot<Vec<PlainRow>>,
}
