//! Memory for filers, which is reserved before they are made.
ghost use Rattle.std.specs.Prelude.{◌≡◌, ◌≤◌, [], OnOk, OnErr};
ghost use Rattle.std.specs.Vec.{vec_capacity};
ghost use Rattle.list_filers.specs.Rooms.{no_room, roomier};

use crate::cursors::Cursor;
use list_words::Answer;
use std::alloc::{AllocError, Global};
use std::marker::Model;
use std::mem;

/// Memory for one filer: for so many grants, and for the answers of so many items.
#[derive(Drop)]
pub struct FilerRoom {
    cursors: Vec<Cursor>,
    answers: Vec<Answer>,
    grants: u32,
    items: u32,
    alloc: Global,
}

impl Model for FilerRoom {
    ghost use Rattle.list_filers.specs.Room.{Room};

    ghost Value = { Room };

    ghost use Rattle.list_filers.specs.Rooms.{room_of, HasRoom};

    ghost view = { room_of };

    ghost invariant = { HasRoom };
}

impl FilerRoom {
    /// No room.
    pub fn new(alloc: Global) -> FilerRoom
        ensures { result ≡ no_room }
    {
        FilerRoom {
            cursors: Vec::new(alloc),
            answers: Vec::new(alloc),
            grants: 0,
            items: 0,
            alloc,
        }
    }

    /// Makes room for a filer with so many grants and the answers of so many items.
    pub fn reserve(&mut self, grants: u32, items: u32) -> Result<(), AllocError>
        ensures ok { OnOk result (self.new ≡ roomier self.old grants items) }
        ensures err { OnErr result (self.new ≡ self.old) }
    {
        self.cursors.reserve(grants as usize)?;
        self.answers.reserve(items as usize)?;
        self.grants = self.grants.max(grants);
        self.items = self.items.max(items);
        Ok(())
    }

    /// Gives the memory away.
    pub(crate) fn take(&mut self) -> (Vec<Cursor>, Vec<Answer>)
        ensures empty { (result.0.items ≡ []) × (result.1.items ≡ []) }
        ensures cursors { self.old.grants ≤ vec_capacity result.0 }
        ensures answers { self.old.items ≤ vec_capacity result.1 }
        ensures none { self.new ≡ no_room }
    {
        let cursors = mem::replace(&mut self.cursors, Vec::new(self.alloc));
        let answers = mem::replace(&mut self.answers, Vec::new(self.alloc));
        self.grants = 0;
        self.items = 0;
        (cursors, answers)
    }
}
