ghost use Rattle.std.specs.Prelude.{◌≡◌, ◌+◌, ◌-◌, ◌<◌, ◌≤◌, ◌^◌, [], OnErr, OnOk};
ghost use Rattle.leaf_items.specs.Lists.{appended};

use crate::within::push_within;
use std::alloc::AllocError;
use std::marker::Model;

/// The items of one list, with memory for so many more as are wanted.
#[derive(Drop)]
pub(crate) struct ItemList {
    born: u32,
    wanted: u32,
    items: Vec<u32>,
}

impl Model for ItemList {
    ghost use Rattle.std.specs.Prelude.{◌+◌, ◌≤◌, vec_len};
    ghost use Rattle.std.specs.Vec.{vec_capacity};
    ghost use Rattle.leaf_items.specs.Lists.{ListValue};

    ghost Value = { ListValue };

    ghost view = { λ a. record { born = a.born; wanted = a.wanted; items = a.items.items } };

    ghost invariant = { λ a. vec_len a.items + a.wanted ≤ vec_capacity a.items };
}

impl ItemList {
    /// A list of these items, which is opened after so many admitted ones.
    pub(crate) fn new(born: u32, items: Vec<u32>) -> ItemList
        ensures { result ≡ record { born = born; wanted = 0; items = items.items } }
    {
        ItemList {
            born,
            wanted: 0,
            items,
        }
    }

    /// How many items were admitted when it was opened.
    pub(crate) fn born(&self) -> u32
        ensures { result ≡ self.now.born }
    {
        self.born
    }

    /// The items, ascending.
    pub(crate) fn items(&self) -> &[u32]
        ensures { result.now ≡ self.now.items }
    {
        self.items.as_slice()
    }

    /// Takes memory for one item more.
    pub(crate) fn want(&mut self) -> Result<(), AllocError>
        requires { self.old.wanted + 1 < 2 ^ 32 }
        ensures ok { OnOk result (self.new ≡ record self.old { wanted = self.old.wanted + 1 }) }
        ensures err { OnErr result (self.new ≡ self.old) }
    {
        self.items.reserve(self.wanted as usize + 1)?;
        self.wanted += 1;
        Ok(())
    }

    /// Gives up the memory of one item.
    pub(crate) fn unwant(&mut self)
        requires { 0 < self.old.wanted }
        ensures { self.new ≡ record self.old { wanted = self.old.wanted - 1 } }
    {
        self.wanted -= 1;
    }

    /// Appends an item for which there is memory.
    pub(crate) fn append(&mut self, item: u32)
        requires { 0 < self.old.wanted }
        ensures { self.new ≡ appended self.old item }
    {
        push_within(&mut self.items, item);
        self.wanted -= 1;
    }

    /// Lets all items go, and their memory.
    pub(crate) fn empty(&mut self)
        requires { self.old.wanted ≡ 0 }
        ensures { self.new ≡ record self.old { items = [] } }
    {
        self.items.clear();
        self.items.shrink_to_fit();
    }
}
