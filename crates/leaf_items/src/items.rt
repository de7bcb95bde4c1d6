ghost use Rattle.std.specs.Prelude.{◌≡◌, ◌+◌, ◌≤◌, ◌<◌, ◌^◌, [], ◌∷◌, ◌++◌, All, IfOk, OnErr, OnOk, Some, length, nat_lt, slice_get};
ghost use Rattle.leaf_items.specs.Items.{before, born_of, granted, items_of, owned, with_ready};
ghost use Rattle.leaf_items.specs.Openings.{AreDealt, with_parts};

use crate::item_list::ItemList;
use crate::lists::{admit_all, move_items, open_all};
use crate::parts::{Parts, parts_of};
use std::alloc::{AllocError, Global};
use std::marker::Model;

/// The admitted items, by the lists in which they are. Items are numbered from 0 on as they are admitted, lists as they are
/// opened. The list 0 is there from the beginning on.
#[derive(Drop)]
pub struct LeafItems {
    leaf: Vec<u32>,
    lists: Vec<ItemList>,
    ready: Vec<u32>,
    rooms: u32,
}

impl Model for LeafItems {
    ghost use Rattle.leaf_items.specs.Items.{ItemsValue};

    ghost Value = { ItemsValue };

    ghost use Rattle.leaf_items.specs.Kept.{value_of, IsKept};

    ghost view = { value_of };

    ghost invariant = { IsKept };
}

impl LeafItems {
    /// No items, and the list 0.
    pub fn new(alloc: Global) -> Result<LeafItems, AllocError>
        ensures { IfOk result (λ items. items ≡ record { leaf = []; born = 0 ∷ []; ready = []; rooms = 0 }) }
    {
        let mut lists = Vec::with_capacity(alloc, 1)?;
        lists.push(ItemList::new(0, Vec::new(alloc)))?;
        Ok(LeafItems {
            leaf: Vec::new(alloc),
            lists,
            ready: Vec::new(alloc),
            rooms: 0,
        })
    }

    /// How many items were admitted: the number of the next one. Each is in a list, and each list was opened by then.
    pub fn admitted(&self) -> u32
        ensures number { result ≡ length self.now.leaf }
        ensures placed { All (λ list. list < length self.now.born) self.now.leaf }
        ensures early { All (λ born. born ≤ result) self.now.born }
    {
        self.leaf.len() as u32
    }

    /// How many lists were opened.
    pub fn lists(&self) -> u32
        ensures { result ≡ length self.now.born }
    {
        self.lists.len() as u32
    }

    /// The list in which an item now is.
    pub fn leaf(&self, item: u32) -> u32
        requires { item < length self.now.leaf }
        ensures list { slice_get self.now.leaf item ≡ Some result }
        ensures opened { result < length self.now.born }
    {
        self.leaf[item as usize]
    }

    /// How many items were admitted when a list was opened.
    pub fn born(&self, list: u32) -> u32
        requires { list < length self.now.born }
        ensures value { result ≡ born_of self.now list }
        ensures early { result ≤ length self.now.leaf }
    {
        self.lists[list as usize].born()
    }

    /// The items of a list, ascending.
    pub fn items(&self, list: u32) -> &[u32]
        requires { list < length self.now.born }
        ensures items { result.now ≡ items_of self.now list }
        ensures few { length result.now < 2 ^ 32 }
    {
        self.lists[list as usize].items()
    }

    /// How many items of a list have a number below a bound. It halves the list at each step.
    pub fn before(&self, list: u32, bound: u32) -> u32
        requires { list < length self.now.born }
        ensures { result ≡ before (items_of self.now list) bound }
    {
        let count = self.items(list).partition_point(
            |item: &u32| -> bool
                ensures { result ≡ nat_lt item.now bound }
            { *item < bound },
        );
        count as u32
    }

    /// How many items of a list were admitted before it was opened.
    pub fn owned(&self, list: u32) -> u32
        requires { list < length self.now.born }
        ensures { result ≡ owned self.now list }
    {
        self.before(list, self.born(list))
    }

    /// How many items of a list were admitted since it was opened.
    pub fn granted(&self, list: u32) -> u32
        requires { list < length self.now.born }
        ensures { result ≡ granted self.now list }
    {
        self.items(list).len() as u32 - self.owned(list)
    }

    /// Takes memory to admit an item in each of these lists, in this order, in place of what was ready before.
    pub fn reserve(&mut self, lists: &[u32]) -> Result<(), AllocError>
        requires { All (λ list. list < length self.old.born) lists.now }
        ensures ok { OnOk result (self.new ≡ record self.old { ready = lists.now }) }
        ensures err { OnErr result (self.new ≡ record self.old { ready = [] }) }
    {
        self.release();
        for list in lists {
            if self.want(*list).is_err() {
                self.release();
                return Err(AllocError);
            }
        }
        Ok(())
    }

    /// Lets go what was ready for an admission.
    pub fn release(&mut self)
        ensures { self.new ≡ record self.old { ready = [] } }
    {
        while let Some(list) = self.ready.pop() {
            let known = &mut self.lists[list as usize];
            known.unwant();
        }
    }

    // Takes memory to admit one item more, in this list.
    fn want(&mut self, list: u32) -> Result<(), AllocError>
        requires { list < length self.old.born }
        ensures ok { OnOk result (self.new ≡ record self.old { ready = self.old.ready ++ list ∷ [] }) }
        ensures err { OnErr result (self.new ≡ self.old) }
    {
        let count = self.ready.len() + 1;
        if self.leaf.len() + count > u32::MAX as usize {
            return Err(AllocError);
        }
        self.leaf.reserve(count)?;
        self.ready.reserve(1)?;
        let known = &mut self.lists[list as usize];
        known.want()?;
        self.ready.push(list)?;
        Ok(())
    }

    /// Admits an item in each of the lists that are ready, in their order. It takes no memory.
    pub fn admit_ready(&mut self)
        ensures { self.new ≡ with_ready self.old }
    {
        admit_all(&mut self.leaf, &mut self.lists, &self.ready);
        self.ready.clear();
    }

    /// Deals the items of a list to so many new lists: `aims` has for each of its items, ascending, the new list to which it
    /// goes, counted from the first of them. Nothing changes until the lists are opened.
    pub fn deal(
        &self,
        alloc: Global,
        list: u32,
        aims: &[u32],
        count: u32,
    ) -> Result<Parts, AllocError>
        requires opened { list < length self.now.born }
        requires many { length aims.now ≡ length (items_of self.now list) }
        requires within { All (λ aim. aim < count) aims.now }
        ensures aims { IfOk result (λ parts. (parts.list ≡ list) × (parts.aims ≡ aims.now) × (length parts.parts ≡ count)) }
        ensures dealt { IfOk result (λ parts. AreDealt self.now parts) }
    {
        let parts = parts_of(alloc, self.items(list), aims, count)?;
        Ok(Parts {
            list,
            aims: Vec::from_slice(alloc, aims)?,
            parts,
        })
    }

    /// Takes memory to open so many lists, in place of what was taken before.
    pub fn reserve_lists(&mut self, count: u32) -> Result<(), AllocError>
        ensures ok { OnOk result (self.new ≡ record self.old { rooms = count }) }
        ensures err { OnErr result (self.new ≡ self.old) }
    {
        if self.lists.len() + count as usize > u32::MAX as usize {
            return Err(AllocError);
        }
        self.lists.reserve(count as usize)?;
        self.rooms = count;
        Ok(())
    }

    /// Opens a list for each part of a list that was dealt, behind the others, and moves its items there. What was ready for
    /// an admission is let go. It takes no memory.
    pub fn open_lists(&mut self, parts: Parts)
        requires dealt { AreDealt self.old parts }
        requires rooms { length parts.parts ≤ self.old.rooms }
        ensures { self.new ≡ with_parts self.old parts }
    {
        self.release();
        let first = self.lists.len() as u32;
        let born = self.leaf.len() as u32;
        let Parts { list, aims, parts } = parts;
        let known = &mut self.lists[list as usize];
        move_items(&mut self.leaf, list, known.items(), &aims, first);
        known.empty();
        self.rooms -= parts.len() as u32;
        open_all(&mut self.lists, born, parts);
    }
}
