//! In which list each item is.
ghost use Rattle.std.specs.Prelude.{◌≡◌, true, false, None, Some, IfOk, filter, is_some, length, replicate, slice_get, slice_set};

use std::alloc::{AllocError, Global};

/// In which list each item was found, if it was found, and whether one was found twice or is none of the items.
#[derive(Drop)]
pub struct Homes {
    pub lists: Vec<Option<u32>>,
    pub astray: bool,
}

impl Homes {
    /// No item was found yet of the items below `items`.
    pub fn new(alloc: Global, items: u32) -> Result<Homes, AllocError>
        ensures lists { IfOk result (λ h. h.lists.items ≡ replicate items None) }
        ensures astray { IfOk result (λ h. h.astray ≡ false) }
    {
        let lists = vec![in alloc; None; items as usize]?;
        Ok(Homes {
            lists,
            astray: false,
        })
    }

    /// The item was found in the list.
    pub fn note(&mut self, item: u32, list: u32)
        ensures first { slice_get self.old.lists.items item ≡ Some None → (self.new.lists.items ≡ slice_set self.old.lists.items item (Some list)) × (self.new.astray ≡ self.old.astray) }
        ensures again { (slice_get self.old.lists.items item ≡ Some None → ⊥) → (self.new.lists.items ≡ self.old.lists.items) × (self.new.astray ≡ true) }
    {
        let item = item as usize;
        if self.lists.get(item) == Some(&None) {
            self.lists[item] = Some(list);
        } else {
            self.astray = true;
        }
    }

    /// How many items were found.
    pub fn count(&self) -> usize
        ensures { result ≡ length (filter is_some self.now.lists.items) }
    {
        self.lists.iter().filter(|home| home.is_some()).count()
    }
}
