ghost use Rattle.std.specs.Prelude.{◌≡◌, ◌≢◌, [], ◌∷◌};
ghost use Rattle.list_words.specs.Plain.{store_of};
ghost use Rattle.list_words.specs.Store.{MayAdmit};

use crate::{Filed, Grant, LeafLists, PlainFiler, PlainLists};

/// A filer that is out, and what is left of its two grants.
#[derive(Drop)]
pub struct Held {
    filer: PlainFiler,
    first: Grant,
    second: Grant,
    ghost name: { filer.name ≡ [] },
    ghost left: { filer.left ≡ first ∷ second ∷ [] },
    ghost apart: { first.list ≢ second.list },
}

impl Held {
    pub fn new(lists: &mut PlainLists, first: Grant, second: Grant) -> Held
        requires may { MayAdmit (store_of lists.old) (first ∷ second ∷ []) }
        requires apart { first.list ≢ second.list }
    {
        Held {
            filer: lists.admit(&[first, second]),
            first,
            second,
        }
    }

    pub fn birth(&self) -> u32 {
        self.filer.birth()
    }

    /// Files an item by the first grant, and answers the list too. None where nothing is left of the grant.
    pub fn file_first(&mut self, lists: &mut PlainLists, item: u32) -> Option<(u32, Filed)> {
        let list = self.first.list;
        if self.first.n == 0 || !lists.may_file(list) {
            return None;
        }
        let filed = lists.file(&mut self.filer, list, item);
        self.first.n -= 1;
        Some((list, filed))
    }

    /// Files an item by the second grant, and answers the list too. None where nothing is left of the grant.
    pub fn file_second(&mut self, lists: &mut PlainLists, item: u32) -> Option<(u32, Filed)> {
        let list = self.second.list;
        if self.second.n == 0 || !lists.may_file(list) {
            return None;
        }
        let filed = lists.file(&mut self.filer, list, item);
        self.second.n -= 1;
        Some((list, filed))
    }

    /// Gives the filer back, if the lists vouch for it. Answers whether they did.
    pub fn take_back(self, lists: &mut PlainLists) -> bool {
        if !lists.vouches(&self.filer) {
            return false;
        }
        lists.take_back(self.filer);
        true
    }
}
