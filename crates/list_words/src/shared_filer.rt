ghost use Rattle.std.specs.Prelude.{◌≡◌, ℕ, ◌+◌, ◌<◌, ◌≤◌};
ghost use Rattle.list_words.specs.declared.leaf_lists.Filed.{Filed};
ghost use Rattle.list_words.specs.Filing.{HasGrant, answered};

use crate::{Filed, Filings};
use std::sync::ledger::Ledger;
use step_count::Steps;

/// Lists that filers share, as contracts see them.
pub trait ListsOf {
    ghost use Rattle.std.specs.Prelude.{ℕ, List};

    // the name that their filers have too
    ghost name: { Self → List ℕ };

    // how many chunks they have
    ghost chunks: { Self → ℕ };
}

/// A filer of lists that are shared: it files while others file, and waits for nobody.
pub trait SharedFiler: Filings {
    ghost use Rattle.std.specs.Prelude.{ℕ};
    ghost use Rattle.list_words.specs.declared.leaf_lists.Filed.{Filed};

    /// The lists.
    type Lists: ListsOf;

    // how many links it has walked
    ghost walked: { Self → ℕ };

    // What the filer knows bears the answer out that a filing of the item in the list had: after `At` that the item
    // stands in that slot, after `Shut` that the list is shut, and after `Moved` that the slot was marked while it
    // was empty.
    ghost shows: { Self → ℕ → ℕ → Filed → Type 0 };

    /// Claims the next slot of the list and files the item there. It uses one grant of the list.
    ///
    /// One step is one claim, one load of a link or one filing.
    fn file<L: Ledger>(
        &mut self,
        lists: &Self::Lists,
        list: u32,
        item: u32,
        steps: &mut Steps<L>,
    ) -> Filed
        requires name { (Self.filing self.old).name ≡ Self.Lists.name lists.now }
        requires granted { HasGrant (Self.filing self.old) list }
        ensures answered { Self.filing self.new ≡ answered (Self.filing self.old) list item result }
        ensures shown { shows self.new list item result }
        ensures kept { (l x : ℕ) (filed : Filed) → shows self.old l x filed → shows self.new l x filed }
        ensures rises { walked self.old ≤ walked self.new }
        ensures most { walked self.new ≤ Self.Lists.chunks lists.now }
        ensures counts { steps.old ≤ steps.new }
        ensures steps { steps.new + walked self.old ≤ steps.old + 2 + walked self.new };
}
