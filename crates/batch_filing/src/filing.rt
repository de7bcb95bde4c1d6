ghost use Rattle.std.specs.Prelude.{◌≡◌, ℕ, ◌+◌, ◌-◌, ◌^◌, ◌<◌, ◌≤◌, [], length, slice_index};
ghost use Rattle.list_machine.specs.Grants.{granted_in};
ghost use Rattle.list_words.specs.Filing.{answered};
ghost use Rattle.list_words.specs.declared.leaf_lists.Filed.{Filed};
ghost use Rattle.list_words.specs.declared.leaf_lists.Filed.TheVariants.{Late};
ghost use Rattle.list_words.specs.declared.leaf_lists.Seen.TheVariants.{Shut as SawShut};
ghost use Rattle.list_words.specs.declared.leaf_lists.Phase.TheVariants.{Shut};
ghost use Rattle.list_words.specs.Plain.{list_in, with_list};
ghost use Rattle.list_words.specs.PlainRows.{filed_list};
ghost use Rattle.batch_filing.specs.Filings.{FilingValue, IsFilerOf, next_item, next_list, one_tried, times};

use cube_math::Batch;
use list_words::{Answer, Filed, Filings, PlainFiler, PlainLists, SharedFiler};
use std::marker::Model;
use std::sync::ledger::Ledger;
use step_count::Steps;

/// A batch that was admitted, on its way into the lists of its leaves.
#[derive(Drop)]
pub struct Filing<F: Filings> {
    batch: Batch,
    first: u32,
    loader: u32,
    lists: Vec<u32>,
    tried: u32,
    filer: F,
}

impl<F: Filings> Model for Filing<F> {
    ghost use Rattle.std.specs.Prelude.{◌≡◌, length};
    ghost use Rattle.batch_filing.specs.Filings.{FilingValue, IsFilerOf};

    ghost Value = { FilingValue F };

    ghost view = { λ f. record { batch = f.batch; first = f.first; loader = f.loader; lists = f.lists.items; tried = f.tried; filer = f.filer } };

    ghost invariant = { λ f. (length f.lists.items ≡ length f.batch.points) × IsFilerOf f.first f.lists.items f.tried (F.filing f.filer) };
}

impl<F: Filings> Filing<F> {
    /// A filing of the batch, of which no item was tried. Its items have the numbers from `first` on, in the batch's order,
    /// each belongs in the list at its place in `lists`, and the filer may claim as many slots of a list as items belong there.
    pub fn new(batch: Batch, first: u32, loader: u32, lists: Vec<u32>, filer: F) -> Filing<F>
        requires each { length lists.items ≡ length batch.points }
        requires numbered { first + length batch.points < 2 ^ 32 }
        requires fresh { (F.filing filer).answers ≡ [] }
        requires granted { (list : ℕ) → granted_in list (F.filing filer).left ≡ times list lists.items }
        ensures { result ≡ record { batch = batch; first = first; loader = loader; lists = lists.items; tried = 0; filer = filer } }
    {
        Filing {
            batch,
            first,
            loader,
            lists,
            tried: 0,
            filer,
        }
    }

    /// The batch.
    pub fn batch(&self) -> &Batch
        ensures { result.now ≡ self.now.batch }
    {
        &self.batch
    }

    /// The number of the batch's first item. The others follow in the batch's order.
    pub fn first(&self) -> u32
        ensures { result ≡ self.now.first }
    {
        self.first
    }

    /// The loader that brought the batch.
    pub fn loader(&self) -> u32
        ensures { result ≡ self.now.loader }
    {
        self.loader
    }

    /// For each item, in the batch's order, the list in which it is filed: that of its leaf at the admission.
    pub fn lists(&self) -> &[u32]
        ensures value { result.now ≡ self.now.lists }
        ensures each { length result.now ≡ length self.now.batch.points }
    {
        self.lists.as_slice()
    }

    /// How many items were not tried yet.
    pub fn left(&self) -> u32
        ensures left { result + self.now.tried ≡ length self.now.batch.points }
    {
        self.lists.len() as u32 - self.tried
    }

    /// The answers to the filings so far, those of the first items in order.
    pub fn answers(&self) -> &[Answer]
        ensures value { result.now ≡ (F.filing self.now.filer).answers }
        ensures kept { IsFilerOf self.now.first self.now.lists self.now.tried (F.filing self.now.filer) }
    {
        self.filer.answers()
    }

    /// What files the items.
    pub fn filer(&self) -> &F
        ensures { result.now ≡ self.now.filer }
    {
        &self.filer
    }

    /// The batch and what filed its items.
    pub fn into_parts(self) -> (Batch, F)
        ensures batch { result.0 ≡ self.batch }
        ensures filer { result.1 ≡ self.filer }
    {
        let Filing { batch, filer, .. } = self;
        (batch, filer)
    }
}

impl<F: SharedFiler> Filing<F> {
    ghost use Rattle.std.specs.Prelude.{ℕ};
    ghost use Rattle.list_words.specs.declared.leaf_lists.Filed.{Filed};

    /// Files the next item in its list, and tells where it stands, or that its list was shut before it came to stand: then
    /// its leaf was split since the admission. It waits for nobody and takes no memory.
    ///
    /// Its steps are those of the one filing.
    pub fn file_next<L: Ledger>(&mut self, lists: &F::Lists, steps: &mut Steps<L>) -> Filed
        requires name { (F.filing self.old.filer).name ≡ F.Lists.name lists.now }
        requires left { self.old.tried < length self.old.batch.points }
        ensures next { self.new ≡ one_tried self.old self.new.filer }
        ensures answered { F.filing self.new.filer ≡ answered (F.filing self.old.filer) (next_list self.old) (next_item self.old) result }
        ensures shown { F.shows self.new.filer (next_list self.old) (next_item self.old) result }
        ensures kept { (l x : ℕ) (filed : Filed) → F.shows self.old.filer l x filed → F.shows self.new.filer l x filed }
        ensures rises { F.walked self.old.filer ≤ F.walked self.new.filer }
        ensures most { F.walked self.new.filer ≤ F.Lists.chunks lists.now }
        ensures counts { steps.old ≤ steps.new }
        ensures steps { steps.new + F.walked self.old.filer ≤ steps.old + 2 + F.walked self.new.filer }
    {
        let list = self.lists[self.tried as usize];
        let item = self.first + self.tried;
        let filed = self.filer.file(lists, list, item, steps);
        self.tried += 1;
        filed
    }
}

impl Filing<PlainFiler> {
    /// Files the next item in its list, among lists of one thread.
    pub fn file_plain(&mut self, lists: &mut PlainLists) -> Filed
        requires left { self.old.tried < length self.old.batch.points }
        requires room { ((list_in lists.old.lists (next_list self.old)).phase ≡ Shut → ⊥)
            → length (list_in lists.old.lists (next_list self.old)).filed < (list_in lists.old.lists (next_list self.old)).granted }
        ensures next { self.new ≡ one_tried self.old (answered self.old.filer (next_list self.old) (next_item self.old) result) }
        ensures late { (list_in lists.old.lists (next_list self.old)).phase ≡ Shut → (result ≡ Late SawShut) × (lists.new ≡ lists.old) }
        ensures filed { ((list_in lists.old.lists (next_list self.old)).phase ≡ Shut → ⊥)
            → lists.new ≡ with_list lists.old (next_list self.old) (filed_list (list_in lists.old.lists (next_list self.old)) (next_item self.old)) }
    {
        let list = self.lists[self.tried as usize];
        let item = self.first + self.tried;
        let filed = lists.file(&mut self.filer, list, item);
        self.tried += 1;
        filed
    }
}
