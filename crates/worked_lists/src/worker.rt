//! Workers: each files items in lists that its dice choose.
ghost use Rattle.std.specs.Prelude.{◌≡◌, ℕ, ◌<◌, ◌≤◌, ◌^◌, length, slice_index, IfNone, IfSome};
ghost use Rattle.list_filers.specs.Filers.{shared_name};
ghost use Rattle.worked_lists.specs.Workers.{AreLeft};

use chunk_lists::{Filer, Lists};
use dice::Dice;
use list_words::{Answer, Filings, SharedFiler};
use std::alloc::{AllocError, Global};
use std::marker::{Brand, Model};
use std::sync::ledger::{Blank, Ledger};
use step_count::Steps;

/// A filer with the items that it files, and how many places it has left in each list.
#[derive(Drop)]
pub struct Worker {
    filer: Filer,
    left: Vec<u32>,
    dice: Dice,
    first: u32,
    end: u32,
}

impl Model for Worker {
    ghost use Rattle.list_words.specs.Filing.{Filing};
    ghost use Rattle.worked_lists.specs.Workers.{AreLeft};

    ghost Value = { Filing };

    ghost view = { λ w. w.filer.filing };

    ghost invariant = { λ w. AreLeft w.left.items w.filer.filing.left };
}

impl Worker {
    /// A worker with this filer, which has so many places in each of the lists, for the items from `first` on and below
    /// `end`.
    pub fn new(filer: Filer, left: Vec<u32>, dice: Dice, first: u32, end: u32) -> Worker
        requires { AreLeft left.items filer.filing.left }
        ensures { result ≡ filer.filing }
    {
        Worker {
            filer,
            left,
            dice,
            first,
            end,
        }
    }

    /// Files its items, as long as it has a place left.
    pub fn work(self, lists: &Lists) -> Worker
        requires { self.name ≡ shared_name lists.now }
        ensures { result.name ≡ self.name }
    {
        self.work_counted::<Brand>(lists, Blank::new(1))
    }

    /// Files its items, and counts the steps.
    fn work_counted<L: Ledger>(self, lists: &Lists, blank: Blank) -> Worker
        requires name { self.name ≡ shared_name lists.now }
        requires blank { (blank.name ≡ L.name) × (blank.parts ≡ L.parts) × (0 < blank.parts) }
        ensures { result.name ≡ self.name }
    {
        let mut steps: Steps<L> = Steps::new(blank);
        let mut worker = self;
        for item in worker.first..worker.end {
            if !worker.file(lists, item, &mut steps) {
                break;
            }
        }
        worker
    }

    /// Files an item in a list that the dice choose, or in the next one after it in which a place is left. Says whether
    /// there is one.
    fn file<L: Ledger>(&mut self, lists: &Lists, item: u32, steps: &mut Steps<L>) -> bool
        requires { self.old.name ≡ shared_name lists.now }
        ensures { self.new.name ≡ self.old.name }
    {
        let Some(list) = choose(&mut self.dice, &self.left) else {
            return false;
        };
        self.left[list as usize] -= 1;
        self.filer.file(lists, list, item, steps);
        true
    }

    /// What its filings answered.
    pub fn answers(&self) -> &[Answer]
        ensures { result.now ≡ self.now.answers }
    {
        self.filer.answers()
    }

    /// Its filer.
    pub fn into_filer(self) -> Filer
        ensures { result.filing ≡ self }
    {
        let Worker { filer, .. } = self;
        filer
    }
}

/// A list in which places are left: the one that the dice choose, or the next after it.
fn choose(dice: &mut Dice, left: &[u32]) -> Option<u32>
    ensures some { IfSome result (λ list. (list < length left.now) × (0 < slice_index left.now list)) }
    ensures none { length left.now < 2 ^ 32 → IfNone result ((l : ℕ) → l < length left.now → slice_index left.now l ≡ 0) }
{
    let count = u32::try_from(left.len()).ok()?;
    if count == 0 {
        return None;
    }
    let chosen = dice.below(count as usize) as u32;
    if let Some(list) = first_left(left, chosen, count) {
        return Some(list);
    }
    first_left(left, 0, chosen)
}

/// The first list from one on and below another in which places are left.
fn first_left(left: &[u32], from: u32, end: u32) -> Option<u32>
    requires order { from ≤ end }
    requires end { end ≤ length left.now }
    ensures some { IfSome result (λ list. (list < length left.now) × (0 < slice_index left.now list)) }
    ensures none { IfNone result ((l : ℕ) → from ≤ l → l < end → slice_index left.now l ≡ 0) }
{
    for list in from..end {
        if left[list as usize] > 0 {
            return Some(list);
        }
    }
    None
}
