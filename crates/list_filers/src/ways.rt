//! A filer's seat, and its ways in the claimed chains of its lists: it walks on from where it stands, and never
//! from the first link again.
ghost use Rattle.std.specs.Prelude.{◌≡◌, ℕ, suc, ◌+◌, ◌*◌, ◌/◌, ◌%◌, ◌^◌, ◌<◌, ◌≤◌, length, None, All};
ghost use Rattle.list_machine.specs.Grants.{granted_in};
ghost use Rattle.list_machine.specs.Facts.{IsAt};
ghost use Rattle.list_machine.specs.Steps.{KnowsChunk};
ghost use Rattle.list_machine.specs.declared.views.Unfiled.TheVariants.{Nothing, Place};
ghost use Rattle.list_table.specs.GuestMoves.{IsAfterClaim, MayFile, after_file};
ghost use Rattle.list_filers.specs.Cursors.{AreSorted, HasCursor, next_rank, cursor_at};
ghost use Rattle.list_filers.specs.Ways.{at_start, Stands, IsReady, IsShort, answer_of, HasReached, HasFiled, after_link, ways_with};
ghost use Rattle.list_filers.specs.declared.cursors.Cursor.{Cursor};

use crate::cursors::{Cursor, Reached, find_by};
use list_machine::Claimed;
use list_table::{GuestSeat, SharedLists};
use list_words::{Filed, Seen};
use std::marker::Model;
use std::snapshot::Snapshot;
use std::sync::ledger::Ledger;
use step_count::Steps;

/// How many slots a chunk has.
const SLOTS: u64 = 256;

/// How many places of cursors are kept at hand.
const HINTS: usize = 256;

/// A filer on its ways. The places of cursors that were found last are kept at hand by the low bits of their lists:
/// each is a guess, which is tried before the cursors are searched.
#[derive(Drop)]
pub(crate) struct Ways {
    pub(crate) lists: Snapshot<SharedLists>,
    pub(crate) seat: GuestSeat,
    pub(crate) cursors: Vec<Cursor>,
    pub(crate) walked: u32,
    pub(crate) hints: [usize; HINTS],
}

impl Model for Ways {
    ghost use Rattle.std.specs.Prelude.{◌≡◌};
    ghost use Rattle.list_filers.specs.Ways.{WaysValue, AreWalked};

    ghost Value = { WaysValue };

    ghost view = { λ w. record { lists = w.lists.value; guest = w.seat.guest; cursors = w.cursors.items; walked = w.walked } };

    ghost invariant = { λ w. (w.seat.name ≡ w.lists.value.name) × AreWalked w.lists.value.lists w.lists.value.chunks w.seat.guest w.cursors.items w.walked };
}

impl Ways {
    /// The ways of a guest of the lists, from the cursors of the lists of its grants.
    pub(crate) fn new(lists: &SharedLists, seat: GuestSeat, cursors: Vec<Cursor>) -> Ways
        requires name { seat.name ≡ lists.now.name }
        requires sorted { AreSorted cursors.items }
        requires fresh { All (λ (a : Cursor). (a.reached ≡ None) × (a.list < lists.now.lists)) cursors.items }
        ensures { result ≡ at_start lists.now seat.guest cursors.items }
    {
        Ways {
            lists: Snapshot::of(lists),
            seat,
            cursors,
            walked: 0,
            hints: [0; HINTS],
        }
    }

    /// The seat, of which the name is the one of its lists.
    pub(crate) fn into_seat(self) -> GuestSeat
        ensures { result ≡ record { name = self.lists.name; guest = self.guest } }
    {
        let Ways { seat, .. } = self;
        seat
    }

    /// A law: no more links are walked than there are chunks.
    pub(crate) fn walks_are_short(&self)
        ensures { self.now.walked ≤ self.now.lists.chunks }
    {
        let _ = &self.walked;
    }

    /// The place of the list's cursor.
    fn find(&self, list: u32) -> usize
        requires there { HasCursor self.now.cursors list }
        ensures { (a : Cursor) × IsAt self.now.cursors result a × (a.list ≡ list) × Stands self.now.lists.chunks self.now.guest self.now.walked a.list a.reached }
    {
        find_by(&self.cursors, self.hints[list as usize % HINTS], list)
    }

    /// Keeps the place of the list's cursor at hand.
    fn remember(&mut self, list: u32, at: usize)
        ensures { self.new ≡ self.old }
    {
        self.hints[list as usize % HINTS] = at;
    }

    /// Claims the next place of the list.
    fn claim<L: Ledger>(&mut self, lists: &SharedLists, list: u32, steps: &mut Steps<L>) -> Claimed
        requires lists { self.old.lists ≡ lists.now }
        requires list { HasCursor self.old.cursors list }
        requires idle { self.old.guest.claim ≡ Nothing }
        requires granted { 0 < granted_in list self.old.guest.grants }
        ensures rest { self.new ≡ ways_with self.old self.new.guest }
        ensures claimed { IsAfterClaim self.old.guest self.new.guest list result }
        ensures steps { steps.new ≡ steps.old + 1 }
    {
        steps.tick();
        lists.claim(&mut self.seat, list)
    }

    /// The cursor at a place.
    fn cursor(&self, at: usize) -> Cursor
        requires within { at < length self.now.cursors }
        ensures { IsAt self.now.cursors at result }
    {
        self.cursors[at]
    }

    /// Follows the link behind a cursor, on the way to the place that is claimed. The answer is where it stands then.
    fn advance<L: Ledger>(
        &mut self,
        lists: &SharedLists,
        at: usize,
        cursor: Cursor,
        steps: &mut Steps<L>,
    ) -> Cursor
        requires lists { self.old.lists ≡ lists.now }
        requires cursor { IsAt self.old.cursors at cursor }
        requires way { IsShort self.old.guest cursor }
        ensures moved { (c : ℕ) × (result ≡ cursor_at cursor.list (next_rank cursor.reached) c) × (self.new ≡ after_link self.old at cursor c) }
        ensures steps { steps.new ≡ steps.old + 1 }
    {
        steps.tick();
        let walked = self.walked;
        let rank = cursor.next_rank();
        let chunk = lists.follow(&mut self.seat, cursor.list, cursor.behind(), rank);
        let next = Cursor {
            list: cursor.list,
            reached: Some(Reached { rank, chunk }),
        };
        self.cursors[at] = next;
        self.seat.walks_are_short();
        self.walked = one_more(walked, lists.chunks());
        next
    }

    /// Walks to the chunk of the place that is claimed.
    fn go<L: Ledger>(
        &mut self,
        lists: &SharedLists,
        at: usize,
        place: u64,
        steps: &mut Steps<L>,
    ) -> u32
        requires lists { self.old.lists ≡ lists.now }
        requires cursor { (a : Cursor) × IsAt self.old.cursors at a × (self.old.guest.claim ≡ Place a.list place) × (next_rank a.reached ≤ place / 256 + 1) }
        ensures reached { HasReached self.old self.new at (place / 256) result }
        ensures rises { self.old.walked ≤ self.new.walked }
        ensures steps { steps.new + self.old.walked ≡ steps.old + self.new.walked }
    {
        let rank = place / SLOTS;
        let mut cursor = self.cursor(at);
        loop {
            if let Some(chunk) = cursor.chunk_at(rank) {
                return chunk;
            }
            cursor = self.advance(lists, at, cursor, steps);
        }
    }

    /// Files the item at the place that is claimed, in the chunk where a cursor of the list stands. The answer is
    /// whether it stands there; else the slot had been marked as moved.
    fn put<L: Ledger>(
        &mut self,
        lists: &SharedLists,
        list: u32,
        place: u64,
        chunk: u32,
        item: u32,
        steps: &mut Steps<L>,
    ) -> bool
        requires lists { self.old.lists ≡ lists.now }
        requires claimed { self.old.guest.claim ≡ Place list place }
        requires cursor { (i : ℕ) × IsAt self.old.cursors i (cursor_at list (place / 256) chunk) }
        ensures filed { self.new ≡ ways_with self.old (after_file self.old.guest list chunk (place % 256) item result) }
        ensures known { KnowsChunk self.new.guest list (place / 256) chunk }
        ensures steps { steps.new ≡ steps.old + 1 }
    {
        steps.tick();
        lists.file(&mut self.seat, list, place, chunk, item)
    }

    /// Claims the next place of the list, walks there, and files the item.
    pub(crate) fn file<L: Ledger>(
        &mut self,
        lists: &SharedLists,
        list: u32,
        item: u32,
        steps: &mut Steps<L>,
    ) -> Filed
        requires lists { self.old.lists ≡ lists.now }
        requires ready { IsReady self.old.guest self.old.cursors }
        requires granted { 0 < granted_in list self.old.guest.grants }
        ensures filed { HasFiled self.old self.new list item result }
        ensures rises { self.old.walked ≤ self.new.walked }
        ensures most { self.new.walked ≤ self.new.lists.chunks }
        ensures counts { steps.old ≤ steps.new }
        ensures steps { steps.new + self.old.walked ≤ steps.old + 2 + self.new.walked }
    {
        let at = self.find(list);
        self.remember(list, at);
        self.file_at(lists, at, list, item, steps)
    }

    /// The same, with the place of the list's cursor.
    fn file_at<L: Ledger>(
        &mut self,
        lists: &SharedLists,
        at: usize,
        list: u32,
        item: u32,
        steps: &mut Steps<L>,
    ) -> Filed
        requires lists { self.old.lists ≡ lists.now }
        requires ready { IsReady self.old.guest self.old.cursors }
        requires granted { 0 < granted_in list self.old.guest.grants }
        requires cursor { (a : Cursor) × IsAt self.old.cursors at a × (a.list ≡ list) × Stands self.old.lists.chunks self.old.guest self.old.walked a.list a.reached }
        ensures filed { HasFiled self.old self.new list item result }
        ensures rises { self.old.walked ≤ self.new.walked }
        ensures most { self.new.walked ≤ self.new.lists.chunks }
        ensures counts { steps.old ≤ steps.new }
        ensures steps { steps.new + self.old.walked ≤ steps.old + 2 + self.new.walked }
    {
        let Claimed::Index(place) = self.claim(lists, list, steps) else {
            self.walks_are_short();
            return Filed::Late { seen: Seen::Shut };
        };
        let chunk = self.go(lists, at, place, steps);
        let stands = self.put(lists, list, place, chunk, item, steps);
        self.walks_are_short();
        answer(stands, chunk, (place % SLOTS) as u32)
    }
}

/// What a filing answers that had this slot.
fn answer(stands: bool, chunk: u32, slot: u32) -> Filed
    ensures { result ≡ answer_of stands chunk slot }
{
    if stands {
        Filed::At { chunk, slot }
    } else {
        Filed::Late {
            seen: Seen::Moved { chunk, slot },
        }
    }
}

/// One more link, of which there is one for each chunk.
fn one_more(walked: u32, chunks: u32) -> u32
    requires { walked < chunks }
    ensures { result ≡ walked + 1 }
{
    let _chunks = chunks;
    walked + 1
}
