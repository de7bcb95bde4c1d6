//! Cursors: where a filer stands in the claimed chain of a list.
ghost use Rattle.std.specs.Prelude.{◌≡◌, ℕ, ◌+◌, ◌^◌, ◌<◌, ◌≤◌, ◌≢◌, [], ◌++◌, ◌∷◌, map, length, vec_len, AllPairs, MatchOption, Some};
ghost use Rattle.std.specs.Vec.{vec_capacity};
ghost use Rattle.std.specs.List.Sorted.{IsPermutation};
ghost use Rattle.list_machine.specs.declared.views.Grant.{Grant};
ghost use Rattle.list_machine.specs.Facts.{IsAt};
ghost use Rattle.list_filers.specs.Cursors.{AreSorted, HasCursor, next_rank, chunk_of, fresh_cursor};
ghost use Rattle.list_filers.specs.declared.cursors.Cursor.{Cursor};

use list_machine::Grant;
use list_words::push_within;

/// A chunk in the claimed chain of a list.
#[derive(Clone, Copy, Debug, PartialEq, Eq)]
pub(crate) struct Reached {
    pub(crate) rank: u32,
    pub(crate) chunk: u32,
}

/// A list, and the chunk of its claimed chain that the filer has reached, if it has walked any link there.
#[derive(Clone, Copy, Debug, PartialEq, Eq)]
pub(crate) struct Cursor {
    pub(crate) list: u32,
    pub(crate) reached: Option<Reached>,
}

impl Cursor {
    /// The chunk of this rank, if the cursor stands there.
    pub(crate) fn chunk_at(self, rank: u64) -> Option<u32>
        requires not_past { next_rank self.reached ≤ rank + 1 }
        ensures { MatchOption result (next_rank self.reached ≤ rank) (λ c. self.reached ≡ Some record { rank = rank; chunk = c }) }
    {
        let reached = self.reached?;
        (u64::from(reached.rank) == rank).then_some(reached.chunk)
    }

    /// The rank to which the next link leads.
    pub(crate) fn next_rank(self) -> u32
        requires fits { next_rank self.reached < 2 ^ 32 }
        ensures { result ≡ next_rank self.reached }
    {
        match self.reached {
            None => 0,
            Some(reached) => reached.rank + 1,
        }
    }

    /// The chunk behind which that link is, if not behind the list itself.
    pub(crate) fn behind(self) -> Option<u32>
        ensures { result ≡ chunk_of self.reached }
    {
        let reached = self.reached?;
        Some(reached.chunk)
    }
}

/// The place of the list's cursor, which the guess may be already.
pub(crate) fn find_by(cursors: &[Cursor], guess: usize, list: u32) -> usize
    requires sorted { AreSorted cursors.now }
    requires there { HasCursor cursors.now list }
    ensures { (a : Cursor) × IsAt cursors.now result a × (a.list ≡ list) }
{
    if guess < cursors.len() && cursors[guess].list == list {
        guess
    } else {
        find(cursors, list)
    }
}

/// The place of the list's cursor, by halving.
fn find(cursors: &[Cursor], list: u32) -> usize
    requires sorted { AreSorted cursors.now }
    requires there { HasCursor cursors.now list }
    ensures { (a : Cursor) × IsAt cursors.now result a × (a.list ≡ list) }
{
    let mut low = 0;
    let mut high = cursors.len();
    while low < high {
        let middle = low + (high - low) / 2;
        if cursors[middle].list < list {
            low = middle + 1;
        } else {
            high = middle;
        }
    }
    low
}

/// The cursors of the lists of grants, sorted by list. It takes no memory.
pub(crate) fn start(cursors: &mut Vec<Cursor>, grants: &[Grant])
    requires none { cursors.old.items ≡ [] }
    requires room { length grants.now ≤ vec_capacity cursors.old }
    requires apart { AllPairs (λ (a b : Grant). a.list ≢ b.list) grants.now }
    ensures cursors { IsPermutation (map fresh_cursor grants.now) cursors.new.items }
    ensures sorted { AreSorted cursors.new.items }
{
    for grant in grants {
        let cursor = Cursor {
            list: grant.list,
            reached: None,
        };
        push_within(cursors, cursor);
    }
    cursors.sort_unstable_by_key(|cursor| cursor.list);
}
