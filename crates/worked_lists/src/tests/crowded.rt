//! Many filers in threads, while the owner sweeps.
ghost use Rattle.std.specs.Prelude.{◌≡◌, All, IfOk, length};
ghost use Rattle.list_filers.specs.Filers.{shared_name};
ghost use Rattle.chunk_lists.specs.Knives.{lists_of, seat_of};
ghost use Rattle.worked_lists.specs.Layouts.{ArePlots};

use super::hiring::hired;
use crate::{Crew, Homes, Owner, Worker, file_at_once, note_standing, sweep_lists};
use chunk_lists::{Knife, Lists, Reader};
use list_words::{Answer, Filed, LeafLists};
use std::alloc::{AllocError, Global};
use std::sync::Arc;
use std::test::Fail;
use std::thread;
use std::thread::Threads;

const CREW: Crew = Crew {
    lists: 40,
    places: 640,
    workers: 4,
    first: 0,
    share: 25_000,
    seed: 0,
};

/// How many chunks each list has.
const CHUNKS: u32 = 10;

/// How many items are filed in all.
const ITEMS: u32 = 100_000;

/// So many lists are swept before anybody files.
const EARLY: u32 = 1;

/// And so many before all have filed.
const SWEPT: u32 = 20;

/// What came of the items.
#[derive(Clone, Copy, Debug, PartialEq, Eq)]
struct Outcome {
    /// Whether each item that came back filed was found in its list, once, by a sweep or a reader at the end, and no
    /// other was.
    agrees: bool,
    /// How many were filed or came late.
    answered: usize,
    /// Whether some came late.
    some_late: bool,
    /// How many chunks are held and free at the end.
    chunks: (u32, u32),
    /// How many seats are out then.
    seats: u64,
}

/// Notes where the items were filed by their answers. Gives how many came late.
fn note_answers(filed: &mut Homes, answers: &[Answer]) -> usize {
    let mut late = 0usize;
    for answer in answers {
        match answer.filed {
            Filed::At { .. } => filed.note(answer.item, answer.list),
            Filed::Late { .. } if answer.list < SWEPT => late = late.saturating_add(1),
            Filed::Late { .. } => filed.astray = true,
        }
    }
    late
}

/// Takes the workers' filers back.
fn dismiss(knife: &mut Knife, workers: Vec<Worker>, filed: &mut Homes) -> usize
    requires { All (λ w. w.name ≡ (lists_of knife.old).name) workers.items }
{
    let mut late = 0usize;
    let mut workers = workers;
    for _worker in 0..workers.len() {
        let Some(worker) = workers.pop() else {
            break;
        };
        late = late.saturating_add(note_answers(filed, worker.answers()));
        knife.take_back(worker.into_filer());
    }
    late
}

/// Sweeps lists while the workers file.
fn sweep_and_file<R: Threads + Sync>(
    rt: &R,
    alloc: Global,
    lists: &Lists,
    owner: Owner,
    workers: Vec<Worker>,
) -> Result<(Owner, Vec<Worker>), AllocError>
    requires rows { length (lists_of owner.knife).rows ≡ 40 }
    requires plots { ArePlots (lists_of owner.knife) 1 10 }
    requires reader { owner.reader.name ≡ lists.now.name }
    requires workers { All (λ w. w.name ≡ shared_name lists.now) workers.items }
    ensures rows { IfOk result (λ r. length (lists_of r.0.knife).rows ≡ 40) }
    ensures name { IfOk result (λ r. (lists_of r.0.knife).name ≡ (lists_of owner.knife).name) }
    ensures reader { IfOk result (λ r. r.0.reader ≡ owner.reader) }
    ensures workers { IfOk result (λ r. All (λ w. w.name ≡ shared_name lists.now) r.1.items) }
{
    let (owner, workers) = thread::join(
        rt,
        move ||
            requires { (length (lists_of owner.knife).rows ≡ 40) × ArePlots (lists_of owner.knife) 1 10 × (owner.reader.name ≡ lists.now.name) }
            ensures { IfOk result (λ o. (length (lists_of o.knife).rows ≡ 40) × ((lists_of o.knife).name ≡ (lists_of owner.knife).name) × (o.reader ≡ owner.reader)) }
        { sweep_lists(alloc, owner, lists, EARLY, SWEPT, CHUNKS) },
        move ||
            requires { All (λ w. w.name ≡ shared_name lists.now) workers.items }
            ensures { IfOk result (λ back. All (λ w. w.name ≡ shared_name lists.entry.now) back.items) }
        { file_at_once(rt, lists, workers) },
    );
    Ok((owner?, workers?))
}

/// Lays the lists out, hires the workers of a seed, and sweeps the first lists.
fn begin(alloc: Global, seed: u64) -> Result<(Arc<Lists, Global>, Owner, Vec<Worker>), AllocError>
    ensures rows { IfOk result (λ r. length (lists_of r.1.knife).rows ≡ 40) }
    ensures plots { IfOk result (λ r. ArePlots (lists_of r.1.knife) 1 10) }
    ensures name { IfOk result (λ r. (lists_of r.1.knife).name ≡ shared_name r.0.value) }
    ensures reader { IfOk result (λ r. r.1.reader.name ≡ r.0.value.name) }
    ensures workers { IfOk result (λ r. All (λ w. w.name ≡ shared_name r.0.value) r.2.items) }
{
    let (lists, owner, workers) = hired(alloc, Crew { seed, ..CREW }, CHUNKS, ITEMS)?;
    let owner = sweep_lists(alloc, owner, &lists, 0, EARLY, CHUNKS)?;
    Ok((lists, owner, workers))
}

/// Takes the reader and the workers' filers back, and clears the lists. Tells how many items came late, how many chunks
/// are held and free then, and how many seats are out.
fn give_back(
    knife: Knife,
    reader: Reader,
    workers: Vec<Worker>,
    filed: &mut Homes,
) -> (usize, (u32, u32), u64)
    requires reader { (seat_of reader).name ≡ (lists_of knife).name }
    requires workers { All (λ w. w.name ≡ (lists_of knife).name) workers.items }
{
    let mut knife = knife;
    knife.unpin(reader);
    let late = dismiss(&mut knife, workers, filed);
    knife.reclaim();
    (late, (knife.held(), knife.free()), knife.seats_out())
}

/// Notes what stands in the lists that were not swept, and compares all that was found with the answers.
fn compare(
    alloc: Global,
    lists: &Lists,
    owner: Owner,
    workers: Vec<Worker>,
) -> Result<Outcome, AllocError>
    requires rows { length (lists_of owner.knife).rows ≡ 40 }
    requires name { (lists_of owner.knife).name ≡ shared_name lists.now }
    requires reader { owner.reader.name ≡ lists.now.name }
    requires workers { All (λ w. w.name ≡ shared_name lists.now) workers.items }
{
    let mut owner = owner;
    note_standing(&mut owner, lists, SWEPT, CREW.lists);
    let Owner {
        knife,
        reader,
        homes: found,
    } = owner;
    let mut filed = Homes::new(alloc, ITEMS)?;
    let (late, chunks, seats) = give_back(knife, reader, workers, &mut filed);
    Ok(Outcome {
        agrees: !filed.astray && !found.astray && filed.lists == found.lists,
        answered: filed.count().saturating_add(late),
        some_late: late > 0,
        chunks,
        seats,
    })
}

/// Files all items under a seed, and sweeps half of the lists meanwhile.
fn file_and_sweep<R: Threads + Sync>(
    rt: &R,
    alloc: Global,
    seed: u64,
) -> Result<Outcome, AllocError> {
    let (lists, owner, workers) = begin(alloc, seed)?;
    let (owner, workers) = sweep_and_file(rt, alloc, &lists, owner, workers)?;
    compare(alloc, &lists, owner, workers)
}

#[test]
fn swept_and_standing_items_are_those_that_were_filed(rt: HostRuntime) -> Result<(), Fail> {
    let wanted = Outcome {
        agrees: true,
        answered: 100_000,
        some_late: true,
        chunks: (0, 200),
        seats: 0,
    };
    for seed in 0..20 {
        assert_eq!(rt;
            file_and_sweep(&rt, rt.alloc(), seed)?,
            wanted,
            "seed {seed}"
        );
    }
    Ok(())
}
