ghost use Rattle.std.specs.Prelude.{◌≡◌, ℕ, ◌+◌, ◌<◌, ◌≤◌, true, [], ◌∷◌, if◌then◌else◌, ◌==◌, IfOk};
ghost use Rattle.list_machine.specs.Steps.{IsGrantable, newcomer};
ghost use Rattle.list_machine.specs.declared.views.LinkWord.TheVariants.{OfList, OfChunk};
ghost use Rattle.list_table.specs.Ledgers.{opening_ledger};
ghost use Rattle.list_table.specs.OwnerMoves.{after_link};
ghost use Rattle.list_table.specs.Ruled.{ledger_after_split, ledger_after_join};
ghost use Rattle.list_machine.specs.Grants.{granted_in};
ghost use Rattle.list_filers.specs.Filers.{shared_name};

use crate::{Filer, FilerRoom, Reader};
use list_machine::Grant;
use list_table::{OwnerSeat, SharedLists};
use list_words::{Answer, Filed, Filings, Seen, SharedFiler};
use std::alloc::{AllocError, Global};
use std::marker::Brand;
use std::sync::ledger::{Blank, Ledger};
use std::test::Fail;
use step_count::Steps;

/// Leave to claim 2 places in list 1, and then 258 in list 0.
const GRANTS: [Grant; 2] = [Grant { list: 1, n: 2 }, Grant { list: 0, n: 258 }];

/// Two lists and three chunks. The claimed chain of list 0 has the chunks 2 and 0, and that of list 1 has the chunk 1.
fn linked_lists(alloc: Global) -> Result<(SharedLists, OwnerSeat), AllocError>
    ensures size { IfOk result (λ r. (r.0.lists ≡ 2) × (r.0.chunks ≡ 3)) }
    ensures owner { IfOk result (λ r. r.1 ≡ record { name = r.0.name; ledger = after_link (after_link (after_link (opening_ledger 2) 0 OfList 2) 0 (OfChunk 2) 0) 1 OfList 1 }) }
{
    let (lists, mut owner) = SharedLists::new(alloc, 2, 3)?;
    lists.link(&mut owner, 0, None, 0, 2);
    lists.link(&mut owner, 0, Some(2), 1, 0);
    lists.link(&mut owner, 1, None, 0, 1);
    Ok((lists, owner))
}

/// Files the items below `count` in the list. The answer is that to the last one.
fn file_items<L: Ledger>(
    filer: &mut Filer,
    lists: &SharedLists,
    list: u32,
    count: u32,
    steps: &mut Steps<L>,
) -> Option<Filed>
    requires name { filer.old.filing.name ≡ shared_name lists.now }
    requires granted { count ≤ granted_in list filer.old.filing.left }
    ensures name { filer.new.filing.name ≡ filer.old.filing.name }
    ensures left { (l : ℕ) → granted_in l filer.new.filing.left + (if l == list then count else 0) ≡ granted_in l filer.old.filing.left }
{
    let mut last = None;
    for item in 0..count {
        last = Some(filer.file(lists, list, item, steps));
    }
    last
}

/// Makes a filer with the grants.
fn admit_filer(lists: &SharedLists, owner: &mut OwnerSeat, room: &mut FilerRoom) -> Filer
    requires size { lists.now.lists ≡ 2 }
    requires owner { owner.old ≡ record { name = lists.now.name; ledger = after_link (after_link (after_link (opening_ledger 2) 0 OfList 2) 0 (OfChunk 2) 0) 1 OfList 1 } }
    requires room { (2 ≤ room.old.grants) × (260 ≤ room.old.items) }
    ensures filer { result.filing ≡ record { name = shared_name lists.now; birth = 0; left = record { list = 1; n = 2 } ∷ record { list = 0; n = 258 } ∷ []; answers = [] } }
    ensures name { owner.new.name ≡ owner.old.name }
    ensures ledger { owner.new.ledger ≡ ledger_after_split owner.old.ledger (record { list = 1; n = 2 } ∷ record { list = 0; n = 258 } ∷ []) }
{
    let seat = lists.admit(owner, &GRANTS);
    Filer::new(lists, seat, 0, &GRANTS, room)
}

/// Makes a reader.
fn admit_reader(lists: &SharedLists, owner: &mut OwnerSeat) -> Reader
    requires name { owner.old.name ≡ lists.now.name }
    requires grants { IsGrantable owner.old.ledger.owner.book.leaves [] }
    requires nobody_shut { owner.old.ledger.owner.book.order ≡ [] }
    ensures reader { result ≡ record { name = owner.old.name; guest = newcomer owner.old.ledger.owner [] } }
    ensures name { owner.new.name ≡ owner.old.name }
    ensures ledger { owner.new.ledger ≡ ledger_after_split owner.old.ledger [] }
{
    let seat = lists.admit(owner, &[]);
    Reader::new(seat, 0)
}

/// Takes a filer back.
fn take_back(lists: &SharedLists, owner: &mut OwnerSeat, filer: Filer)
    requires owner { owner.old.name ≡ lists.now.name }
    requires filer { filer.filing.name ≡ shared_name lists.now }
    ensures name { owner.new.name ≡ owner.old.name }
{
    lists.take_back(owner, filer.into_seat());
}

/// What came of the filings of one filer, and what a reader saw then.
#[derive(Clone, Copy, Debug, PartialEq, Eq)]
struct Life {
    /// The answer to the last of 257 filings in list 0.
    far: Option<Filed>,
    /// The answer to a filing in list 1.
    near: Option<Filed>,
    /// How many places of list 0 were claimed when it was shut.
    claimed: u64,
    /// The answer to a filing in list 0 then.
    late: Option<Filed>,
    /// How many answers the filer has.
    answers: usize,
    /// The words of the last slot that was filed into in list 0, of the next one, and of the first one of list 1.
    words: [u64; 3],
}

/// The life of a filer of two lists.
fn live<L: Ledger>(alloc: Global, blank: Blank) -> Result<Life, AllocError>
    requires name { blank.name ≡ L.name }
    requires parts { blank.parts ≡ L.parts }
    requires some { 0 < blank.parts }
{
    let mut steps: Steps<L> = Steps::new(blank);
    let (lists, mut owner) = linked_lists(alloc)?;
    let mut room = FilerRoom::new(alloc);
    room.reserve(2, 260)?;
    let mut filer = admit_filer(&lists, &mut owner, &mut room);
    let mut reader = admit_reader(&lists, &mut owner);
    let far = file_items(&mut filer, &lists, 0, 257, &mut steps);
    let near = file_items(&mut filer, &lists, 1, 1, &mut steps);
    let claimed = lists.shut(&mut owner, 0);
    let late = file_items(&mut filer, &lists, 0, 1, &mut steps);
    let answers = filer.answers().len();
    take_back(&lists, &mut owner, filer);
    let words = [
        reader.slot(&lists, 0, 0, &mut steps),
        reader.slot(&lists, 0, 1, &mut steps),
        reader.slot(&lists, 1, 0, &mut steps),
    ];
    lists.take_back(&mut owner, reader.into_seat());
    Ok(Life {
        far,
        near,
        claimed,
        late,
        answers,
        words,
    })
}

#[test]
fn a_filer_walks_on_through_its_lists(rt: HostRuntime) -> Result<(), Fail> {
    let wanted = Life {
        far: Some(Filed::At { chunk: 0, slot: 0 }),
        near: Some(Filed::At { chunk: 1, slot: 0 }),
        claimed: 257,
        late: Some(Filed::Late { seen: Seen::Shut }),
        answers: 259,
        words: [257, 0, 1],
    };
    assert_eq!(rt; live::<Brand>(rt.alloc(), Blank::new(1))?, wanted);
    Ok(())
}

/// The answers to a filing in list 1 and then to two in list 0.
fn three_answers<L: Ledger>(alloc: Global, blank: Blank) -> Result<[Option<Answer>; 3], AllocError>
    requires name { blank.name ≡ L.name }
    requires parts { blank.parts ≡ L.parts }
    requires some { 0 < blank.parts }
{
    let mut steps: Steps<L> = Steps::new(blank);
    let (lists, mut owner) = linked_lists(alloc)?;
    let mut room = FilerRoom::new(alloc);
    room.reserve(2, 260)?;
    let mut filer = admit_filer(&lists, &mut owner, &mut room);
    file_items(&mut filer, &lists, 1, 1, &mut steps);
    file_items(&mut filer, &lists, 0, 2, &mut steps);
    let answers = filer.answers();
    Ok([
        answers.first().copied(),
        answers.get(1).copied(),
        answers.get(2).copied(),
    ])
}

#[test]
fn answers_are_kept_in_order(rt: HostRuntime) -> Result<(), Fail> {
    let at = |list, item, chunk, slot| {
        let filed = Filed::At { chunk, slot };
        Some(Answer { list, item, filed })
    };
    let wanted = [at(1, 0, 1, 0), at(0, 0, 2, 0), at(0, 1, 2, 1)];
    assert_eq!(rt; three_answers::<Brand>(rt.alloc(), Blank::new(1))?, wanted);
    Ok(())
}

#[test]
fn a_filer_knows_when_it_was_made(rt: HostRuntime) -> Result<(), Fail> {
    let (lists, mut owner) = linked_lists(rt.alloc())?;
    let mut room = FilerRoom::new(rt.alloc());
    room.reserve(2, 260)?;
    let filer = admit_filer(&lists, &mut owner, &mut room);
    let reader = admit_reader(&lists, &mut owner);
    assert_eq!(rt; (filer.birth(), reader.birth()), (0, 0));
    assert_eq!(rt; filer.answers().len(), 0);
    Ok(())
}
