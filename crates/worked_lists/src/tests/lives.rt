//! Lives of one list.
ghost use Rattle.std.specs.Prelude.{◌≡◌, ◌<◌, [], length, IfOk, OnOk};
ghost use Rattle.list_filers.specs.Filers.{shared_name};
ghost use Rattle.chunk_lists.specs.Knives.{lists_of, seat_of};
ghost use Rattle.worked_lists.specs.Layouts.{ArePlots, IsLaidOut, even_grants};

use crate::owner::sweep;
use crate::{admit_even, even_grants, lay_out};
use chunk_lists::{Filer, Knife, Lists, Reader};
use list_words::{Filed, LeafLists, Seen, SharedFiler};
use std::alloc::{AllocError, Global};
use std::marker::Brand;
use std::sync::Arc;
use std::sync::ledger::{Blank, Ledger};
use std::test::Fail;
use step_count::Steps;

/// What came of a list that was filed in, swept, filed in again and cleared.
#[derive(Clone, Copy, Debug, PartialEq, Eq)]
struct Life {
    /// The answer to the filing of 7.
    filed: Filed,
    /// What a reader, who was made then, reads in the first slot before the sweep and after it.
    words: [u64; 2],
    /// The items that the sweep found: how many, and the first.
    found: (usize, Option<u32>),
    /// The answer to the filing of 8 after the sweep.
    late: Filed,
    /// How many chunks are held and free while the reader is out, and at the end.
    held: [(u32, u32); 2],
    /// How many seats are out then.
    seats: [u64; 2],
}

/// A list with one chunk, and a filer with two places in it.
fn one_list(alloc: Global) -> Result<(Arc<Lists, Global>, Knife, Filer), AllocError>
    ensures laid_out { IfOk result (λ r. IsLaidOut (lists_of r.1) 1 1 2 1) }
    ensures lists { IfOk result (λ r. r.0.value.chunks ≡ 1) }
    ensures name { IfOk result (λ r. (lists_of r.1).name ≡ shared_name r.0.value) }
    ensures filer { IfOk result (λ r. r.2.filing ≡ record { name = shared_name r.0.value; birth = 0; left = even_grants 1 2; answers = [] }) }
{
    let (lists, mut knife) = lay_out(alloc, 1, 1)?;
    let grants = even_grants(alloc, 1, 2)?;
    let filer = admit_even(&mut knife, grants.as_slice(), 1, 2)?;
    Ok((lists, knife, filer))
}

/// Sweeps the list, and reads its first slot before that and after it.
fn read_and_sweep<L: Ledger>(
    lists: &Lists,
    knife: &mut Knife,
    reader: &mut Reader,
    out: &mut Vec<u32>,
    steps: &mut Steps<L>,
) -> Result<[u64; 2], AllocError>
    requires reader { reader.old.name ≡ lists.now.name }
    requires chunks { lists.now.chunks ≡ 1 }
    requires list { length (lists_of knife.old).rows ≡ 1 }
    requires plots { ArePlots (lists_of knife.old) 0 1 }
    ensures reader { reader.new ≡ reader.old }
    ensures name { OnOk result ((lists_of knife.new).name ≡ (lists_of knife.old).name) }
{
    let before = reader.slot(lists, 0, 0, steps);
    sweep(knife, 0, 1, out)?;
    let after = reader.slot(lists, 0, 0, steps);
    Ok([before, after])
}

/// Clears the list if nobody may reach it any more. Tells how many chunks are held and free then, and how many seats are
/// out.
fn clear(knife: &mut Knife) -> ((u32, u32), u64)
    ensures name { (lists_of knife.new).name ≡ (lists_of knife.old).name }
{
    knife.reclaim();
    ((knife.held(), knife.free()), knife.seats_out())
}

/// Takes the filer back and then the reader, and clears the list after each.
fn give_back(knife: Knife, filer: Filer, reader: Reader) -> ([(u32, u32); 2], [u64; 2])
    requires filer { filer.filing.name ≡ (lists_of knife).name }
    requires reader { (seat_of reader).name ≡ (lists_of knife).name }
{
    let mut knife = knife;
    knife.take_back(filer);
    let (held, seats) = clear(&mut knife);
    knife.unpin(reader);
    let (held_then, seats_then) = clear(&mut knife);
    ([held, held_then], [seats, seats_then])
}

/// The life of one list with one chunk.
fn live<L: Ledger>(alloc: Global, blank: Blank) -> Result<Life, AllocError>
    requires blank { (blank.name ≡ L.name) × (blank.parts ≡ L.parts) × (0 < blank.parts) }
{
    let mut steps: Steps<L> = Steps::new(blank);
    let mut out = Vec::new(alloc);
    let (lists, mut knife, mut filer) = one_list(alloc)?;
    let filed = filer.file(&lists, 0, 7, &mut steps);
    let mut reader = knife.note();
    let words = read_and_sweep(&lists, &mut knife, &mut reader, &mut out, &mut steps)?;
    let late = filer.file(&lists, 0, 8, &mut steps);
    let (held, seats) = give_back(knife, filer, reader);
    Ok(Life {
        filed,
        words,
        found: (out.len(), out.first().copied()),
        late,
        held,
        seats,
    })
}

#[test]
fn a_reader_sees_the_item_and_then_its_mark(rt: HostRuntime) -> Result<(), Fail> {
    let wanted = Life {
        filed: Filed::At { chunk: 0, slot: 0 },
        words: [8, 9_223_372_036_854_775_816],
        found: (1, Some(7)),
        late: Filed::Late { seen: Seen::Shut },
        held: [(1, 0), (0, 1)],
        seats: [1, 0],
    };
    assert_eq!(rt; live::<Brand>(rt.alloc(), Blank::new(1))?, wanted);
    Ok(())
}
