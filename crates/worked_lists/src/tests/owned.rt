//! A list in which the owner places an item.
ghost use Rattle.std.specs.Prelude.{◌≡◌, ◌≤◌, ◌<◌, ◌*◌, [], ◌∷◌, length, IfOk, vec_len};
ghost use Rattle.std.specs.Vec.{vec_capacity};
ghost use Rattle.list_words.specs.Store.{IsOpen, chunks_of, lengthened, no_row, opened, roomier, row, seats_out};
ghost use Rattle.chunk_lists.specs.Knives.{fresh_store, lists_of};

use chunk_lists::Knife;
use list_words::LeafLists;
use std::alloc::{AllocError, Global};
use std::test::Fail;

/// A list with one owned chunk.
fn one_owned(alloc: Global) -> Result<Knife, AllocError>
    ensures { IfOk result (λ k. lists_of k ≡ record (fresh_store (lists_of k).name 1 1) { rows = lengthened (opened (roomier no_row 0 1)) 0 ∷ []; free = 0 }) }
{
    let (_lists, mut knife) = Knife::new(alloc, 1, 1)?;
    knife.reserve(0, 0, 1)?;
    knife.open_list(0);
    knife.extend_owned(0);
    Ok(knife)
}

/// What came of an item that the owner placed.
#[derive(Clone, Copy, Debug, PartialEq, Eq)]
struct Placed {
    /// The chunk and the slot that it was given.
    at: (u32, u32),
    /// The first chunk of the owned chain.
    chunk: Option<u32>,
    /// Whether a filer that filed nothing is vouched for.
    vouched: bool,
    /// The items that the sweep found: how many, and the first.
    found: (usize, Option<u32>),
}

/// Admits a filer of no grants, sweeps the list and takes the filer back. Tells whether the filer was vouched for.
fn sweep_beside_filer(knife: &mut Knife, out: &mut Vec<u32>) -> bool
    requires takes { IsOpen (lists_of knife.old) 0 }
    requires chunks { length (chunks_of (row (lists_of knife.old) 0)) ≡ 1 }
    requires seats { seats_out (lists_of knife.old) < 100 }
    requires given { (lists_of knife.old).given < 100 }
    requires out { (vec_len out.old ≡ 0) × (256 ≤ vec_capacity out.old) }
{
    let filer = knife.admit(&[]);
    knife.shut_and_sweep(0, out);
    let vouched = knife.vouches(&filer);
    knife.take_back(filer);
    vouched
}

/// Places an item, and sweeps the list.
fn place_and_sweep(knife: &mut Knife, item: u32, out: &mut Vec<u32>) -> Placed
    requires takes { IsOpen (lists_of knife.old) 0 }
    requires slots { length (row (lists_of knife.old) 0).placed < 256 * length (row (lists_of knife.old) 0).owned }
    requires chunks { length (chunks_of (row (lists_of knife.old) 0)) ≡ 1 }
    requires seats { seats_out (lists_of knife.old) < 100 }
    requires given { (lists_of knife.old).given < 100 }
    requires out { (vec_len out.old ≡ 0) × (256 ≤ vec_capacity out.old) }
{
    let at = knife.place(0, item);
    let chunk = knife.owned(0).first().copied();
    let vouched = sweep_beside_filer(knife, out);
    Placed {
        at,
        chunk,
        vouched,
        found: (out.len(), out.first().copied()),
    }
}

#[test]
fn an_item_that_the_owner_placed_is_swept(rt: HostRuntime) -> Result<(), Fail> {
    let mut knife = one_owned(rt.alloc())?;
    let mut out = Vec::new(rt.alloc());
    out.reserve(256)?;
    let wanted = Placed {
        at: (0, 0),
        chunk: Some(0),
        vouched: true,
        found: (1, Some(5)),
    };
    assert_eq!(rt; place_and_sweep(&mut knife, 5, &mut out), wanted);
    Ok(())
}
