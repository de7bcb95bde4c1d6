//! Lists, an owner of them, and a crew that files in them.
ghost use Rattle.std.specs.Prelude.{◌≡◌, ◌≤◌, ◌*◌, All, IfOk, length};
ghost use Rattle.list_filers.specs.Filers.{shared_name};
ghost use Rattle.chunk_lists.specs.Knives.{lists_of};
ghost use Rattle.worked_lists.specs.Layouts.{ArePlots, HasRoomFor};

use crate::{Crew, Owner, Worker, hire, lay_out};
use chunk_lists::Lists;
use std::alloc::{AllocError, Global};
use std::sync::Arc;

/// Lays lists out with so many chunks each, and hires the crew. The owner has found none of the items below `items`.
pub(super) fn hired(
    alloc: Global,
    crew: Crew,
    chunks: u32,
    items: u32,
) -> Result<(Arc<Lists, Global>, Owner, Vec<Worker>), AllocError>
    requires lists { crew.lists ≤ 200000 }
    requires chunks { crew.lists * chunks ≤ 1000000 }
    requires room { HasRoomFor crew.lists chunks (crew.workers * crew.places) crew.workers }
    ensures rows { IfOk result (λ r. length (lists_of r.1.knife).rows ≡ crew.lists) }
    ensures plots { IfOk result (λ r. ArePlots (lists_of r.1.knife) 0 chunks) }
    ensures name { IfOk result (λ r. (lists_of r.1.knife).name ≡ shared_name r.0.value) }
    ensures reader { IfOk result (λ r. r.1.reader.name ≡ r.0.value.name) }
    ensures workers { IfOk result (λ r. All (λ w. w.name ≡ shared_name r.0.value) r.2.items) }
{
    let (lists, mut knife) = lay_out(alloc, crew.lists, chunks)?;
    let workers = hire(alloc, &mut knife, crew)?;
    let owner = Owner::new(alloc, &lists, knife, items)?;
    Ok((lists, owner, workers))
}
