//! Lists that are laid out alike: each is open and has as many chunks to claim places in.
ghost use Rattle.std.specs.Prelude.{◌≡◌, ◌*◌, ◌<◌, ◌≤◌, length, IfOk, OnOk};
ghost use Rattle.list_filers.specs.Filers.{shared_name};
ghost use Rattle.list_words.specs.Store.{no_row, row};
ghost use Rattle.chunk_lists.specs.Knives.{lists_of};
ghost use Rattle.worked_lists.specs.Layouts.{IsLaidOut, IsOpenedWith};

use chunk_lists::{Knife, Lists};
use list_words::LeafLists;
use std::alloc::{AllocError, Global};
use std::sync::Arc;

/// So many open lists with so many chunks each, and their owner. It refuses only for want of memory.
pub fn lay_out(
    alloc: Global,
    lists: u32,
    chunks: u32,
) -> Result<(Arc<Lists, Global>, Knife), AllocError>
    requires lists { lists ≤ 200000 }
    requires chunks { lists * chunks ≤ 1000000 }
    ensures lists { IfOk result (λ r. (r.0.value.lists ≡ lists) × (r.0.value.chunks ≡ lists * chunks)) }
    ensures name { IfOk result (λ r. (lists_of r.1).name ≡ shared_name r.0.value) }
    ensures laid_out { IfOk result (λ r. IsLaidOut (lists_of r.1) lists chunks 0 0) }
{
    let (shared, mut knife) = Knife::new(alloc, lists, lists * chunks)?;
    for list in 0..lists {
        open_with_chunks(&mut knife, list, chunks)?;
    }
    Ok((shared, knife))
}

/// Opens a list, and puts so many free chunks into its claimed chain.
fn open_with_chunks(knife: &mut Knife, list: u32, chunks: u32) -> Result<(), AllocError>
    requires list { list < length (lists_of knife.old).rows }
    requires unopened { row (lists_of knife.old) list ≡ no_row }
    requires free { chunks ≤ (lists_of knife.old).free }
    ensures { OnOk result (IsOpenedWith (lists_of knife.old) (lists_of knife.new) list chunks) }
{
    knife.reserve(list, chunks, 0)?;
    knife.open_list(list);
    for _chunk in 0..chunks {
        knife.extend_claimed(list);
    }
    Ok(())
}
