//! A front of two passes.
ghost use Rattle.std.specs.Prelude.{◌≡◌, IfOk};
ghost use Rattle.batch_front.specs.Passes.{IsHome, new_pass};

use crate::log::{Log, Row};
use batch_front::{Act, Front, Pass};
use std::alloc::{AllocError, Global};

/// A front over an empty log of this name, and its passes 0 and 1.
pub fn front_of_two(
    alloc: Global,
    name: u32,
) -> Result<(Front<Log>, Pass<Log>, Pass<Log>), AllocError>
    ensures two { IfOk result (λ r. r.0.passes ≡ 2) }
    ensures first { IfOk result (λ r. r.1 ≡ new_pass r.0 0) }
    ensures second { IfOk result (λ r. r.2 ≡ new_pass r.0 1) }
{
    let (front, mut passes) = Front::new(alloc, Log::new(alloc, name), 2)?;
    let (Some(second), Some(first)) = (passes.pop(), passes.pop()) else {
        unreachable!()
    };
    Ok((front, first, second))
}

/// Closes a front with its two passes.
pub fn close_two(
    alloc: Global,
    front: Front<Log>,
    first: Pass<Log>,
    second: Pass<Log>,
) -> Result<Log, AllocError>
    requires two { front.passes ≡ 2 }
    requires first { IsHome front first }
    requires second { IsHome front second }
    ensures name { IfOk result (λ l. l.name ≡ front.site) }
{
    let mut passes = Vec::with_capacity(alloc, 2)?;
    passes.push(first)?;
    passes.push(second)?;
    Ok(front.close(passes))
}

/// Whether the log has one row: the publication of input 5 by pass 0.
pub fn has_one_publication(log: &Log) -> bool {
    match log.rows() {
        [row] => row.act == Act::Published && row.pass == 0 && has_input(row, 5),
        _ => false,
    }
}

fn has_input(row: &Row, input: u32) -> bool {
    match &row.batch {
        Some(batch) => batch.input() == input,
        None => false,
    }
}
