ghost use Rattle.std.specs.Prelude.{◌≡◌, ◌<◌, ◌^◌, [], All, IfOk, length, map, replicate, vec_items};
ghost use Rattle.leaf_items.specs.Openings.{ArePicked};

use std::alloc::{AllocError, Global};
use std::marker::Model;

/// The items of a list, dealt to new lists.
#[derive(Drop)]
pub struct Parts {
    pub(crate) list: u32,
    pub(crate) aims: Vec<u32>,
    pub(crate) parts: Vec<Vec<u32>>,
}

impl Model for Parts {
    ghost use Rattle.std.specs.Prelude.{◌<◌, ◌^◌, map, vec_items, vec_len};
    ghost use Rattle.leaf_items.specs.Openings.{PartsValue};

    ghost Value = { PartsValue };

    ghost view = { λ a. record { list = a.list; aims = a.aims.items; parts = map vec_items a.parts.items } };

    ghost invariant = { λ a. vec_len a.parts < 2 ^ 32 };
}

/// So many parts, each with the items that have it as their aim.
pub(crate) fn parts_of(
    alloc: Global,
    items: &[u32],
    aims: &[u32],
    count: u32,
) -> Result<Vec<Vec<u32>>, AllocError>
    requires many { length aims.now ≡ length items.now }
    requires within { All (λ aim. aim < count) aims.now }
    ensures len { IfOk result (λ parts. length parts.items ≡ count) }
    ensures picked { IfOk result (λ parts. ArePicked items.now aims.now (map vec_items parts.items)) }
{
    let mut parts = empty_parts(alloc, count)?;
    for k in 0..items.len() {
        let part = &mut parts[aims[k] as usize];
        part.push(items[k])?;
    }
    Ok(parts)
}

/// So many parts without items.
fn empty_parts(alloc: Global, count: u32) -> Result<Vec<Vec<u32>>, AllocError>
    ensures { IfOk result (λ parts. map vec_items parts.items ≡ replicate count []) }
{
    let mut parts = Vec::with_capacity(alloc, count as usize)?;
    for _part in 0..count {
        parts.push(Vec::new(alloc))?;
    }
    Ok(parts)
}
