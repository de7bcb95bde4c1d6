ghost use Rattle.std.specs.Prelude.{◌≡◌, ◌≤◌, ◌<◌, ◌+◌, ◌*◌, ◌^◌, ◌++◌, IfOk, OnOk, length, map, min, vec_items};
ghost use Rattle.std.specs.Int.{div_ceil};
ghost use Rattle.octree_model.specs.Bags.{joined};
ghost use Rattle.octree_model.specs.Numbers.{up_to};
ghost use Rattle.batch_bounds.specs.Batches.{batches, ends_from};

use cube_math::Point;
use std::alloc::{AllocError, Global};

/// Where each batch of the clouds ends among all their points. Each cloud is cut by itself into pieces of
/// the batch size.
pub fn batch_ends(alloc: Global, clouds: &[Vec<Point>], size: u32) -> Result<Vec<usize>, AllocError>
    requires size { 1 ≤ size }
    requires few { length (joined (map vec_items clouds.now)) < 2 ^ 32 }
    ensures { IfOk result (λ ends. ends.items ≡ ends_from 0 (batches size (map vec_items clouds.now))) }
{
    let mut ends = Vec::new(alloc);
    let mut start = 0usize;
    for cloud in clouds {
        push_ends(&mut ends, start, cloud.len(), size as usize)?;
        start += cloud.len();
    }
    Ok(ends)
}

/// Appends where each piece of a cloud of `len` points ends, which begins at `start`.
fn push_ends(ends: &mut Vec<usize>, start: usize, len: usize, size: usize) -> Result<(), AllocError>
    requires size { 1 ≤ size }
    requires wide { size < 2 ^ 32 }
    requires few { start + len < 2 ^ 32 }
    ensures { OnOk result (ends.new.items ≡ ends.old.items ++ map (λ k. start + min ((k + 1) * size) len) (up_to (div_ceil len size))) }
{
    for k in 0..len.div_ceil(size) {
        ends.push(start + ((k + 1) * size).min(len))?;
    }
    Ok(())
}
