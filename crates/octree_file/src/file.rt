ghost use Rattle.std.specs.Prelude.{◌≡◌, List, IfOk};
ghost use Rattle.cube_math.specs.Points.{PointValue};
ghost use Rattle.octree_model.specs.Octree.{octree};
ghost use Rattle.octree_file.specs.Files.{ArePoints, IsFileOf, IsLimit, IsTreeOf, tree_file};

use crate::writing::{write_head, write_tree};
use cube_math::Cube;
use octree_model::Tree;
use std::alloc::{AllocError, Global};

/// The file of the octree in the cube, with the leaf limit, 1 to 50,000, that it was made with.
pub fn tree_file(alloc: Global, tree: &Tree, cube: &Cube, leaf: u32) -> Result<Vec<u8>, AllocError>
    requires limit { IsLimit leaf }
    requires octree { IsTreeOf leaf cube.now tree.now }
    ensures bytes { IfOk result (λ file. file.items ≡ tree_file leaf cube.now tree.now) }
    ensures file { IfOk result (λ file. (points : List PointValue) → ArePoints points
        → tree.now ≡ octree leaf cube.now points → IsFileOf file.items cube.now leaf points) }
{
    let mut out = Vec::new(alloc);
    write_head(&mut out, cube, leaf)?;
    write_tree(alloc, &mut out, tree)?;
    Ok(out)
}
