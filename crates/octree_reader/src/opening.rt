ghost use Rattle.std.specs.Prelude.{◌≡◌, ◌<◌, ◌^◌, List, All, IsTrue, IfOk, IfErr, length};
ghost use Rattle.cube_math.specs.Cubes.{contains};
ghost use Rattle.cube_math.specs.Points.{PointValue};
ghost use Rattle.octree_model.specs.Facts.{facts};
ghost use Rattle.octree_model.specs.Octree.{octree};
ghost use Rattle.octree_file.specs.Files.{ArePoints, IsFileOf};
ghost use Rattle.octree_file.specs.Order.{IsPoint};
ghost use Rattle.octree_reader.specs.Opening.{IsFaultOf, IsOpened};

use crate::fault::FileFault;
use crate::head::{HEAD, read_head};
use crate::nodes::read_points;
use cube_math::{Cube, Point};
use octree_file::tree_file;
use octree_model::Tree;
use octree_plain::build;
use std::alloc::Global;

/// An octree that was saved: its cube, the leaf limit that it was made with, and the octree itself.
#[derive(Drop)]
pub struct Saved {
    pub cube: Cube,
    pub leaf: u32,
    pub tree: Tree,
}

/// The octree whose file the bytes are. It is the octree of the points that stand in the file, in
/// that order, and of whatever points the file was made of it is the octree but for the order of points in leaves.
pub fn open_file(alloc: Global, bytes: &[u8]) -> Result<Saved, FileFault>
    ensures opened { IfOk result (λ saved. IsOpened bytes.now saved.cube saved.leaf saved.tree) }
    ensures one { IfOk result (λ saved. (points : List PointValue) → IsFileOf bytes.now saved.cube saved.leaf points
        → facts saved.tree ≡ facts (octree saved.leaf saved.cube points)) }
    ensures fault { IfErr result (λ fault. IsFaultOf bytes.now fault) }
{
    let (cube, leaf) = read_head(bytes)?;
    let Some(points) = read_points(alloc, &bytes[HEAD..])? else {
        return Err(FileFault::Tree);
    };
    if !are_within(&points, &cube) {
        return Err(FileFault::Tree);
    }
    let tree = build(alloc, &points, cube, leaf)?;
    drop(points);
    let file = tree_file(alloc, &tree, &cube, leaf)?;
    if file.as_slice() == bytes {
        Ok(Saved { cube, leaf, tree })
    } else {
        Err(FileFault::Tree)
    }
}

/// Whether the cube contains all points, and a file can have their octree.
fn are_within(points: &[Point], cube: &Cube) -> bool
    ensures points { IsTrue result → ArePoints points.now }
    ensures within { IsTrue result → All (λ p. IsTrue (contains cube.now p)) points.now }
    ensures outside { ArePoints points.now → All (λ p. IsTrue (contains cube.now p)) points.now → IsTrue result }
{
    if points.len() >= 1 << 32 {
        return false;
    }
    for p in points {
        if !is_within(p, cube) {
            return false;
        }
    }
    true
}

/// Whether the cube contains the point, of which is known that it is one.
fn is_within(p: &Point, cube: &Cube) -> bool
    ensures within { result ≡ contains cube.now p.now }
    ensures point { IsPoint p.now }
{
    let Point { x, y, z, rgb } = *p;
    cube.contains(&Point { x, y, z, rgb })
}
