ghost use Rattle.std.specs.Prelude.{ℕ, ◌≡◌, ◌+◌, ◌*◌, ◌<◌, ◌≤◌, List, ◌++◌, length, All, IfOk, IfSome, IsSomeAnd, IsTrue};
ghost use Rattle.std.specs.List.{flat_map};
ghost use Rattle.cube_math.specs.Points.{PointValue};
ghost use Rattle.octree_file.specs.Order.{IsPoint};
ghost use Rattle.octree_file.specs.Spelling.{point_bytes};
ghost use Rattle.octree_reader.specs.Nodes.{FileNode, IsNode, node_bytes, node_points};

use crate::fields::{first_point, u32_at};
use cube_math::Point;
use octree_file::{INNER, LEAF};
use std::alloc::{AllocError, Global};

/// The points of the leaves, where the bytes are nodes one after the other.
pub fn read_points(alloc: Global, bytes: &[u8]) -> Result<Option<Vec<Point>>, AllocError>
    ensures { IfOk result (λ found. (nodes : List FileNode) → All IsNode nodes → bytes.now ≡ flat_map node_bytes nodes
        → IsSomeAnd found (λ points. points.items ≡ flat_map node_points nodes)) }
{
    let mut points = Vec::new(alloc);
    let mut at = 0;
    while at < bytes.len() {
        let Some(taken) = read_node(&mut points, &bytes[at..])? else {
            return Ok(None);
        };
        at += taken;
    }
    Ok(Some(points))
}

/// Appends the points of the first node, where the bytes begin with one. Answers how many bytes it takes.
fn read_node(points: &mut Vec<Point>, bytes: &[u8]) -> Result<Option<usize>, AllocError>
    ensures within { IfOk result (λ found. IfSome found (λ taken. (0 < taken) × (taken ≤ length bytes.now))) }
    ensures node { IfOk result (λ found. (node : FileNode) (rest : List ℕ) → IsNode node → bytes.now ≡ node_bytes node ++ rest
        → IsSomeAnd found (λ taken. (taken ≡ length (node_bytes node)) × (points.new.items ≡ points.old.items ++ node_points node))) }
{
    if bytes.len() < 5 {
        return Ok(None);
    }
    let count = u32_at(bytes, 1) as usize;
    let room = bytes.len() - 5;
    if bytes[0] == INNER && count <= room / 8 {
        return Ok(Some(5 + 8 * count));
    }
    if bytes[0] != LEAF || count > room / 16 {
        return Ok(None);
    }
    if push_points(points, &bytes[5..], count)? {
        Ok(Some(5 + 16 * count))
    } else {
        Ok(None)
    }
}

/// Appends so many points. Answers whether the bytes begin with them.
fn push_points(points: &mut Vec<Point>, bytes: &[u8], count: usize) -> Result<bool, AllocError>
    requires { 16 * count ≤ length bytes.now }
    ensures { IfOk result (λ done. (more : List PointValue) (rest : List ℕ) → All IsPoint more → length more ≡ count
        → bytes.now ≡ flat_map point_bytes more ++ rest → IsTrue done × (points.new.items ≡ points.old.items ++ more)) }
{
    for k in 0..count {
        let Some(p) = first_point(&bytes[16 * k..]) else {
            return Ok(false);
        };
        points.push(p)?;
    }
    Ok(true)
}
