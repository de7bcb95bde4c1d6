ghost use Rattle.std.specs.Prelude.{◌≡◌, ◌<◌, ◌^◌, [], ◌∷◌, ◌++◌, length, OnOk};
ghost use Rattle.std.specs.List.{flat_map};
ghost use Rattle.octree_file.specs.Files.{IsCube, head_bytes};
ghost use Rattle.octree_file.specs.Descent.{IsOctreeSomewhere};
ghost use Rattle.octree_file.specs.Spelling.{i32_bytes, leaf_bytes, point_bytes, spelling, u32_bytes, voxel_bytes};

use crate::order::in_order;
use cube_math::{Cube, Point};
use octree_model::{Tree, Voxel};
use std::alloc::{AllocError, Global};

/// What each file begins with: four letters, and the number of the format.
pub const SIGNATURE: [u8; 5] = [83, 76, 79, 68, 1];

/// The byte before a leaf.
pub const LEAF: u8 = 0;

/// The byte before an inner node.
pub const INNER: u8 = 1;

/// Appends the head of a file.
pub fn write_head(out: &mut Vec<u8>, cube: &Cube, leaf: u32) -> Result<(), AllocError>
    ensures bytes { OnOk result (out.new.items ≡ out.old.items ++ head_bytes leaf cube.now) }
    ensures cube { OnOk result (IsCube cube.now) }
{
    let Cube { ox, oy, oz, bits } = *cube;
    out.extend_from_slice(&SIGNATURE)?;
    write_i32(out, ox)?;
    write_i32(out, oy)?;
    write_i32(out, oz)?;
    out.push(bits as u8)?;
    write_u32(out, leaf)?;
    Ok(())
}

/// Appends the spelling of an octree.
pub fn write_tree(alloc: Global, out: &mut Vec<u8>, tree: &Tree) -> Result<(), AllocError>
    requires { IsOctreeSomewhere tree.now }
    ensures { OnOk result (out.new.items ≡ out.old.items ++ spelling tree.now) }
{
    match tree {
        Tree::Leaf(points) => write_leaf(alloc, out, points.points()),
        Tree::Inner(node) => {
            write_voxels(out, node.voxels())?;
            for t in node.trees() {
                write_tree(alloc, out, t)?;
            }
            Ok(())
        }
    }
}

/// Appends a leaf with these points.
fn write_leaf(alloc: Global, out: &mut Vec<u8>, points: &[Point]) -> Result<(), AllocError>
    requires { length points.now < 2 ^ 32 }
    ensures { OnOk result (out.new.items ≡ out.old.items ++ leaf_bytes points.now) }
{
    out.push(LEAF)?;
    write_u32(out, points.len() as u32)?;
    let sorted = in_order(alloc, points)?;
    for p in &sorted {
        write_point(out, p)?;
    }
    Ok(())
}

/// Appends what stands of an inner node before its trees.
fn write_voxels(out: &mut Vec<u8>, voxels: &[Voxel]) -> Result<(), AllocError>
    requires { length voxels.now < 2 ^ 32 }
    ensures { OnOk result (out.new.items ≡ out.old.items ++ (1 ∷ u32_bytes (length voxels.now) ++ flat_map voxel_bytes voxels.now)) }
{
    out.push(INNER)?;
    write_u32(out, voxels.len() as u32)?;
    for voxel in voxels {
        let Voxel { cell, rgb } = *voxel;
        write_u32(out, cell)?;
        write_u32(out, rgb)?;
    }
    Ok(())
}

/// Appends a point.
fn write_point(out: &mut Vec<u8>, p: &Point) -> Result<(), AllocError>
    ensures { OnOk result (out.new.items ≡ out.old.items ++ point_bytes p.now) }
{
    let Point { x, y, z, rgb } = *p;
    write_i32(out, x)?;
    write_i32(out, y)?;
    write_i32(out, z)?;
    write_u32(out, rgb)?;
    Ok(())
}

/// Appends a whole number as two's complement.
fn write_i32(out: &mut Vec<u8>, x: i32) -> Result<(), AllocError>
    ensures { OnOk result (out.new.items ≡ out.old.items ++ i32_bytes x) }
{
    write_u32(out, x.cast_unsigned())
}

/// Appends a number.
fn write_u32(out: &mut Vec<u8>, n: u32) -> Result<(), AllocError>
    ensures { OnOk result (out.new.items ≡ out.old.items ++ u32_bytes n) }
{
    out.extend_from_slice(&n.to_le_bytes())
}
