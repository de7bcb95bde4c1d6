ghost use Rattle.std.specs.Prelude.{◌≡◌, ◌<◌, ◌≤◌, ◌+◌, ◌-◌, ◌*◌, ◌^◌, ◌++◌, pos, ◌+ℤ◌, ◌≤ℤ◌, OnOk, OnErr, length, map, take};
ghost use Rattle.cube_math.specs.Cubes.{cell_middle};
ghost use Rattle.picture_model.specs.Items.{point_item, voxel_item};

use camera_cut::Item;
use cube_math::{Cube, Point};
use octree_model::Voxel;
use std::alloc::AllocError;

/// Appends the items of a leaf's points. Where there is no memory, `out` is as it was.
pub fn leaf_items(points: &[Point], out: &mut Vec<Item>) -> Result<(), AllocError>
    ensures appended { OnOk result (out.new.items ≡ out.old.items ++ map point_item points.now) }
    ensures kept { OnErr result (out.new.items ≡ out.old.items) }
{
    let before = out.len();
    let pushed = push_points(points, out);
    if pushed.is_err() {
        out.truncate(before);
    }
    pushed
}

/// Appends the items of an inner node's voxels. Where there is no memory, `out` is as it was.
pub fn voxel_items(cube: &Cube, voxels: &[Voxel], out: &mut Vec<Item>) -> Result<(), AllocError>
    requires splits { 7 < cube.now.bits }
    ensures appended { OnOk result (out.new.items ≡ out.old.items ++ map (voxel_item cube.now) voxels.now) }
    ensures kept { OnErr result (out.new.items ≡ out.old.items) }
{
    let before = out.len();
    let pushed = push_voxels(cube, voxels, out);
    if pushed.is_err() {
        out.truncate(before);
    }
    pushed
}

/// Appends the items of points, or of a first part of them where there is no memory.
fn push_points(points: &[Point], out: &mut Vec<Item>) -> Result<(), AllocError>
    ensures appended { OnOk result (out.new.items ≡ out.old.items ++ map point_item points.now) }
    ensures kept { take (length out.old.items) out.new.items ≡ out.old.items }
{
    for point in points {
        out.push(point_item(point))?;
    }
    Ok(())
}

/// Appends the items of voxels, or of a first part of them where there is no memory.
fn push_voxels(cube: &Cube, voxels: &[Voxel], out: &mut Vec<Item>) -> Result<(), AllocError>
    requires splits { 7 < cube.now.bits }
    ensures appended { OnOk result (out.new.items ≡ out.old.items ++ map (voxel_item cube.now) voxels.now) }
    ensures kept { take (length out.old.items) out.new.items ≡ out.old.items }
{
    for voxel in voxels {
        out.push(voxel_item(cube, voxel))?;
    }
    Ok(())
}

/// The item of a leaf's point.
#[inline]
pub fn point_item(point: &Point) -> Item
    ensures { result ≡ point_item point.now }
{
    Item {
        x: point.x,
        y: point.y,
        z: point.z,
        side: 0,
        rgb: point.rgb,
    }
}

/// The item of a voxel of a node with this cube.
#[inline]
pub fn voxel_item(cube: &Cube, voxel: &Voxel) -> Item
    requires splits { 7 < cube.now.bits }
    ensures { result ≡ voxel_item cube.now voxel.now }
{
    let cell = voxel.cell;
    Item {
        x: cell_middle(cube.ox, cube.bits, cell % 128),
        y: cell_middle(cube.oy, cube.bits, cell / 128 % 128),
        z: cell_middle(cube.oz, cube.bits, cell / 16384),
        side: 1 << (cube.bits - 7),
        rgb: voxel.rgb,
    }
}

/// The middle of a cell on an axis that begins at `origin`.
#[inline]
fn cell_middle(origin: i32, bits: u32, index: u32) -> i32
    requires low { 7 < bits }
    requires high { bits ≤ 31 }
    requires end { (origin +ℤ pos (2 ^ bits)) ≤ℤ pos (2 ^ 31) }
    requires index { index < 128 }
    ensures { result ≡ cell_middle origin bits index }
{
    let off = off_of_cell(bits, index);
    (i64::from(origin) + i64::from(off)) as i32
}

/// How far the middle of a cell lies from where its axis begins.
#[inline]
fn off_of_cell(bits: u32, index: u32) -> u32
    requires low { 7 < bits }
    requires high { bits ≤ 31 }
    requires index { index < 128 }
    ensures value { result ≡ index * 2 ^ (bits - 7) + 2 ^ (bits - 8) }
    ensures small { result < 2 ^ bits }
{
    (index << (bits - 7)) + (1 << (bits - 8))
}
