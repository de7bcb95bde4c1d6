ghost use Rattle.std.specs.Prelude.{◌≤◌, All, IsTrue, length};
ghost use Rattle.cube_math.specs.Cubes.{contains};
ghost use Rattle.octree_file.specs.Files.{IsLimit};

use crate::{FileFault, open_file};
use cube_math::{Cube, Point};
use octree_file::tree_file;
use octree_model::{Tree, Voxel};
use octree_plain::build;
use std::alloc::Global;
use std::test::Fail;

fn white(x: i32, y: i32, z: i32) -> Point {
    Point::new(x, y, z, 255, 255, 255)
}

/// Whether the cube contains all the points, and there are few.
fn has_all(cube: &Cube, points: &[Point]) -> bool
    ensures within { IsTrue result → All (λ p. IsTrue (contains cube.now p)) points.now }
    ensures few { IsTrue result → length points.now ≤ 1000 }
{
    points.len() <= 1000 && points.iter().all(|p| cube.contains(p))
}

/// The file of the octree of points with this leaf limit.
fn file_of(alloc: Global, cube: &Cube, leaf: u32, points: &[Point]) -> Result<Vec<u8>, Fail>
    requires { IsLimit leaf }
{
    if !has_all(cube, points) {
        return Err(Fail::from("a point outside"));
    }
    let tree = build(alloc, points, *cube, leaf)?;
    Ok(tree_file(alloc, &tree, cube, leaf)?)
}

/// Why the bytes are not opened, if they are not.
fn fault_of(alloc: Global, bytes: &[u8]) -> Option<FileFault> {
    open_file(alloc, bytes).err()
}

/// The same for the first bytes alone.
fn fault_of_first(alloc: Global, bytes: &[u8], len: usize) -> Result<Option<FileFault>, Fail> {
    Ok(fault_of(alloc, bytes.get(..len).ok_or("too short")?))
}

/// The same for the bytes with another byte at a place.
fn fault_with(
    alloc: Global,
    bytes: &[u8],
    place: usize,
    byte: u8,
) -> Result<Option<FileFault>, Fail> {
    let mut changed = Vec::from_slice(alloc, bytes)?;
    *changed.get_mut(place).ok_or("no such place")? = byte;
    Ok(fault_of(alloc, &changed))
}

/// The file of five times one point.
fn five(alloc: Global) -> Result<Vec<u8>, Fail> {
    let cube = Cube::new(9, 9, 9, 7).ok_or("no cube")?;
    file_of(alloc, &cube, 2, &[white(9, 9, 9); 5])
}

/// The file of an octree that splits once: two points in the first octant, and one in the second.
fn split(alloc: Global) -> Result<Vec<u8>, Fail> {
    let cube = Cube::new(0, 0, 0, 8).ok_or("no cube")?;
    file_of(
        alloc,
        &cube,
        2,
        &[white(200, 0, 0), white(1, 0, 0), white(0, 0, 0)],
    )
}

#[test]
fn five_points_take_107_bytes(rt: HostRuntime) -> Result<(), Fail> {
    let file = five(rt.alloc())?;
    assert_eq!(rt; file.len(), 107);
    assert!(rt;
        file.starts_with(b"SLOD\x01\x09\0\0\0\x09\0\0\0\x09\0\0\0\x07\x02\0\0\0\0\x05\0\0\0")
    );
    assert!(rt; file.ends_with(b"\x09\0\0\0\x09\0\0\0\x09\0\0\0\xff\xff\xff\0"));
    let saved = open_file(rt.alloc(), &file).map_err(|_| "not opened")?;
    assert_eq!(rt; Some(saved.cube), Cube::new(9, 9, 9, 7));
    assert_eq!(rt; saved.leaf, 2);
    let Tree::Leaf(leaf) = &saved.tree else {
        return Err(Fail::from("no leaf"));
    };
    assert!(rt; leaf.points() == [white(9, 9, 9); 5].as_slice());
    Ok(())
}

#[test]
fn points_are_written_in_order(rt: HostRuntime) -> Result<(), Fail> {
    let cube = Cube::new(-1, 0, 0, 7).ok_or("no cube")?;
    let points = [
        white(1, 0, 3),
        white(1, 2, 0),
        white(-1, 5, 5),
        Point::new(1, 0, 3, 0, 0, 1),
    ];
    let file = file_of(rt.alloc(), &cube, 2, &points)?;
    let wanted = b"\xff\xff\xff\xff\x05\0\0\0\x05\0\0\0\xff\xff\xff\0\
\x01\0\0\0\0\0\0\0\x03\0\0\0\x01\0\0\0\
\x01\0\0\0\0\0\0\0\x03\0\0\0\xff\xff\xff\0\
\x01\0\0\0\x02\0\0\0\0\0\0\0\xff\xff\xff\0";
    assert_eq!(rt; file.len(), 91);
    assert!(rt; file.ends_with(wanted));
    Ok(())
}

#[test]
fn a_split_octree_is_opened(rt: HostRuntime) -> Result<(), Fail> {
    let file = split(rt.alloc())?;
    assert_eq!(rt; file.len(), 131);
    let saved = open_file(rt.alloc(), &file).map_err(|_| "not opened")?;
    let Tree::Inner(root) = &saved.tree else {
        return Err(Fail::from("no inner node"));
    };
    assert_eq!(rt; root.count(), 3);
    let voxels = [
        Voxel {
            cell: 0,
            rgb: 0xffffff,
        },
        Voxel {
            cell: 100,
            rgb: 0xffffff,
        },
    ];
    assert_eq!(rt; root.voxels(), voxels.as_slice());
    assert_eq!(rt; root.trees().len(), 8);
    Ok(())
}

#[test]
fn files_begin_as_each_does(rt: HostRuntime) -> Result<(), Fail> {
    let file = five(rt.alloc())?;
    assert_eq!(rt;
        fault_with(rt.alloc(), &file, 0, 0)?,
        Some(FileFault::Magic)
    );
    assert_eq!(rt;
        fault_with(rt.alloc(), &file, 4, 2)?,
        Some(FileFault::Magic)
    );
    assert_eq!(rt; fault_of(rt.alloc(), b""), Some(FileFault::Magic));
    assert_eq!(rt; fault_of(rt.alloc(), b"SLOD"), Some(FileFault::Magic));
    assert_eq!(rt; fault_of(rt.alloc(), b"XLOD\x01"), Some(FileFault::Magic));
    Ok(())
}

#[test]
fn heads_name_a_cube_and_a_limit(rt: HostRuntime) -> Result<(), Fail> {
    let file = five(rt.alloc())?;
    assert_eq!(rt; fault_of(rt.alloc(), b"SLOD\x01"), Some(FileFault::Head));
    assert_eq!(rt;
        fault_with(rt.alloc(), &file, 17, 6)?,
        Some(FileFault::Head)
    );
    assert_eq!(rt;
        fault_with(rt.alloc(), &file, 17, 32)?,
        Some(FileFault::Head)
    );
    // From 9 on an axis of 31 bits would pass the end of the space.
    assert_eq!(rt;
        fault_with(rt.alloc(), &file, 17, 31)?,
        Some(FileFault::Head)
    );
    assert_eq!(rt;
        fault_with(rt.alloc(), &file, 18, 0)?,
        Some(FileFault::Head)
    );
    assert_eq!(rt;
        fault_with(rt.alloc(), &file, 20, 1)?,
        Some(FileFault::Head)
    );
    // Five points fit a leaf of any other limit here, since the cube cannot be split.
    assert_eq!(rt; fault_with(rt.alloc(), &file, 19, 195)?, None);
    Ok(())
}

#[test]
fn no_byte_is_left_out_or_over(rt: HostRuntime) -> Result<(), Fail> {
    let mut file = five(rt.alloc())?;
    assert_eq!(rt; file.len(), 107);
    assert_eq!(rt;
        fault_of_first(rt.alloc(), &file, 106)?,
        Some(FileFault::Tree)
    );
    assert_eq!(rt;
        fault_of_first(rt.alloc(), &file, 22)?,
        Some(FileFault::Tree)
    );
    file.push(0)?;
    assert_eq!(rt; fault_of(rt.alloc(), &file), Some(FileFault::Tree));
    Ok(())
}

#[test]
fn points_stand_in_order_in_their_cubes(rt: HostRuntime) -> Result<(), Fail> {
    let file = split(rt.alloc())?;
    // The first octant's points lie at 0 and at 1 of the x axis, in this order.
    assert_eq!(rt; fault_with(rt.alloc(), &file, 48, 1)?, None);
    assert_eq!(rt;
        fault_with(rt.alloc(), &file, 48, 2)?,
        Some(FileFault::Tree)
    );
    assert_eq!(rt;
        fault_with(rt.alloc(), &file, 64, 128)?,
        Some(FileFault::Tree)
    );
    assert_eq!(rt;
        fault_with(rt.alloc(), &file, 65, 1)?,
        Some(FileFault::Tree)
    );
    assert_eq!(rt;
        fault_with(rt.alloc(), &file, 63, 1)?,
        Some(FileFault::Tree)
    );
    Ok(())
}

#[test]
fn nodes_are_those_of_the_points(rt: HostRuntime) -> Result<(), Fail> {
    let file = split(rt.alloc())?;
    // A node of a third kind, more voxels and more points than there are bytes, another cell and another colour.
    assert_eq!(rt;
        fault_with(rt.alloc(), &file, 22, 2)?,
        Some(FileFault::Tree)
    );
    assert_eq!(rt;
        fault_with(rt.alloc(), &file, 26, 255)?,
        Some(FileFault::Tree)
    );
    assert_eq!(rt;
        fault_with(rt.alloc(), &file, 47, 255)?,
        Some(FileFault::Tree)
    );
    assert_eq!(rt;
        fault_with(rt.alloc(), &file, 35, 101)?,
        Some(FileFault::Tree)
    );
    assert_eq!(rt;
        fault_with(rt.alloc(), &file, 39, 0)?,
        Some(FileFault::Tree)
    );
    // With a limit of 3 the root is a leaf.
    assert_eq!(rt;
        fault_with(rt.alloc(), &file, 18, 3)?,
        Some(FileFault::Tree)
    );
    // A child too few.
    assert_eq!(rt; file.len(), 131);
    assert_eq!(rt;
        fault_of_first(rt.alloc(), &file, 126)?,
        Some(FileFault::Tree)
    );
    Ok(())
}
