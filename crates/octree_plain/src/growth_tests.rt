ghost use Rattle.std.specs.Prelude.{All, IsTrue};
ghost use Rattle.cube_math.specs.Cubes.{contains};

use crate::build;
use cube_math::{Cube, Point};
use octree_model::{InnerNode, Tree, Voxel};
use std::process::Abort;
use std::test::Fail;

const WHITE: u32 = 0xffffff;

/// A white point on the x axis.
fn white(x: i32) -> Point {
    Point::new(x, 0, 0, 255, 255, 255)
}

/// Whether the cube contains all the points.
pub(crate) fn has_all(cube: &Cube, points: &[Point]) -> bool
    ensures { IsTrue result → All (λ p. IsTrue (contains cube.now p)) points.now }
{
    points.iter().all(|p| cube.contains(p))
}

/// Whether the tree is a leaf with these points.
fn is_leaf(tree: &Tree, points: &[Point]) -> bool {
    match tree {
        Tree::Leaf(leaf) => leaf.points() == points,
        Tree::Inner(_) => false,
    }
}

/// The node of an inner tree.
fn inner(tree: &Tree) -> Option<&InnerNode> {
    match tree {
        Tree::Leaf(_) => None,
        Tree::Inner(node) => Some(node),
    }
}

/// Asserts that a tree is the one in which the points 0, 1 and 200 of the x axis split the root.
fn assert_one_split(rt: &impl Abort, tree: &Tree) -> Result<(), Fail> {
    let root = inner(tree).ok_or("a leaf")?;
    assert_eq!(rt; root.count(), 3);
    let voxels = [
        Voxel {
            cell: 0,
            rgb: WHITE,
        },
        Voxel {
            cell: 100,
            rgb: WHITE,
        },
    ];
    assert_eq!(rt; root.voxels(), voxels.as_slice());
    let trees = root.trees();
    assert_eq!(rt; trees.len(), 8);
    assert!(rt; is_leaf(&trees[0], &[white(0), white(1)]));
    assert!(rt; is_leaf(&trees[1], &[white(200)]));
    for tree in &trees[2..] {
        assert!(rt; is_leaf(tree, &[]));
    }
    Ok(())
}

#[test]
fn one_point_above_the_limit_splits_the_root(rt: HostRuntime) -> Result<(), Fail> {
    let cube = Cube::new(0, 0, 0, 8).ok_or("fits")?;
    let points = [white(0), white(1), white(200)];
    assert!(rt; has_all(&cube, &points));
    assert_one_split(&rt, &build(rt.alloc(), &points, cube, 2)?)
}

#[test]
fn count_at_the_limit_and_a_cube_of_7_bits_stay_leaves(rt: HostRuntime) -> Result<(), Fail> {
    let points = [white(0), white(100), white(100)];
    for (n, bits, leaf) in [(0usize, 8, 1), (2, 8, 2), (3, 8, 3), (3, 7, 1)] {
        let cube = Cube::new(0, 0, 0, bits).ok_or("fits")?;
        assert!(rt; n <= 3 && leaf >= 1);
        let some = &points[..n];
        assert!(rt; has_all(&cube, some));
        let tree = build(rt.alloc(), some, cube, leaf)?;
        assert!(rt; is_leaf(&tree, some), "{n} points");
    }
    Ok(())
}

#[test]
fn equal_points_are_split_down_to_7_bits(rt: HostRuntime) -> Result<(), Fail> {
    let cube = Cube::new(0, 0, 0, 10).ok_or("fits")?;
    let points = [white(0); 5];
    assert!(rt; has_all(&cube, &points));
    let tree = build(rt.alloc(), &points, cube, 2)?;
    let mut node = &tree;
    for level in 0..3 {
        let split = inner(node).ok_or("a leaf")?;
        assert_eq!(rt; split.count(), 5, "level {level}");
        let voxels = [Voxel {
            cell: 0,
            rgb: WHITE,
        }];
        assert_eq!(rt; split.voxels(), voxels.as_slice());
        let trees = split.trees();
        assert_eq!(rt; trees.len(), 8);
        for other in &trees[1..] {
            assert!(rt; is_leaf(other, &[]));
        }
        node = &trees[0];
    }
    assert!(rt; is_leaf(node, &points));
    Ok(())
}

#[test]
fn voxel_has_the_nearest_colour_and_at_a_tie_the_lesser(rt: HostRuntime) -> Result<(), Fail> {
    let cube = Cube::new(0, 0, 0, 8).ok_or("fits")?;
    let red = Point::new(1, 0, 0, 255, 0, 0);
    let green = Point::new(1, 0, 1, 0, 255, 0);
    let blue = Point::new(1, 1, 0, 0, 0, 255);
    for (points, rgb) in [
        ([white(0), red], 0xff0000),
        ([red, white(0)], 0xff0000),
        ([green, blue], 0x0000ff),
    ] {
        assert!(rt; has_all(&cube, &points));
        let tree = build(rt.alloc(), &points, cube, 1)?;
        let root = inner(&tree).ok_or("a leaf")?;
        let voxels = [Voxel { cell: 0, rgb }];
        assert_eq!(rt; root.voxels(), voxels.as_slice());
    }
    Ok(())
}
