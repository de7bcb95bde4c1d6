ghost use Rattle.std.specs.Prelude.{◌≡◌, ◌≤◌, All, IsTrue, IfOk};
ghost use Rattle.cube_math.specs.Cubes.{contains};

use crate::{InnerLevel, Level, Levels};
use cube_math::{Batch, Cube, Path, Point};
use dice::Dice;
use leaf_counts::PlanRefusal;
use least_runs::CellTable;
use octree_plain::{InnerNode, Tree, build};
use std::alloc::{AllocError, Global};
use std::test::Fail;

/// A row of the table: the side of the cube in bits, the leaf limit, into how many bits of each
/// coordinate the points are drawn, and how many points each batch has.
#[derive(Drop)]
struct Row {
    bits: u32,
    leaf: u32,
    spread: u32,
    sizes: &'static [usize],
}

/// Small and large cubes and limits; batches of one point and of many; points that fill the cube, points
/// that are the same ones again and again, and points that all lie in one cell.
const ROWS: [Row; 9] = [
    Row {
        bits: 8,
        leaf: 1,
        spread: 8,
        sizes: &[1, 1, 1, 20],
    },
    Row {
        bits: 8,
        leaf: 4,
        spread: 2,
        sizes: &[3, 2, 40, 1],
    },
    Row {
        bits: 8,
        leaf: 50,
        spread: 0,
        sizes: &[49, 1, 1, 60],
    },
    Row {
        bits: 9,
        leaf: 1,
        spread: 9,
        sizes: &[30, 1, 30],
    },
    Row {
        bits: 9,
        leaf: 4,
        spread: 9,
        sizes: &[4, 1, 100, 3],
    },
    Row {
        bits: 10,
        leaf: 1,
        spread: 1,
        sizes: &[5, 50, 5],
    },
    Row {
        bits: 10,
        leaf: 4,
        spread: 10,
        sizes: &[60, 60, 60, 60],
    },
    Row {
        bits: 11,
        leaf: 50,
        spread: 11,
        sizes: &[40, 400, 10, 300],
    },
    Row {
        bits: 12,
        leaf: 4,
        spread: 12,
        sizes: &[1, 200, 2, 200],
    },
];

/// Draws so many points of the lowest `spread` bits on each axis, in one of four colours.
fn draw(
    alloc: Global,
    dice: &mut Dice,
    many: usize,
    spread: u32,
) -> Result<Vec<Point>, AllocError> {
    let mut points = Vec::new(alloc);
    let side = 1 << (spread % 13);
    for _point in 0..many {
        points.push(Point::new(
            dice.below(side) as i32,
            dice.below(side) as i32,
            dice.below(side) as i32,
            0,
            0,
            dice.below(4) as u8,
        ))?;
    }
    Ok(points)
}

/// Whether the cube contains all the points.
fn has_all(cube: &Cube, points: &[Point]) -> bool
    ensures { IsTrue result → All (λ p. IsTrue (contains cube.now p)) points.now }
{
    points.iter().all(|p| cube.contains(p))
}

/// The octree of the points, built at once.
fn octree_of(alloc: Global, points: &[Point], cube: Cube, leaf: u32) -> Result<Tree, Fail>
    requires { 1 ≤ leaf }
{
    if !has_all(&cube, points) {
        return Err("a point lies outside".into());
    }
    Ok(build(alloc, points, cube, leaf)?)
}

/// Whether an inner node has the count and the voxels of the octree's.
fn is_same_inner(
    alloc: Global,
    table: &mut CellTable,
    inner: &InnerLevel,
    node: &InnerNode,
) -> Result<bool, AllocError> {
    let voxels = inner.runs().voxels(alloc, table)?;
    Ok(u64::from(inner.count()) == node.count() && voxels.as_slice() == node.voxels())
}

/// How many nodes a node of the levels has with those below it, or None where one of them is not as in
/// the octree: its role, its count here or in the skeleton, a voxel, or a point of a leaf.
fn agreeing_nodes(
    alloc: Global,
    table: &mut CellTable,
    levels: &Levels,
    level: &Level,
    tree: &Tree,
    path: Path,
) -> Option<u32> {
    match (level, tree) {
        (Level::Leaf(kept), Tree::Leaf(leaf)) => {
            let is_same = kept.as_slice() == leaf.points()
                && levels.skeleton().count(&path) == Some(kept.len() as u64);
            is_same.then_some(1)
        }
        (Level::Inner(inner), Tree::Inner(node)) => {
            let counted = levels.skeleton().count(&path) == Some(node.count());
            let same = is_same_inner(alloc, table, inner, node).ok()?;
            if !counted || !same || inner.levels().len() != 8 {
                return None;
            }
            let mut nodes = 1u32;
            for (g, below) in inner.levels().iter().enumerate() {
                if g > 7 || path.len() > 23 {
                    return None;
                }
                let tree = node.trees().get(g)?;
                let path = path.child(g as u8);
                let more = agreeing_nodes(alloc, table, levels, below, tree, path)?;
                nodes = nodes.wrapping_add(more);
            }
            Some(nodes)
        }
        _ => None,
    }
}

/// The levels with a batch of these points more.
fn with_batch(
    levels: Levels,
    alloc: Global,
    cube: &Cube,
    points: Vec<Point>,
) -> Result<Levels, Fail>
    requires { cube.now ≡ levels.skeleton.cube }
    ensures { IfOk result (λ more. cube.now ≡ more.skeleton.cube) }
{
    let Ok(batch) = Batch::new(0, points, cube, 1000) else {
        return Err("no batch".into());
    };
    if levels.total() > 100_000 {
        return Err("too many points".into());
    }
    let Ok(more) = levels.add(alloc, &batch, 100_000) else {
        return Err("refused".into());
    };
    Ok(more)
}

#[test]
fn batches_give_the_octree_of_all_points(rt: HostRuntime) -> Result<(), Fail> {
    let mut dice = Dice::new(2026);
    let mut table = CellTable::new(rt.alloc())?;
    let mut nodes = 0u32;
    for row in &ROWS {
        let cube = Cube::new(0, 0, 0, row.bits).ok_or("fits")?;
        if row.leaf == 0 {
            return Err("no leaf limit".into());
        }
        let mut levels = Levels::new(rt.alloc(), cube, row.leaf)?;
        let mut all = Vec::new(rt.alloc());
        for many in row.sizes {
            let points = draw(rt.alloc(), &mut dice, *many, row.spread)?;
            all.extend_from_slice(&points)?;
            levels = with_batch(levels, rt.alloc(), &cube, points)?;
            let tree = octree_of(rt.alloc(), &all, cube, row.leaf)?;
            let root = levels.root();
            let agreeing = agreeing_nodes(
                rt.alloc(),
                &mut table,
                &levels,
                root,
                &tree,
                Path::root(),
            );
            assert_eq!(rt; agreeing, Some(levels.skeleton().nodes()));
            assert_eq!(rt; levels.total() as usize, all.len());
        }
        nodes = nodes.wrapping_add(levels.skeleton().nodes());
    }
    // On the average an octree of the table is split more than once.
    assert!(rt; nodes as usize > 9 * ROWS.len());
    Ok(())
}

#[test]
fn too_many_nodes_are_refused_and_the_batch_stays(rt: HostRuntime) -> Result<(), Fail> {
    let cube = Cube::new(0, 0, 0, 8).ok_or("fits")?;
    let points = [Point::new(0, 0, 0, 0, 0, 0), Point::new(200, 0, 0, 0, 0, 0)].to_vec(rt.alloc())?;
    let Ok(batch) = Batch::new(0, points, &cube, 10) else {
        return Err("no batch".into());
    };
    let refusal = Levels::new(rt.alloc(), cube, 1)?
        .add(rt.alloc(), &batch, 8)
        .err();
    assert_eq!(rt; refusal, Some(PlanRefusal::NodesFull { need: 9, most: 8 }));
    // The batch has all its points, and goes in where nine nodes are not too many.
    let Ok(levels) = Levels::new(rt.alloc(), cube, 1)?.add(rt.alloc(), &batch, 9) else {
        return Err("refused".into());
    };
    assert_eq!(rt; levels.skeleton().nodes(), 9);
    assert_eq!(rt; levels.total(), 2);
    Ok(())
}
