ghost use Rattle.std.specs.Prelude.{All, IsTrue};
ghost use Rattle.cube_math.specs.Cubes.{contains};

use crate::{CellTable, LeastRun, Near, is_join_due};
use cube_math::{Cube, Point};
use dice::Dice;
use octree_model::Voxel;
use octree_plain::{Tree, build};
use std::alloc::{AllocError, Global};
use std::sync::Arc;
use std::test::Fail;

fn has_all(cube: &Cube, points: &[Point]) -> bool
    ensures { IsTrue result → All (λ p. IsTrue (contains cube.now p)) points.now }
{
    points.iter().all(|p| cube.contains(p))
}

/// The run of points that the cube has.
fn run(
    alloc: Global,
    table: &mut CellTable,
    cube: &Cube,
    points: &[Point],
) -> Result<Arc<LeastRun>, Fail> {
    if cube.bits < 8 || !has_all(cube, points) {
        return Err("a point lies outside".into());
    }
    let run = table.run_of(alloc, cube, points)?;
    Ok(Arc::new(alloc, run)?)
}

/// A point on the first axis.
fn point(x: i32, rgb: [u8; 3]) -> Point {
    Point::new(x, 0, 0, rgb[0], rgb[1], rgb[2])
}

/// A cube of side 256, whose cells have side 2.
const CUBE: Cube = Cube {
    ox: 0,
    oy: 0,
    oz: 0,
    bits: 8,
};

const WHITE: [u8; 3] = [255, 255, 255];

const RED: [u8; 3] = [255, 0, 0];

const BLUE: [u8; 3] = [0, 0, 255];

#[test]
fn the_nearer_point_of_a_cell_gives_the_key(rt: HostRuntime) -> Result<(), Fail> {
    let mut table = CellTable::new(rt.alloc())?;
    // The cell's middle is at 1 on each axis.
    let points = [point(0, BLUE), point(1, RED), point(0, WHITE)];
    let run = run(rt.alloc(), &mut table, &CUBE, &points)?;
    let key = Near {
        far: 2,
        cell: 0,
        rgb: 0xff0000,
    };
    assert_eq!(rt; run.nears(), [key].as_slice());
    Ok(())
}

#[test]
fn equally_near_points_give_the_least_colour_number(rt: HostRuntime) -> Result<(), Fail> {
    let mut table = CellTable::new(rt.alloc())?;
    let points = [point(3, WHITE), point(3, BLUE), point(3, RED)];
    let run = run(rt.alloc(), &mut table, &CUBE, &points)?;
    let voxels = table.voxels_of(rt.alloc(), &[run])?;
    let blue = Voxel {
        cell: 1,
        rgb: 0x0000ff,
    };
    assert_eq!(rt; voxels.as_slice(), [blue].as_slice());
    Ok(())
}

#[test]
fn cells_come_in_ascending_order(rt: HostRuntime) -> Result<(), Fail> {
    let mut table = CellTable::new(rt.alloc())?;
    let points = [
        Point::new(255, 255, 255, 0, 0, 1),
        Point::new(0, 2, 0, 0, 0, 2),
        Point::new(0, 0, 2, 0, 0, 3),
        Point::new(255, 0, 0, 0, 0, 4),
    ];
    let run = run(rt.alloc(), &mut table, &CUBE, &points)?;
    let mut cells = Vec::new(rt.alloc());
    for near in run.nears() {
        cells.push(near.cell)?;
    }
    assert_eq!(rt; cells.as_slice(), [127, 128, 16_384, 2_097_151].as_slice());
    Ok(())
}

#[test]
fn no_points_and_no_runs_give_no_voxels(rt: HostRuntime) -> Result<(), Fail> {
    let mut table = CellTable::new(rt.alloc())?;
    let none = run(rt.alloc(), &mut table, &CUBE, &[])?;
    assert!(rt; none.nears().is_empty());
    assert!(rt; table.voxels_of(rt.alloc(), &[])?.is_empty());
    assert!(rt; table.voxels_of(rt.alloc(), &[none])?.is_empty());
    Ok(())
}

#[test]
fn a_join_takes_the_lesser_key_whichever_run_has_it(rt: HostRuntime) -> Result<(), Fail> {
    let mut table = CellTable::new(rt.alloc())?;
    let white = run(
        rt.alloc(),
        &mut table,
        &CUBE,
        &[point(0, WHITE), point(4, RED)],
    )?;
    let blue = run(
        rt.alloc(),
        &mut table,
        &CUBE,
        &[point(1, BLUE), point(5, RED)],
    )?;
    let nearest = [
        Near {
            far: 2,
            cell: 0,
            rgb: 0x0000ff,
        },
        Near {
            far: 2,
            cell: 2,
            rgb: 0xff0000,
        },
    ];
    let joined = table.join(rt.alloc(), &[white.clone()?, blue.clone()?])?;
    assert_eq!(rt; joined.nears(), nearest.as_slice());
    let joined = table.join(rt.alloc(), &[blue, white])?;
    assert_eq!(rt; joined.nears(), nearest.as_slice());
    Ok(())
}

/// A run with so many cells.
fn run_of_cells(alloc: Global, table: &mut CellTable, many: usize) -> Result<Arc<LeastRun>, Fail> {
    let mut points = Vec::new(alloc);
    for at in 0..many {
        let x = (at % 128 * 2) as i32;
        let y = (at / 128 % 128 * 2) as i32;
        points.push(Point::new(x, y, 0, 0, 0, 0))?;
    }
    run(alloc, table, &CUBE, &points)
}

#[test]
fn runs_are_joined_at_1024_entries_more_or_64_runs(rt: HostRuntime) -> Result<(), Fail> {
    let mut table = CellTable::new(rt.alloc())?;
    assert!(rt; !is_join_due(&[]));
    let first = run_of_cells(rt.alloc(), &mut table, 3)?;
    let short = run_of_cells(rt.alloc(), &mut table, 1026)?;
    let long = run_of_cells(rt.alloc(), &mut table, 1027)?;
    let one = run_of_cells(rt.alloc(), &mut table, 1)?;
    assert_eq!(rt; long.nears().len(), 1027);
    assert!(rt; !is_join_due(&[first.clone()?]));
    assert!(rt; !is_join_due(&[first.clone()?, short.clone()?]));
    assert!(rt; is_join_due(&[first.clone()?, long]));
    assert!(rt; is_join_due(&[first, short, one.clone()?]));
    let mut many = Vec::new(rt.alloc());
    for _run in 0..63usize {
        many.push(one.clone()?)?;
    }
    assert!(rt; !is_join_due(&many));
    many.push(one)?;
    assert!(rt; is_join_due(&many));
    Ok(())
}

/// So many points of the cube in few cells or in many, in one of four colours.
fn draw(
    alloc: Global,
    dice: &mut Dice,
    many: usize,
    side: usize,
) -> Result<Vec<Point>, AllocError> {
    let mut points = Vec::new(alloc);
    for _point in 0..many {
        points.push(Point::new(
            dice.below(side % 257) as i32,
            dice.below(side % 257) as i32,
            dice.below(side % 257) as i32,
            0,
            0,
            dice.below(4) as u8,
        ))?;
    }
    Ok(points)
}

/// The voxels that `build` gives the root of these points.
fn root_voxels(alloc: Global, points: &[Point]) -> Result<Vec<Voxel>, Fail> {
    if !has_all(&CUBE, points) {
        return Err("a point lies outside".into());
    }
    match build(alloc, points, CUBE, 1)? {
        Tree::Inner(node) => Ok(node.voxels().to_vec(alloc)?),
        Tree::Leaf(_) => Err("the root is a leaf".into()),
    }
}

/// The runs of the points, cut at random; now and then those so far are joined, and the last one comes first.
fn cut_runs(
    alloc: Global,
    table: &mut CellTable,
    dice: &mut Dice,
    points: &[Point],
) -> Result<Vec<Arc<LeastRun>>, Fail> {
    let mut runs = Vec::new(alloc);
    let size = 1 + dice.below(40);
    for part in points.chunks(size) {
        runs.push(run(alloc, table, &CUBE, part)?)?;
        runs.reverse();
        if dice.below(4) == 0 {
            let joined = table.join(alloc, &runs)?;
            runs.clear();
            runs.push(Arc::new(alloc, joined)?)?;
        }
    }
    Ok(runs)
}

#[test]
fn cuts_into_runs_give_the_voxels_of_build(rt: HostRuntime) -> Result<(), Fail> {
    let mut table = CellTable::new(rt.alloc())?;
    let mut dice = Dice::new(2028);
    for side in [2, 8, 40, 256usize] {
        for _cut in 0..3usize {
            let points = draw(rt.alloc(), &mut dice, 120, side)?;
            let runs = cut_runs(rt.alloc(), &mut table, &mut dice, &points)?;
            let voxels = table.voxels_of(rt.alloc(), &runs)?;
            let expected = root_voxels(rt.alloc(), &points)?;
            assert_eq!(rt; voxels.as_slice(), expected.as_slice());
        }
    }
    Ok(())
}
