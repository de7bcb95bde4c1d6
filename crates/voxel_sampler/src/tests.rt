ghost use Rattle.std.specs.Prelude.{All, IsTrue};
ghost use Rattle.cube_math.specs.Cubes.{contains};

use crate::{Best, Near, merge, prepare};
use cube_math::{Cube, Point};
use dice::Dice;
use occupancy_grid::Grid;
use octree_model::Voxel;
use std::alloc::{AllocError, Global};
use std::test::Fail;

fn has_all(cube: &Cube, points: &[Point]) -> bool
    ensures { IsTrue result → All (λ p. IsTrue (contains cube.now p)) points.now }
{
    points.iter().all(|p| cube.contains(p))
}

#[test]
fn the_nearer_point_colours_the_cell(rt: HostRuntime) -> Result<(), Fail> {
    let cube = Cube {
        ox: 0,
        oy: 0,
        oz: 0,
        bits: 8,
    };
    let points = [
        Point::new(0, 0, 0, 255, 255, 255),
        Point::new(1, 0, 0, 255, 0, 0),
    ];
    assert!(rt; has_all(&cube, &points));
    let mut grid = Grid::new(rt.alloc())?;
    let mut best = Best::new(rt.alloc());
    let ready = prepare(rt.alloc(), &mut grid, &best, &cube, &points)?;
    assert_eq!(rt; grid.count(), 0);
    assert!(rt; grid.has_page(0));
    let run = merge(&mut grid, &mut best, ready);
    let red = Voxel {
        cell: 0,
        rgb: 0xff0000,
    };
    assert_eq!(rt; run.voxels(), [red].as_slice());
    assert!(rt; grid.test(0));
    let again = [points[1]];
    assert!(rt; has_all(&cube, &again));
    let ready = prepare(rt.alloc(), &mut grid, &best, &cube, &again)?;
    let run = merge(&mut grid, &mut best, ready);
    assert!(rt; run.voxels().is_empty());
    assert_eq!(rt; grid.count(), 1);
    Ok(())
}

/// A point in a cube of side 256 at the origin, whose cells have side 2.
#[derive(Clone, Copy)]
struct Spot {
    x: u8,
    y: u8,
    z: u8,
    rgb: u8,
}

impl Spot {
    fn cell(&self) -> u32 {
        u32::from(self.x / 2) + 128 * u32::from(self.y / 2) + 16384 * u32::from(self.z / 2)
    }

    /// The middle of a cell is odd on each axis: an even coordinate lies 1 from it, an odd one 0.
    fn far(&self) -> u64 {
        u64::from(1 - self.x % 2) + u64::from(1 - self.y % 2) + u64::from(1 - self.z % 2)
    }

    fn is_key_of(&self, near: &Near) -> bool {
        self.cell() == near.cell && self.far() == near.far && u32::from(self.rgb) == near.rgb
    }

    fn lies_below(&self, near: &Near) -> bool {
        self.cell() == near.cell
            && (self.far() < near.far || self.far() == near.far && u32::from(self.rgb) < near.rgb)
    }
}

/// Draws some spots and appends them to those drawn before. They lie in 64 cells, so that cells meet often.
fn draw(alloc: Global, dice: &mut Dice, spots: &mut Vec<Spot>) -> Result<Vec<Point>, AllocError> {
    let mut points = Vec::new(alloc);
    for _point in 0..20usize {
        let spot = Spot {
            x: dice.below(8) as u8,
            y: dice.below(8) as u8,
            z: dice.below(8) as u8,
            rgb: dice.below(8) as u8,
        };
        spots.push(spot)?;
        points.push(Point::new(
            i32::from(spot.x),
            i32::from(spot.y),
            i32::from(spot.z),
            0,
            0,
            spot.rgb,
        ))?;
    }
    Ok(points)
}

/// Whether the keys are those of the spots, computed afresh: a key of each cell in which a spot lies, no
/// other, and each the least.
fn are_least(nears: &[Near], spots: &[Spot]) -> bool {
    spots
        .iter()
        .all(|s| nears.iter().any(|n| n.cell == s.cell()))
        && nears.iter().all(|n| spots.iter().any(|s| s.is_key_of(n)))
        && nears.iter().all(|n| !spots.iter().any(|s| s.lies_below(n)))
}

/// Whether the last entry of each cell has the colour of its least key.
fn are_last_colours(entries: &[Voxel], nears: &[Near]) -> bool {
    nears.iter().all(|n| {
        entries
            .iter()
            .rev()
            .find(|v| v.cell == n.cell)
            .is_some_and(|v| v.rgb == n.rgb)
    })
}

#[test]
fn batches_give_what_all_points_give(rt: HostRuntime) -> Result<(), Fail> {
    let cube = Cube {
        ox: 0,
        oy: 0,
        oz: 0,
        bits: 8,
    };
    let mut grid = Grid::new(rt.alloc())?;
    let mut best = Best::new(rt.alloc());
    let mut dice = Dice::new(2024);
    let mut spots = Vec::new(rt.alloc());
    let mut entries = Vec::new(rt.alloc());
    for _batch in 0..8usize {
        let points = draw(rt.alloc(), &mut dice, &mut spots)?;
        assert!(rt; has_all(&cube, &points));
        let ready = prepare(rt.alloc(), &mut grid, &best, &cube, &points)?;
        let run = merge(&mut grid, &mut best, ready);
        entries.extend_from_slice(run.voxels())?;
        assert!(rt; are_least(best.list(), &spots));
        assert!(rt; are_last_colours(&entries, best.list()));
        assert_eq!(rt; grid.count() as usize, best.list().len());
    }
    Ok(())
}
