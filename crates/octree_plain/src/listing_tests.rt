ghost use Rattle.std.specs.Prelude.{◌<◌, ◌^◌, All, IsTrue, length};
ghost use Rattle.cube_math.specs.Cubes.{contains};

use crate::growth_tests::has_all;
use crate::{build, fit_cube, nodes_text};
use cube_math::{Cube, Point};
use std::alloc::{AllocError, Global};
use std::test::Fail;

fn white(x: i32, y: i32, z: i32) -> Point {
    Point {
        x,
        y,
        z,
        rgb: 0xffffff,
    }
}

/// The text of the octree with leaves of at most two points.
fn text(alloc: Global, points: &[Point], cube: Cube, voxels: bool) -> Result<Vec<u8>, AllocError>
    requires contained { All (λ p. IsTrue (contains cube p)) points.now }
    requires few { length points.now < 2 ^ 32 }
{
    let tree = build(alloc, points, cube, 2)?;
    nodes_text(alloc, &tree, &cube, voxels)
}

/// The same in the cube that fits the points.
fn fitted_text(alloc: Global, points: &[Point], voxels: bool) -> Result<Vec<u8>, Fail>
    requires { length points.now < 2 ^ 32 }
{
    let cube = fit_cube(points)?;
    Ok(text(alloc, points, cube, voxels)?)
}

#[test]
fn no_points_are_one_leaf(rt: HostRuntime) -> Result<(), Fail> {
    let text = fitted_text(rt.alloc(), &[], true)?;
    assert_eq!(rt;
        text.as_slice(),
        "cube 0 0 0 7\nr leaf 0\nnodes 1 points 0\n".as_bytes()
    );
    Ok(())
}

#[test]
fn one_point_more_than_the_limit_splits(rt: HostRuntime) -> Result<(), Fail> {
    let points = [white(0, 0, 0), white(1, 0, 0), white(200, 0, 0)];
    let below =
        "r0 leaf 2\nr1 leaf 1\nr2 leaf 0\nr3 leaf 0\nr4 leaf 0\nr5 leaf 0\nr6 leaf 0\nr7 leaf 0\n";
    let plain = format!(in rt.alloc(); "cube 0 0 0 8\nr inner 3 2\n{below}nodes 9 points 3\n")?;
    assert_eq!(rt;
        fitted_text(rt.alloc(), &points, false)?.as_slice(),
        plain.as_bytes()
    );
    let whole = format!(in rt.alloc();
        "cube 0 0 0 8\nr inner 3 2\nv 0 ffffff\nv 100 ffffff\n{below}nodes 9 points 3\n"
    )?;
    assert_eq!(rt;
        fitted_text(rt.alloc(), &points, true)?.as_slice(),
        whole.as_bytes()
    );
    Ok(())
}

#[test]
fn as_many_points_as_the_limit_stay_a_leaf(rt: HostRuntime) -> Result<(), Fail> {
    let low = white(0, 0, 0);
    let high = white(200, 0, 0);
    let once = fitted_text(rt.alloc(), &[low, high], false)?;
    assert_eq!(rt;
        once.as_slice(),
        "cube 0 0 0 8\nr leaf 2\nnodes 1 points 2\n".as_bytes()
    );
    let twice = fitted_text(rt.alloc(), &[low, high, low, high], false)?;
    let lines =
        "cube 0 0 0 8\nr inner 4 2\nr0 leaf 2\nr1 leaf 2\nr2 leaf 0\nr3 leaf 0\nr4 leaf 0\nr5 leaf 0\nr6 leaf 0\nr7 leaf 0\nnodes 9 points 4\n";
    assert_eq!(rt; twice.as_slice(), lines.as_bytes());
    Ok(())
}

#[test]
fn a_cube_of_seven_bits_stays_a_leaf(rt: HostRuntime) -> Result<(), Fail> {
    let five = fitted_text(rt.alloc(), &[white(9, 9, 9); 5], false)?;
    assert_eq!(rt;
        five.as_slice(),
        "cube 9 9 9 7\nr leaf 5\nnodes 1 points 5\n".as_bytes()
    );
    Ok(())
}

#[test]
fn splits_go_down_to_seven_bits(rt: HostRuntime) -> Result<(), Fail> {
    let points = [white(0, 0, 0); 5];
    let cube = Cube {
        ox: 0,
        oy: 0,
        oz: 0,
        bits: 10,
    };
    assert!(rt; has_all(&cube, &points));
    let mut lines = String::from_str(
        rt.alloc(),
        "cube 0 0 0 10\nr inner 5 1\nr0 inner 5 1\nr00 inner 5 1\nr000 leaf 5\n",
    )?;
    for path in ["r00", "r0", "r"] {
        for octant in 1..8u8 {
            writeln!(lines, "{path}{octant} leaf 0")?;
        }
    }
    lines.push_str("nodes 25 points 5\n")?;
    let whole = text(rt.alloc(), &points, cube, false)?;
    assert_eq!(rt; whole.as_slice(), lines.as_bytes());
    Ok(())
}
