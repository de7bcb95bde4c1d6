ghost use Rattle.std.specs.Prelude.{◌≡◌, ◌<◌};

use crate::{Batch, BatchRefusal, Cube, Path, Point, first_outside};
use std::alloc::{AllocError, Global};
use std::test::Fail;

/// A white point.
fn white(x: i32, y: i32, z: i32) -> Point
    ensures { result ≡ record { x = x; y = y; z = z; rgb = 16777215 } }
{
    Point::new(x, y, z, 255, 255, 255)
}

/// Why the points are no batch, and what came back, or None where they are one.
fn refused(
    alloc: Global,
    points: &[Point],
    cube: &Cube,
    most: u32,
) -> Result<Option<(BatchRefusal, Vec<Point>)>, AllocError> {
    Ok(Batch::new(0, points.to_vec(alloc)?, cube, most).err())
}

#[test]
fn colour_number_has_red_first(rt: HostRuntime) {
    let p = Point::new(-1, 0, 2147483647, 0xff, 0x80, 1);
    let want = Point {
        x: -1,
        y: 0,
        z: 2147483647,
        rgb: 0xff8001,
    };
    assert_eq!(rt; p, want);
}

#[test]
fn cubes_have_7_to_31_bits_and_end_within_the_space(rt: HostRuntime) {
    for (ox, oy, oz, bits, fits) in [
        (0, 0, 0, 6, false),
        (0, 0, 0, 7, true),
        (0, 0, 0, 31, true),
        (i32::MIN, i32::MIN, i32::MIN, 32, false),
        (i32::MIN, i32::MIN, i32::MIN, 31, true),
        (1, 0, 0, 31, false),
        (2147483520, 0, 0, 7, true),
        (2147483521, 0, 0, 7, false),
        (0, 2147483521, 0, 7, false),
        (0, 0, 2147483521, 7, false),
    ] {
        assert_eq!(rt;
            Cube::new(ox, oy, oz, bits).is_some(),
            fits,
            "at {ox} {oy} {oz} {bits}"
        );
    }
}

#[test]
fn cubes_are_half_open_on_each_axis(rt: HostRuntime) -> Result<(), Fail> {
    let cube = Cube::new(-64, 0, 1000, 7).ok_or("fits")?;
    for (x, y, z, inside) in [
        (-64, 0, 1000, true),
        (63, 127, 1127, true),
        (-65, 0, 1000, false),
        (64, 0, 1000, false),
        (-64, -1, 1000, false),
        (-64, 128, 1000, false),
        (-64, 0, 999, false),
        (-64, 0, 1128, false),
    ] {
        assert_eq!(rt; cube.contains(&white(x, y, z)), inside, "at {x} {y} {z}");
    }
    Ok(())
}

#[test]
fn octants_and_cells_of_points(rt: HostRuntime) -> Result<(), Fail> {
    let cube = Cube::new(-512, 0, 0, 10).ok_or("fits")?;
    for (x, y, z, octant, cell, far) in [
        (-512, 0, 0, 0, 0, 48),
        (-508, 4, 4, 0, 0, 0),
        (0, 0, 0, 1, 64, 48),
        (-512, 512, 0, 2, 8192, 48),
        (-512, 0, 512, 4, 1048576, 48),
        (511, 1023, 1023, 7, 2097151, 27),
    ] {
        let p = white(x, y, z);
        assert!(rt; cube.contains(&p));
        assert_eq!(rt; cube.octant(&p), octant, "octant at {x} {y} {z}");
        assert_eq!(rt; cube.cell(&p), cell, "cell at {x} {y} {z}");
        assert_eq!(rt; cube.far(&p), far, "far at {x} {y} {z}");
    }
    Ok(())
}

#[test]
fn children_are_the_halves_of_a_cube(rt: HostRuntime) -> Result<(), Fail> {
    let cube = Cube::new(-512, 0, 0, 10).ok_or("fits")?;
    assert_eq!(rt; cube.centre(), (0, 512, 512));
    for (octant, ox, oy, oz) in [
        (0u8, -512, 0, 0),
        (1, 0, 0, 0),
        (2, -512, 512, 0),
        (4, -512, 0, 512),
        (7, 0, 512, 512),
    ] {
        assert!(rt; octant < 8);
        let want = Cube::new(ox, oy, oz, 9).ok_or("fits")?;
        assert_eq!(rt; cube.child(octant), want, "octant {octant}");
    }
    Ok(())
}

#[test]
fn paths_keep_their_octants_in_order(rt: HostRuntime) {
    let root = Path::root();
    assert_eq!(rt; root.len(), 0);
    let path = root.child(3).child(0).child(7);
    assert_eq!(rt; path.len(), 3);
    assert_eq!(rt; path.octant(0), 3);
    assert_eq!(rt; path.octant(1), 0);
    assert_eq!(rt; path.octant(2), 7);
    assert!(rt; root < path, "a node stands before its children");
    assert!(rt; path < root.child(4), "and before its next sibling");
}

#[test]
fn batches_are_refused_as_empty_too_long_or_outside(rt: HostRuntime) -> Result<(), Fail> {
    let cube = Cube::new(0, 0, 0, 7).ok_or("fits")?;
    let points = [white(127, 0, 0), white(128, 0, 0), white(0, -1, 0)];
    assert_eq!(rt; first_outside(&points, &cube), Some(1));
    assert_eq!(rt; first_outside(&points[..1], &cube), None);
    for (n, most, want) in [
        (0usize, 0, BatchRefusal::Empty),
        (2, 1, BatchRefusal::TooMany { n: 2, most: 1 }),
        (2, 2, BatchRefusal::Outside { at: 1 }),
        (3, 4, BatchRefusal::Outside { at: 1 }),
    ] {
        assert!(rt; n <= 3);
        let first = &points[..n];
        let (refusal, back) = refused(rt.alloc(), first, &cube, most)?.ok_or("a batch")?;
        assert_eq!(rt; refusal, want);
        assert_eq!(rt; back.as_slice(), first, "at {want:?}");
    }
    Ok(())
}

#[test]
fn batches_as_long_as_their_bound_keep_their_parts(rt: HostRuntime) -> Result<(), Fail> {
    let cube = Cube::new(0, 0, 0, 7).ok_or("fits")?;
    let points = [white(0, 0, 0), white(127, 127, 127)];
    let batch = Batch::new(5, points.to_vec(rt.alloc())?, &cube, 2)
        .ok()
        .ok_or("a batch")?;
    assert_eq!(rt; batch.input(), 5);
    assert_eq!(rt; batch.points(), points.as_slice());
    assert_eq!(rt; batch.cube(), cube);
    assert_eq!(rt; batch.most(), 2);
    Ok(())
}
