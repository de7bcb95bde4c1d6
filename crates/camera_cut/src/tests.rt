use crate::{Camera, CameraFault, CameraField, CameraNumbers, cut_of};
use cube_math::{Cube, Path};
use octree_model::OutlineNode;
use std::test::Fail;

/// A camera at the origin that looks along the third axis, with every number at the least of its range.
const LEAST: CameraNumbers = CameraNumbers {
    pos: [0, 0, 0],
    rows: [1024, 0, 0, 0, 1024, 0, 0, 0, 1024],
    focal: 1,
    near: 1,
    width: 1,
    height: 1,
    threshold: 1,
    dot: 1,
};

/// The field that is out of its range, if one is.
fn fault(numbers: CameraNumbers) -> Option<CameraField> {
    Camera::new(numbers).err().map(|fault| fault.field)
}

#[test]
fn numbers_at_the_ends_of_their_ranges_are_a_cameras(rt: HostRuntime) -> Result<(), Fail> {
    let greatest = CameraNumbers {
        pos: [i32::MIN, i32::MAX, 0],
        rows: [1024, -1024, 0, 0, 1024, -1024, -1024, 0, 1024],
        focal: 65_536,
        near: 1_000_000_000,
        width: 4096,
        height: 4096,
        threshold: 65_536,
        dot: 64,
    };
    assert_eq!(rt; Camera::new(LEAST).map_err(|_| "least")?.numbers(), LEAST);
    assert_eq!(rt;
        Camera::new(greatest).map_err(|_| "greatest")?.numbers(),
        greatest
    );
    Ok(())
}

#[test]
fn numbers_past_the_ends_are_refused_by_field(rt: HostRuntime) {
    let low = [0, 0, 0, 0, 0, 0, 0, 0, -1025];
    let high = [1025, 0, 0, 0, 0, 0, 0, 0, 0];
    for (numbers, field) in [
        (CameraNumbers { rows: low, ..LEAST }, CameraField::Rows),
        (
            CameraNumbers {
                rows: high,
                ..LEAST
            },
            CameraField::Rows,
        ),
        (CameraNumbers { focal: 0, ..LEAST }, CameraField::Focal),
        (
            CameraNumbers {
                focal: 65_537,
                ..LEAST
            },
            CameraField::Focal,
        ),
        (CameraNumbers { near: 0, ..LEAST }, CameraField::Near),
        (
            CameraNumbers {
                near: 1_000_000_001,
                ..LEAST
            },
            CameraField::Near,
        ),
        (CameraNumbers { width: 0, ..LEAST }, CameraField::Width),
        (
            CameraNumbers {
                width: 4097,
                ..LEAST
            },
            CameraField::Width,
        ),
        (CameraNumbers { height: 0, ..LEAST }, CameraField::Height),
        (
            CameraNumbers {
                height: 4097,
                ..LEAST
            },
            CameraField::Height,
        ),
        (
            CameraNumbers {
                threshold: 0,
                ..LEAST
            },
            CameraField::Threshold,
        ),
        (
            CameraNumbers {
                threshold: 65_537,
                ..LEAST
            },
            CameraField::Threshold,
        ),
        (CameraNumbers { dot: 0, ..LEAST }, CameraField::Dot),
        (CameraNumbers { dot: 65, ..LEAST }, CameraField::Dot),
    ] {
        assert_eq!(rt; fault(numbers), Some(field));
    }
}

#[test]
fn the_first_field_out_of_range_is_named(rt: HostRuntime) {
    let numbers = CameraNumbers {
        near: 0,
        width: 0,
        dot: 0,
        ..LEAST
    };
    let fault = Camera::new(numbers).err();
    assert_eq!(rt;
        fault,
        Some(CameraFault {
            field: CameraField::Near
        })
    );
}

#[test]
fn places_are_rounded_down(rt: HostRuntime) -> Result<(), Fail> {
    let camera = Camera::new(CameraNumbers {
        pos: [10, 0, 0],
        rows: [1, 0, 0, 0, -1, 0, 1023, 0, 1],
        ..LEAST
    })
    .map_err(|_| "a camera")?;
    assert_eq!(rt; camera.place(9, 1, 0), (-1, -1, -1));
    assert_eq!(rt; camera.place(11, -1023, 1), (0, 0, 1));
    Ok(())
}

#[test]
fn the_farthest_place_is_told(rt: HostRuntime) -> Result<(), Fail> {
    let camera = Camera::new(CameraNumbers {
        pos: [i32::MIN, i32::MIN, i32::MIN],
        rows: [1024, 1024, 1024, -1024, -1024, -1024, 0, 0, 1024],
        ..LEAST
    })
    .map_err(|_| "a camera")?;
    let far = camera.place(i32::MAX, i32::MAX, i32::MAX);
    assert_eq!(rt; far, (12_884_901_885, -12_884_901_885, 4_294_967_295));
    Ok(())
}

#[test]
fn a_cube_refines_where_it_appears_larger_than_the_threshold(rt: HostRuntime) -> Result<(), Fail> {
    let camera = Camera::new(CameraNumbers {
        focal: 10,
        near: 5,
        threshold: 2,
        ..LEAST
    })
    .map_err(|_| "a camera")?;
    // The middle of the cube has the depth z + 64, and z - 64 counts as its nearest depth.
    for (z, refines) in [
        (-188, false),
        (-187, true),
        (0, true),
        (703, true),
        (704, false),
    ] {
        let cube = Cube::new(-64, -64, z, 7).ok_or("fits")?;
        assert_eq!(rt; camera.refines(&cube), refines, "at {z}");
    }
    Ok(())
}

#[test]
fn a_leaf_alone_is_its_cut(rt: HostRuntime) -> Result<(), Fail> {
    let camera = Camera::new(LEAST).map_err(|_| "a camera")?;
    let root = OutlineNode {
        path: Path::root(),
        cube: Cube::new(0, 0, 0, 7).ok_or("fits")?,
        inner: false,
    };
    let cut = cut_of(rt.alloc(), &[root], &camera)?;
    assert_eq!(rt; cut.nodes(), [root].as_slice());
    Ok(())
}
