use crate::{Canvas, Frame, Item, Spot, leaf_items, ppm, project, splat, voxel_items};
use camera_cut::{Camera, CameraNumbers};
use cube_math::{Cube, Point};
use octree_model::Voxel;
use std::test::Fail;

/// A camera at the origin that looks along the third axis.
const AHEAD: CameraNumbers = CameraNumbers {
    pos: [0, 0, 0],
    rows: [1024, 0, 0, 0, 1024, 0, 0, 0, 1024],
    focal: 10,
    near: 5,
    width: 3,
    height: 3,
    threshold: 128,
    dot: 1,
};

fn camera(numbers: CameraNumbers) -> Result<Camera, Fail> {
    Ok(Camera::new(numbers).map_err(|_| "a camera")?)
}

fn point(x: i32, y: i32, z: i32) -> Item {
    Item {
        x,
        y,
        z,
        side: 0,
        rgb: 0x00_ff_00,
    }
}

#[test]
fn the_nearest_item_is_seen_and_of_equal_depths_the_lesser_colour(
    rt: HostRuntime,
) -> Result<(), Fail> {
    let camera = camera(CameraNumbers {
        pos: [100, 100, 100],
        ..AHEAD
    })?;
    let points = [
        Point::new(100, 100, 105, 255, 0, 0),
        Point::new(100, 100, 104, 0, 0, 1),
        Point::new(100, 100, 50, 0, 0, 2),
        Point::new(101, 100, 110, 0, 255, 0),
        Point::new(101, 100, 110, 0, 0, 255),
        Point::new(99, 100, 130, 128, 128, 128),
    ];
    let mut items = Vec::new(rt.alloc());
    leaf_items(&points, &mut items)?;
    let frame = splat(rt.alloc(), items.as_slice(), &camera)?;
    let black = 0;
    assert_eq!(rt;
        frame.colours(),
        [
            black, black, black, 0x80_80_80, 0xff_00_00, 0x00_00_ff, black, black, black
        ]
        .as_slice()
    );
    Ok(())
}

#[test]
fn a_picture_of_one_pixel_has_fourteen_bytes(rt: HostRuntime) -> Result<(), Fail> {
    let mut colours = Vec::new(rt.alloc());
    colours.push(0x01_80_ff)?;
    let bytes = ppm(rt.alloc(), &Frame::new(1, 1, colours))?;
    assert_eq!(rt; bytes.as_slice(), b"P6\n1 1\n255\n\x01\x80\xff".as_slice());
    Ok(())
}

#[test]
fn an_item_on_the_near_plane_is_drawn_and_one_before_it_is_not(
    rt: HostRuntime,
) -> Result<(), Fail> {
    let camera = camera(AHEAD)?;
    let drawn = Spot {
        left: 1,
        top: 1,
        side: 1,
        key: (5 << 24) + 0x00_ff_00,
    };
    assert_eq!(rt; project(&point(0, 0, 5), &camera), Some(drawn));
    assert_eq!(rt; project(&point(0, 0, 4), &camera), None);
    assert_eq!(rt; project(&point(0, 0, -5), &camera), None);
    Ok(())
}

#[test]
fn middles_are_rounded_down_on_both_sides(rt: HostRuntime) -> Result<(), Fail> {
    let camera = camera(AHEAD)?;
    // 10 * 1 / 6 is 1 and 2 thirds: one pixel to the right, two to the left.
    let right = project(&point(1, -1, 6), &camera).ok_or("drawn")?;
    assert_eq!(rt; (right.left, right.top), (2, -1));
    Ok(())
}

#[test]
fn a_voxel_is_drawn_round_the_middle_of_its_cell(rt: HostRuntime) -> Result<(), Fail> {
    let cube = Cube::new(-512, -512, 100, 10).ok_or("fits")?;
    let voxel = Voxel {
        cell: 65 + 128 * 64,
        rgb: 7,
    };
    let mut items = Vec::new(rt.alloc());
    voxel_items(&cube, &[voxel], &mut items)?;
    let item = Item {
        x: 12,
        y: 4,
        z: 104,
        side: 8,
        rgb: 7,
    };
    assert_eq!(rt; items.as_slice(), [item].as_slice());
    let wide = camera(CameraNumbers {
        focal: 26,
        width: 8,
        height: 8,
        ..AHEAD
    })?;
    let spot = Spot {
        left: 6,
        top: 4,
        side: 2,
        key: (104 << 24) + 7,
    };
    assert_eq!(rt; project(&item, &wide), Some(spot));
    Ok(())
}

#[test]
fn squares_are_cut_at_the_edges_of_the_picture(rt: HostRuntime) -> Result<(), Fail> {
    let camera = camera(CameraNumbers { dot: 2, ..AHEAD })?;
    let corner = Item {
        x: -5,
        y: 5,
        z: 50,
        side: 0,
        rgb: 9,
    };
    let mut canvas = Canvas::new(rt.alloc(), &camera)?;
    canvas.draw_items(&[corner]);
    let frame = canvas.frame(rt.alloc())?;
    assert_eq!(rt; frame.colours(), [0, 0, 0, 9, 0, 0, 9, 0, 0].as_slice());
    Ok(())
}

#[test]
fn the_farthest_item_at_the_ends_of_all_ranges_is_projected(rt: HostRuntime) -> Result<(), Fail> {
    let camera = camera(CameraNumbers {
        pos: [i32::MIN, i32::MIN, i32::MIN],
        rows: [1024, 1024, 1024, -1024, -1024, -1024, 1024, 1024, 1024],
        focal: 65_536,
        near: 1_000_000_000,
        width: 4096,
        height: 4096,
        threshold: 65_536,
        dot: 64,
    })?;
    let far = Item {
        x: i32::MAX,
        y: i32::MAX,
        z: i32::MAX,
        side: 0,
        rgb: 0xff_ff_ff,
    };
    let spot = Spot {
        left: 2048 + 65_536 - 32,
        top: 2048 - 65_536 - 32,
        side: 64,
        key: (12_884_901_885 << 24) + 0xff_ff_ff,
    };
    assert_eq!(rt; project(&far, &camera), Some(spot));
    Ok(())
}
