use crate::{Part, SharedCanvas, splat_parallel};
use camera_cut::{Camera, CameraNumbers, Item};
use cube_math::{Cube, Point};
use dice::Dice;
use octree_model::Voxel;
use splat_ppm::{leaf_items, splat, voxel_items};
use std::alloc::Global;
use std::test::Fail;

/// A camera at the origin that looks along the third axis.
const AHEAD: CameraNumbers = CameraNumbers {
    pos: [0, 0, 0],
    rows: [1024, 0, 0, 0, 1024, 0, 0, 0, 1024],
    focal: 10,
    near: 5,
    width: 3,
    height: 3,
    threshold: 128,
    dot: 1,
};

fn camera(numbers: CameraNumbers) -> Result<Camera, Fail> {
    Ok(Camera::new(numbers).map_err(|_| "a camera")?)
}

/// Items that lie about before a camera, of which some cover many pixels.
fn scattered(alloc: Global, count: u32) -> Result<Vec<Item>, Fail> {
    let mut dice = Dice::new(7);
    let mut items = Vec::new(alloc);
    for _ in 0..count {
        items.push(Item {
            x: dice.below(1000) as i32 - 500,
            y: dice.below(1000) as i32 - 500,
            z: dice.below(1000) as i32,
            side: dice.below(30) as u32,
            rgb: dice.below(1 << 24) as u32,
        })?;
    }
    Ok(items)
}

#[test]
fn one_three_and_sixteen_workers_draw_the_nearest_item_and_the_lesser_colour(
    rt: HostRuntime,
) -> Result<(), Fail> {
    let camera = camera(CameraNumbers {
        pos: [100, 100, 100],
        ..AHEAD
    })?;
    let points = [
        Point::new(100, 100, 105, 255, 0, 0),
        Point::new(100, 100, 104, 0, 0, 1),
        Point::new(100, 100, 50, 0, 0, 2),
        Point::new(101, 100, 110, 0, 255, 0),
        Point::new(101, 100, 110, 0, 0, 255),
        Point::new(99, 100, 130, 128, 128, 128),
    ];
    let mut items = Vec::new(rt.alloc());
    leaf_items(&points, &mut items)?;
    for workers in [1, 3, 16] {
        let frame = splat_parallel(&rt, rt.alloc(), items.as_slice(), &camera, workers)?;
        assert_eq!(rt;
            frame.colours(),
            [0, 0, 0, 0x80_80_80, 0xff_00_00, 0x00_00_ff, 0, 0, 0].as_slice()
        );
    }
    Ok(())
}

#[test]
fn scattered_items_give_the_frame_of_one_thread(rt: HostRuntime) -> Result<(), Fail> {
    let camera = camera(CameraNumbers {
        focal: 100,
        width: 64,
        height: 48,
        ..AHEAD
    })?;
    let items = scattered(rt.alloc(), 1001)?;
    let alone = splat(rt.alloc(), items.as_slice(), &camera)?;
    let together = splat_parallel(&rt, rt.alloc(), items.as_slice(), &camera, 4)?;
    assert_eq!(rt; together.colours(), alone.colours());
    Ok(())
}

#[test]
fn a_frame_of_no_items_is_black_and_a_worker_may_have_none(rt: HostRuntime) -> Result<(), Fail> {
    let camera = camera(AHEAD)?;
    let black = splat_parallel(&rt, rt.alloc(), &[], &camera, 4)?;
    assert_eq!(rt; black.colours(), [0; 9].as_slice());
    let item = Item {
        x: 0,
        y: 0,
        z: 5,
        side: 0,
        rgb: 9,
    };
    let one = splat_parallel(&rt, rt.alloc(), &[item], &camera, 16)?;
    assert_eq!(rt; one.colours(), [0, 0, 0, 0, 9, 0, 0, 0, 0].as_slice());
    Ok(())
}

#[test]
fn parts_are_drawn_on_a_canvas_that_is_used_again(rt: HostRuntime) -> Result<(), Fail> {
    let camera = camera(CameraNumbers {
        focal: 26,
        width: 8,
        height: 8,
        ..AHEAD
    })?;
    let cube = Cube::new(-512, -512, 100, 10).ok_or("fits")?;
    let voxels = [Voxel {
        cell: 65 + 128 * 64,
        rgb: 7,
    }];
    let points = [Point::new(0, 0, 50, 0, 0, 1), Point::new(3, 3, 30, 0, 0, 2)];
    let mut items = Vec::new(rt.alloc());
    voxel_items(&cube, &voxels, &mut items)?;
    leaf_items(&points, &mut items)?;
    let alone = splat(rt.alloc(), items.as_slice(), &camera)?;
    let mut canvas = SharedCanvas::new(rt.alloc(), &camera)?;
    canvas.draw(&rt, &[Part::Items(items.as_slice())], 2);
    canvas.clear(&camera);
    canvas.draw(&rt, &[Part::Voxels(cube, &voxels)], 2);
    canvas.draw(&rt, &[Part::Points(&points)], 2);
    let frame = canvas.frame(rt.alloc())?;
    assert_eq!(rt; frame.colours(), alone.colours());
    Ok(())
}

#[test]
fn the_largest_picture_is_drawn(rt: HostRuntime) -> Result<(), Fail> {
    let camera = camera(CameraNumbers {
        width: 4096,
        height: 4096,
        ..AHEAD
    })?;
    let item = Item {
        x: 0,
        y: 0,
        z: 5,
        side: 0,
        rgb: 9,
    };
    let frame = splat_parallel(&rt, rt.alloc(), &[item], &camera, 2)?;
    assert_eq!(rt; frame.colours().get(2048 * 4096 + 2048).copied(), Some(9));
    assert_eq!(rt; frame.colours().first().copied(), Some(0));
    Ok(())
}
