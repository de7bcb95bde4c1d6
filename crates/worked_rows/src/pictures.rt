use crate::runs::run;
use simlod_app::Status;
use std::test::Fail;

/// A camera close to six points, of which two lie nearer than the near plane or behind it.
const CLOSE: &str =
    "image --decimals=0 --cube=0,0,0,8 --pos=100,100,100 --focal=10 --near=5 --size=3,3 p.xyz";

const SIX: &str =
    "100 100 105 255 0 0\n100 100 104 0 0 1\n100 100 50 0 0 2\n101 100 110 0 255 0\n101 100 110 0 0 255\n99 100 130 128 128 128\n";

const NINE_PIXELS: &[u8] =
    b"P6\n3 3\n255\n\0\0\0\0\0\0\0\0\0\x80\x80\x80\xff\0\0\0\0\xff\0\0\0\0\0\0\0\0\0";

#[test]
fn the_nearest_points_are_seen(rt: HostRuntime) -> Result<(), Fail> {
    run(rt.alloc(), CLOSE, &[("p.xyz", SIX)])?.expect_output(&rt, NINE_PIXELS);
    Ok(())
}

#[test]
fn points_in_another_order_have_the_same_picture(rt: HostRuntime) -> Result<(), Fail> {
    let text =
        "99 100 130 128 128 128\n101 100 110 0 0 255\n101 100 110 0 255 0\n100 100 50 0 0 2\n100 100 104 0 0 1\n100 100 105 255 0 0\n";
    run(rt.alloc(), CLOSE, &[("p.xyz", text)])?.expect_output(&rt, NINE_PIXELS);
    Ok(())
}

/// Two points far away in a cube that is split, seen by a pixel.
const SPLIT: &str = "0 0 0 255 0 0\n1 0 0 0 0 255\n200 0 0 0 255 0\n";

#[test]
fn a_node_that_appears_small_is_drawn_by_its_voxels(rt: HostRuntime) -> Result<(), Fail> {
    // The middle of the cell of both points at the left is (1, 1, 1), and the blue one is the nearer to it.
    let line =
        "image --decimals=0 --leaf=2 --cube=0,0,0,8 --pos=0,0,-1000 --focal=1000 --near=1 --size=1,1 --threshold=65536 p.xyz";
    run(rt.alloc(), line, &[("p.xyz", SPLIT)])?.expect_output(&rt, b"P6\n1 1\n255\n\0\0\xff");
    Ok(())
}

#[test]
fn a_node_that_appears_large_is_drawn_by_those_below_it(rt: HostRuntime) -> Result<(), Fail> {
    let line =
        "image --decimals=0 --leaf=2 --cube=0,0,0,8 --pos=0,0,-1000 --focal=1000 --near=1 --size=1,1 --threshold=1 p.xyz";
    run(rt.alloc(), line, &[("p.xyz", SPLIT)])?.expect_output(&rt, b"P6\n1 1\n255\n\xff\0\0");
    Ok(())
}

#[test]
fn no_points_give_a_black_picture(rt: HostRuntime) -> Result<(), Fail> {
    let line = "image --size=1,2 p.xyz";
    run(rt.alloc(), line, &[("p.xyz", "")])?.expect_output(&rt, b"P6\n1 2\n255\n\0\0\0\0\0\0");
    Ok(())
}

#[test]
fn numbers_at_the_ends_of_the_cameras_ranges_are_taken(rt: HostRuntime) -> Result<(), Fail> {
    let alloc = rt.alloc();
    let point = "0 0 0 1 2 3\n";
    let line =
        "image --decimals=0 --pos=-2147483648,2147483647,-2147483648 --rows=1024,-1024,1024,-1024,1024,-1024,0,0,1024 --focal=65536 --near=1000000000 --threshold=65536 --dot=64 --size=1,1 p.xyz";
    run(alloc, line, &[("p.xyz", point)])?.expect_output(&rt, b"P6\n1 1\n255\n\0\0\0");
    let line =
        "image --decimals=0 --pos=0,0,-1 --focal=1 --near=1 --threshold=1 --dot=1 --size=1,1 p.xyz";
    run(alloc, line, &[("p.xyz", point)])?.expect_output(&rt, b"P6\n1 1\n255\n\x01\x02\x03");
    Ok(())
}

#[test]
fn numbers_past_the_ends_are_refused_by_the_options_name(rt: HostRuntime) -> Result<(), Fail> {
    let alloc = rt.alloc();
    for value in [
        "--rows=1025,0,0,0,0,0,0,0,0",
        "--rows=0,0,0,0,0,0,0,0,-1025",
        "--focal=0",
        "--focal=65537",
        "--near=0",
        "--near=1000000001",
        "--size=0,1",
        "--size=1,4097",
        "--threshold=0",
        "--threshold=65537",
        "--dot=0",
        "--dot=65",
    ] {
        let line = format!(in alloc; "image {value} p.xyz")?;
        let name = value.split_once('=').ok_or("an option")?.0;
        let said = format!(in alloc; "simlod: usage: value of {name}\n")?;
        let outcome = run(alloc, line.as_str(), &[("p.xyz", "")])?;
        outcome.expect_refusal(&rt, Status::Usage, said.as_str());
    }
    Ok(())
}

#[test]
fn a_batch_outside_the_cube_has_no_picture(rt: HostRuntime) -> Result<(), Fail> {
    let line = "image --decimals=0 --cube=0,0,0,7 p.xyz";
    let said = "simlod: limit: batch 0 outside 0\n";
    run(rt.alloc(), line, &[("p.xyz", "128 0 0\n")])?.expect_refusal(&rt, Status::Limit, said);
    Ok(())
}
