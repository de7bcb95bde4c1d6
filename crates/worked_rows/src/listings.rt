use crate::runs::{THREE, run};
use std::test::Fail;

/// The children of a root of `THREE`.
const BELOW: &str =
    "r0 leaf 2\nr1 leaf 1\nr2 leaf 0\nr3 leaf 0\nr4 leaf 0\nr5 leaf 0\nr6 leaf 0\nr7 leaf 0\n";

#[test]
fn an_empty_file_is_one_empty_leaf(rt: HostRuntime) -> Result<(), Fail> {
    let listing = "cube 0 0 0 7\nr leaf 0\nnodes 1 points 0\n";
    let outcome = run(rt.alloc(), "nodes empty.xyz", &[("empty.xyz", "")])?;
    outcome.expect_output(&rt, listing.as_bytes());
    Ok(())
}

#[test]
fn one_point_above_the_limit_splits_the_root(rt: HostRuntime) -> Result<(), Fail> {
    let alloc = rt.alloc();
    let line = "nodes --decimals=0 --leaf=2 three.xyz";
    let plain = format!(in alloc; "cube 0 0 0 8\nr inner 3 2\n{BELOW}nodes 9 points 3\n")?;
    run(alloc, line, &[("three.xyz", THREE)])?.expect_output(&rt, plain.as_bytes());
    let line = "nodes --voxels=yes --decimals=0 three.xyz --leaf=2";
    let voxels = format!(in alloc;
        "cube 0 0 0 8\nr inner 3 2\nv 0 ffffff\nv 100 ffffff\n{BELOW}nodes 9 points 3\n"
    )?;
    run(alloc, line, &[("three.xyz", THREE)])?.expect_output(&rt, voxels.as_bytes());
    Ok(())
}

#[test]
fn a_count_at_the_limit_stays_a_leaf(rt: HostRuntime) -> Result<(), Fail> {
    let line = "nodes --decimals=0 --leaf=2 two.xyz";
    let listing = "cube 0 0 0 8\nr leaf 2\nnodes 1 points 2\n";
    let outcome = run(rt.alloc(), line, &[("two.xyz", "0 0 0\n200 0 0\n")])?;
    outcome.expect_output(&rt, listing.as_bytes());
    Ok(())
}

#[test]
fn a_file_that_is_named_twice_is_read_twice(rt: HostRuntime) -> Result<(), Fail> {
    let line = "nodes --decimals=0 --leaf=2 two.xyz two.xyz";
    let listing =
        "cube 0 0 0 8\nr inner 4 2\nr0 leaf 2\nr1 leaf 2\nr2 leaf 0\nr3 leaf 0\nr4 leaf 0\nr5 leaf 0\nr6 leaf 0\nr7 leaf 0\nnodes 9 points 4\n";
    let outcome = run(rt.alloc(), line, &[("two.xyz", "0 0 0\n200 0 0\n")])?;
    outcome.expect_output(&rt, listing.as_bytes());
    Ok(())
}

#[test]
fn the_smallest_cube_stays_a_leaf(rt: HostRuntime) -> Result<(), Fail> {
    let line = "nodes --decimals=0 --leaf=2 five.xyz";
    let text = "9 9 9\n9 9 9\n9 9 9\n9 9 9\n9 9 9\n";
    let listing = "cube 9 9 9 7\nr leaf 5\nnodes 1 points 5\n";
    run(rt.alloc(), line, &[("five.xyz", text)])?.expect_output(&rt, listing.as_bytes());
    Ok(())
}

#[test]
fn equal_points_split_down_to_the_smallest_cube(rt: HostRuntime) -> Result<(), Fail> {
    let line = "nodes --decimals=0 --leaf=2 --cube=0,0,0,10 z.xyz";
    let text = "0 0 0\n0 0 0\n0 0 0\n0 0 0\n0 0 0\n";
    let alloc = rt.alloc();
    let mut listing = String::from_str(
        alloc,
        "cube 0 0 0 10\nr inner 5 1\nr0 inner 5 1\nr00 inner 5 1\nr000 leaf 5\n",
    )?;
    for path in ["r00", "r0", "r"] {
        for octant in 1..8u8 {
            writeln!(listing, "{path}{octant} leaf 0")?;
        }
    }
    listing.push_str("nodes 25 points 5\n")?;
    run(alloc, line, &[("z.xyz", text)])?.expect_output(&rt, listing.as_bytes());
    Ok(())
}

#[test]
fn the_default_cube_stays_within_the_space(rt: HostRuntime) -> Result<(), Fail> {
    let alloc = rt.alloc();
    let line = "nodes --decimals=0 p.xyz";
    let least = "cube -2147483648 0 0 7\nr leaf 1\nnodes 1 points 1\n";
    run(alloc, line, &[("p.xyz", "-2147483648 0 0\n")])?.expect_output(&rt, least.as_bytes());
    let greatest = "cube 2147483520 0 0 7\nr leaf 1\nnodes 1 points 1\n";
    run(alloc, line, &[("p.xyz", "2147483647 0 0\n")])?.expect_output(&rt, greatest.as_bytes());
    Ok(())
}

#[test]
fn a_given_cube_contains_both_its_ends(rt: HostRuntime) -> Result<(), Fail> {
    let line = "nodes --decimals=0 --cube=0,0,0,7 p.xyz";
    let listing = "cube 0 0 0 7\nr leaf 1\nnodes 1 points 1\n";
    for text in ["127 0 0\n", "0 0 0\n"] {
        run(rt.alloc(), line, &[("p.xyz", text)])?.expect_output(&rt, listing.as_bytes());
    }
    Ok(())
}

#[test]
fn a_voxel_has_the_colour_of_the_nearest_point(rt: HostRuntime) -> Result<(), Fail> {
    let alloc = rt.alloc();
    let line = "nodes --decimals=0 --leaf=1 --voxels=yes --cube=0,0,0,8 p.xyz";
    let below =
        "r0 leaf 2\nr1 leaf 0\nr2 leaf 0\nr3 leaf 0\nr4 leaf 0\nr5 leaf 0\nr6 leaf 0\nr7 leaf 0\nnodes 9 points 2\n";
    let nearer = format!(in alloc; "cube 0 0 0 8\nr inner 2 1\nv 0 ff0000\n{below}")?;
    run(alloc, line, &[("p.xyz", "0 0 0\n1 0 0 255 0 0\n")])?.expect_output(&rt, nearer.as_bytes());
    let least_colour = format!(in alloc; "cube 0 0 0 8\nr inner 2 1\nv 0 0000ff\n{below}")?;
    let text = "1 0 1 0 255 0\n1 1 0 0 0 255\n";
    run(alloc, line, &[("p.xyz", text)])?.expect_output(&rt, least_colour.as_bytes());
    Ok(())
}

#[test]
fn decimals_are_kept_and_the_rest_rounded_down(rt: HostRuntime) -> Result<(), Fail> {
    let listing = "cube -1 0 0 12\nr leaf 2\nnodes 1 points 2\n";
    let text = "-0.0005 0 0\r\n1,2,3,255,0,10\r\n";
    run(rt.alloc(), "nodes a.xyz", &[("a.xyz", text)])?.expect_output(&rt, listing.as_bytes());
    Ok(())
}
