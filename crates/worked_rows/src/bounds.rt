use crate::runs::{files_of, run, run_over, sound};
use cloud_io::NamedFile;
use simlod_app::Status;
use std::alloc::{AllocError, Global};
use std::test::Fail;

/// A LAS file of version 1.2 with two points, (5, 6, 7) in ff8001 and (-1, 0, 2147483647) in black,
/// whose byte at 155, in the scales and offsets, is as given.
fn las_file(alloc: Global, name: &str, byte: u8) -> Result<NamedFile, AllocError> {
    let parts: [(usize, &[u8]); 10] = [
        (0, b"LASF"),
        (24, &[1, 2]),
        (96, &[227]),
        (104, &[2, 28, 0]),
        (107, &[2]),
        (155, &[byte]),
        (227, b"\x05\0\0\0\x06\0\0\0\x07"),
        (247, b"\x00\xff\x00\x80\x00\x01"),
        (255, b"\xff\xff\xff\xff\0\0\0\0\xff\xff\xff\x7f"),
        (275, b"\xff\0\xff\0\xff\0"),
    ];
    let mut bytes = vec![in alloc; 0; 283]?;
    for (place, part) in parts {
        for (old, new) in bytes.iter_mut().skip(place).zip(part) {
            *old = *new;
        }
    }
    Ok(NamedFile {
        name: String::from_str(alloc, name)?,
        bytes,
    })
}

#[test]
fn bounds_are_the_ends_of_all_points(rt: HostRuntime) -> Result<(), Fail> {
    let text = "-0.0005 0 0\r\n1,2,3,255,0,10\r\n";
    let bounds = "points 2\nmin -1 0 0\nmax 1000 2000 3000\ncube -1 0 0 12\n";
    run(rt.alloc(), "bounds a.xyz", &[("a.xyz", text)])?.expect_output(&rt, bounds.as_bytes());
    let files = [("a.xyz", "5 0 9\n"), ("b.xyz", "7 -3 8\n")];
    let bounds = "points 2\nmin 5 -3 8\nmax 7 0 9\ncube 5 -3 8 7\n";
    let outcome = run(rt.alloc(), "bounds --decimals=0 a.xyz b.xyz", &files)?;
    outcome.expect_output(&rt, bounds.as_bytes());
    Ok(())
}

#[test]
fn bounds_of_no_points_are_a_cube(rt: HostRuntime) -> Result<(), Fail> {
    let bounds = "points 0\ncube 0 0 0 7\n";
    let outcome = run(rt.alloc(), "bounds e.xyz", &[("e.xyz", "# none\n")])?;
    outcome.expect_output(&rt, bounds.as_bytes());
    Ok(())
}

#[test]
fn las_and_texts_go_in_together(rt: HostRuntime) -> Result<(), Fail> {
    let alloc = rt.alloc();
    let mut files = files_of(alloc, &[("a.xyz", "-4 9 0\n")])?;
    files.push(las_file(alloc, "b.LAS", 0)?)?;
    let line = "bounds --decimals=0 a.xyz b.LAS";
    let bounds = b"points 3\nmin -4 0 0\nmax 5 9 2147483647\ncube -4 0 0 31\n";
    run_over(alloc, line, files, sound(alloc))?.expect_output(&rt, bounds);
    Ok(())
}

#[test]
fn low_bytes_of_colours_are_taken_on_demand(rt: HostRuntime) -> Result<(), Fail> {
    let alloc = rt.alloc();
    for (rgb, near, far) in [("high", "ff8001", "000000"), ("low", "000000", "ffffff")] {
        let mut files = Vec::new(alloc);
        files.push(las_file(alloc, "a.las", 0)?)?;
        let line = format!(in alloc;
            "nodes --leaf=1 --voxels=yes --cube=-1,0,0,31 --rgb={rgb} a.las"
        )?;
        let listing = format!(in alloc;
            "cube -1 0 0 31\nr inner 2 2\nv 0 {near}\nv 2080768 {far}\nr0 leaf 1\nr1 leaf 0\nr2 leaf 0\nr3 leaf 0\nr4 leaf 1\nr5 leaf 0\nr6 leaf 0\nr7 leaf 0\nnodes 9 points 2\n"
        )?;
        run_over(alloc, line.as_str(), files, sound(alloc))?.expect_output(&rt, listing.as_bytes());
    }
    Ok(())
}

#[test]
fn other_scales_or_offsets_name_the_first_las_file(rt: HostRuntime) -> Result<(), Fail> {
    let alloc = rt.alloc();
    let mut files = Vec::new(alloc);
    files.push(las_file(alloc, "a.las", 0)?)?;
    files.push(las_file(alloc, "b.las", 1)?)?;
    let said = "simlod: b.las: scales or offsets differ from a.las\n";
    let outcome = run_over(alloc, "bounds a.las b.las", files, sound(alloc))?;
    outcome.expect_refusal(&rt, Status::BadInput, said);
    let mut files = files_of(alloc, &[("c.xyz", "0 0 0\n")])?;
    files.push(las_file(alloc, "a.las", 0)?)?;
    files.push(las_file(alloc, "b.las", 0)?)?;
    files.push(las_file(alloc, "d.laz", 1)?)?;
    let line = "nodes c.xyz a.las c.xyz b.las d.laz";
    let said = "simlod: d.laz: scales or offsets differ from a.las\n";
    run_over(alloc, line, files, sound(alloc))?.expect_refusal(&rt, Status::BadInput, said);
    Ok(())
}

#[test]
fn a_damaged_las_file_is_named(rt: HostRuntime) -> Result<(), Fail> {
    let alloc = rt.alloc();
    let files = [("a.xyz", "0 0 0\n"), ("b.las", "LAX"), ("c.Laz", "LAS")];
    let said = "simlod: b.las: not a LAS file\n";
    let line = "bounds a.xyz b.las";
    let outcome = run_over(alloc, line, files_of(alloc, &files)?, sound(alloc))?;
    outcome.expect_refusal(&rt, Status::BadInput, said);
    let said = "simlod: c.Laz: header ends at 3\n";
    let line = "nodes c.Laz b.las";
    let outcome = run_over(alloc, line, files_of(alloc, &files)?, sound(alloc))?;
    outcome.expect_refusal(&rt, Status::BadInput, said);
    Ok(())
}
