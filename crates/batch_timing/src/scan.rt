use cube_math::Point;
use las_points::{LasCloud, RgbByte, read_las};
use std::fs;
use std::rt::Files;
use xyz_points::read_xyz;

/// The points of a file: a LAS file by its first bytes, and else a text of whole numbers.
pub fn read_scan<R: Files + AllocGlobal>(rt: &R, name: &str) -> Result<Vec<Point>, &'static str> {
    let bytes = fs::read(rt, name).ok().ok_or("the file cannot be read")?;
    if bytes.as_slice().starts_with(b"LASF") {
        let cloud = read_las(rt.alloc(), bytes.as_slice(), RgbByte::High);
        let LasCloud { points, .. } = cloud.ok().ok_or("this LAS file is not read")?;
        Ok(points)
    } else {
        read_xyz(rt.alloc(), bytes.as_slice(), 0)
            .ok()
            .ok_or("this text is not read")
    }
}
