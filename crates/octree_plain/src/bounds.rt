ghost use Rattle.std.specs.Prelude.{◌≡◌, ◌++◌, IfOk, OnOk, string_bytes};
ghost use Rattle.octree_plain.specs.Bounds.{bounds_text, corner_lines, corner_line};

use crate::fitting::extents_of;
use crate::listing::write_cube;
use cube_math::{Cube, Point};
use std::alloc::{AllocError, Global};

/// The text of what points take up: their number, where there are any the least and the greatest
/// coordinate on each axis, and a cube, which is to be the least one round them.
pub fn bounds_text(alloc: Global, points: &[Point], cube: &Cube) -> Result<Vec<u8>, AllocError>
    ensures { IfOk result (λ text. text.items ≡ bounds_text points.now cube.now) }
{
    let mut out = String::new(alloc);
    let n = points.len();
    writeln!(out, "points {n}")?;
    write_corners(&mut out, points)?;
    write_cube(&mut out, cube)?;
    Ok(out.into_bytes())
}

/// Appends the least and the greatest coordinates, where there are points.
fn write_corners(out: &mut String, points: &[Point]) -> Result<(), AllocError>
    ensures { OnOk result (string_bytes out.new ≡ string_bytes out.old ++ corner_lines points.now) }
{
    if points.is_empty() {
        return Ok(());
    }
    let all = extents_of(points);
    write_corner(out, "min", all.x.least, all.y.least, all.z.least)?;
    write_corner(out, "max", all.x.greatest, all.y.greatest, all.z.greatest)?;
    Ok(())
}

/// Appends a word and three coordinates.
fn write_corner(out: &mut String, word: &str, x: i32, y: i32, z: i32) -> Result<(), AllocError>
    ensures { OnOk result (string_bytes out.new ≡ string_bytes out.old ++ corner_line word.now x y z) }
{
    writeln!(out, "{word} {x} {y} {z}")
}
