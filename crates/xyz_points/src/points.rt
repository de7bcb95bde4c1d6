ghost use Rattle.std.specs.Prelude.{◌≡◌, ◌∷◌, [], ◌+◌, ◌≤◌, ◌<◌, ◌^◌, length};
ghost use Rattle.xyz_points.specs.Lines.{fields_of};
ghost use Rattle.xyz_points.specs.Numbers.{coordinate, colour};
ghost use Rattle.xyz_points.specs.Reading.{fault_at, result_at, white_point, with_intensity, with_colour, line_point, line_reading};

use crate::fields::{count_fields, is_comment, next_field};
use crate::numbers::{FieldFault, colour, coordinate, is_decimal};
use crate::reader::XyzFault;
use cube_math::Point;

/// Where a field stands: its line and its place in the line, both counted from 1.
#[derive(Clone, Copy)]
struct Place {
    line: u64,
    field: u32,
}

impl Place {
    /// The place of the next field.
    fn next(self) -> Place
        requires { self.field < 11 }
        ensures { result ≡ record { line = self.line; field = self.field + 1 } }
    {
        Place {
            line: self.line,
            field: self.field + 1,
        }
    }

    /// A fault here.
    fn fault(self, fault: FieldFault) -> XyzFault
        ensures { result ≡ fault_at self.line self.field fault }
    {
        let Place { line, field } = self;
        match fault {
            FieldFault::Malformed => XyzFault::Number { line, field },
            FieldFault::OutOfRange => XyzFault::Range { line, field },
        }
    }
}

/// A coordinate at its place.
fn coordinate_at(field: &[u8], decimals: u32, place: Place) -> Result<i32, XyzFault>
    requires { decimals ≤ 9 }
    ensures { result ≡ result_at place.line place.field (coordinate decimals field.now) }
{
    coordinate(field, decimals).map_err(|fault| place.fault(fault))
}

/// A colour byte at its place.
fn colour_at(field: &[u8], place: Place) -> Result<u8, XyzFault>
    ensures { result ≡ result_at place.line place.field (colour field.now) }
{
    colour(field).map_err(|fault| place.fault(fault))
}

/// The white point of the first three fields of a line.
fn white_point(x: &[u8], y: &[u8], z: &[u8], line: u64, decimals: u32) -> Result<Point, XyzFault>
    requires { decimals ≤ 9 }
    ensures { result ≡ white_point decimals line x.now y.now z.now }
{
    let x = coordinate_at(x, decimals, Place { line, field: 1 })?;
    let y = coordinate_at(y, decimals, Place { line, field: 2 })?;
    let z = coordinate_at(z, decimals, Place { line, field: 3 })?;
    Ok(Point::new(x, y, z, 255, 255, 255))
}

/// The point, where the fourth field is an intensity. Its value does not matter.
fn with_intensity(point: Point, intensity: &[u8], line: u64) -> Result<Point, XyzFault>
    ensures { result ≡ with_intensity line intensity.now point }
{
    if is_decimal(intensity) {
        Ok(point)
    } else {
        Err(XyzFault::Number { line, field: 4 })
    }
}

/// The point in a colour, whose first byte stands at this place.
fn with_colour(point: Point, r: &[u8], g: &[u8], b: &[u8], place: Place) -> Result<Point, XyzFault>
    requires { place.field < 10 }
    ensures { result ≡ with_colour place.line place.field r.now g.now b.now point }
{
    let r = colour_at(r, place)?;
    let place = place.next();
    let g = colour_at(g, place)?;
    let place = place.next();
    let b = colour_at(b, place)?;
    Ok(Point::new(point.x, point.y, point.z, r, g, b))
}

/// The point of a line with this first field, and these fields behind it.
fn line_point(x: &[u8], behind: &[u8], line: u64, decimals: u32) -> Result<Point, XyzFault>
    requires few { decimals ≤ 9 }
    requires fits { length behind.now + 1 < 2 ^ 64 }
    ensures { result ≡ line_point decimals line (x.now ∷ fields_of behind.now) }
{
    let Some((y, behind)) = next_field(behind) else {
        return Err(XyzFault::Fields { line, n: 1 });
    };
    let Some((z, behind)) = next_field(behind) else {
        return Err(XyzFault::Fields { line, n: 2 });
    };
    let Some((fourth, behind)) = next_field(behind) else {
        return white_point(x, y, z, line, decimals);
    };
    let Some((fifth, behind)) = next_field(behind) else {
        let point = white_point(x, y, z, line, decimals)?;
        return with_intensity(point, fourth, line);
    };
    let Some((sixth, behind)) = next_field(behind) else {
        return Err(XyzFault::Fields { line, n: 5 });
    };
    let Some((seventh, behind)) = next_field(behind) else {
        let point = white_point(x, y, z, line, decimals)?;
        return with_colour(point, fourth, fifth, sixth, Place { line, field: 4 });
    };
    let more = count_fields(behind);
    if more > 0 {
        return Err(XyzFault::Fields { line, n: 7 + more });
    }
    let point = white_point(x, y, z, line, decimals)?;
    let point = with_intensity(point, fourth, line)?;
    with_colour(point, fifth, sixth, seventh, Place { line, field: 5 })
}

/// The point or the fault of a line; None of a line that is skipped.
pub fn read_line(text: &[u8], line: u64, decimals: u32) -> Option<Result<Point, XyzFault>>
    requires { decimals ≤ 9 }
    ensures { result ≡ line_reading decimals line text.now }
{
    let (first, behind) = next_field(text)?;
    if is_comment(first) {
        None
    } else {
        Some(line_point(first, behind, line, decimals))
    }
}
