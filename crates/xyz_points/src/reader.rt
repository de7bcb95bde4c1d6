ghost use Rattle.std.specs.Prelude.{◌≡◌, ◌≤◌, ◌+◌, ◌/◌, length, IfErr, IfOk, Ok};
ghost use Rattle.xyz_points.specs.Reading.{xyz, IsFault};

use crate::lines::{count_feeds, next_line};
use crate::points::read_line;
use cube_math::Point;
use std::alloc::Global;

/// Why a text is not read. Lines and fields count from 1. The first bad line is told, and of this
/// line the number of fields before the first bad field.
#[derive(Clone, Copy, Debug, PartialEq, Eq)]
pub enum XyzFault {
    /// A line has `n` fields, where 3, 4, 6 or 7 make a point.
    Fields { line: u64, n: u64 },
    /// A field is no number of its kind.
    Number { line: u64, field: u32 },
    /// A coordinate does not fit 32 bits, or a colour is above 255.
    Range { line: u64, field: u32 },
    /// There is not enough memory. This says nothing of the text.
    Memory,
}

/// A point takes five bytes or more, and all but the last one a line feed.
const SHORTEST: usize = 6;

/// How many points to make room for: no more than a text of this length may have.
fn most_points(bytes: &[u8]) -> usize
    ensures { result ≤ length bytes.now / SHORTEST + 1 }
{
    let by_length = bytes.len() / SHORTEST + 1;
    let by_feeds = count_feeds(bytes);
    if by_feeds < by_length {
        by_feeds + 1
    } else {
        by_length
    }
}

/// The points of a text, one for each line of coordinates x, y and z, behind which stand nothing,
/// an intensity, the colour bytes red, green and blue, or an intensity and the colour. A point
/// without a colour is white.
///
/// Fields stand between spaces, tabs and commas. A coordinate is a decimal number of any length,
/// taken times `10^decimals` and rounded down. Lines without fields, and those whose first field
/// begins with `#` or `//`, are passed over. A carriage return at the end of a line is dropped.
pub fn read_xyz(alloc: Global, bytes: &[u8], decimals: u32) -> Result<Vec<Point>, XyzFault>
    requires { decimals ≤ 9 }
    ensures points { IfOk result (λ points. xyz decimals bytes.now ≡ Ok points.items) }
    ensures fault { IfErr result (λ fault. IsFault decimals bytes.now fault) }
{
    let Ok(mut points) = Vec::with_capacity(alloc, most_points(bytes)) else {
        return Err(XyzFault::Memory);
    };
    let mut line = 0;
    let mut rest = bytes;
    while let Some((text, behind)) = next_line(rest) {
        line += 1;
        rest = behind;
        if let Some(read) = read_line(text, line, decimals) {
            let Ok(()) = points.push(read?) else {
                return Err(XyzFault::Memory);
            };
        }
    }
    Ok(points)
}
