ghost use Rattle.std.specs.Prelude.{ℕ, ◌≡◌, ◌+◌, ◌≤◌, List, ◌++◌, length, Some};
ghost use Rattle.cube_math.specs.Points.{PointValue};
ghost use Rattle.octree_file.specs.Order.{IsPoint};
ghost use Rattle.octree_file.specs.Spelling.{point_bytes};
ghost use Rattle.octree_reader.specs.Heads.{u32_at, i32_at};

use byteorder::{ByteOrder, LittleEndian};
use cube_math::Point;

/// The number in four bytes from a place on.
pub fn u32_at(bytes: &[u8], place: usize) -> u32
    requires { place + 4 ≤ length bytes.now }
    ensures { result ≡ u32_at bytes.now place }
{
    LittleEndian::read_u32(&bytes[place..])
}

/// The whole number in four bytes from a place on, in two's complement.
pub fn i32_at(bytes: &[u8], place: usize) -> i32
    requires { place + 4 ≤ length bytes.now }
    ensures { result ≡ i32_at bytes.now place }
{
    LittleEndian::read_i32(&bytes[place..])
}

/// The point in the first 16 bytes, where its colour number is below 2^24.
pub fn first_point(bytes: &[u8]) -> Option<Point>
    requires { 16 ≤ length bytes.now }
    ensures { (p : PointValue) (rest : List ℕ) → IsPoint p → bytes.now ≡ point_bytes p ++ rest → result ≡ Some p }
{
    let rgb = u32_at(bytes, 12);
    if rgb < 1 << 24 {
        Some(Point {
            x: i32_at(bytes, 0),
            y: i32_at(bytes, 4),
            z: i32_at(bytes, 8),
            rgb,
        })
    } else {
        None
    }
}
