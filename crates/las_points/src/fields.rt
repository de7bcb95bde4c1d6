ghost use Rattle.std.specs.Prelude.{◌≡◌, ◌+◌, ◌≤◌, length};
ghost use Rattle.las_points.specs.Fields.{u16_at, u32_at, u64_at, i32_at};

use byteorder::{ByteOrder, LittleEndian};

/// The number in two bytes from a place on.
pub fn u16_at(bytes: &[u8], place: usize) -> u16
    requires { place + 2 ≤ length bytes.now }
    ensures { result ≡ u16_at bytes.now place }
{
    LittleEndian::read_u16(&bytes[place..])
}

/// The number in four bytes from a place on.
pub fn u32_at(bytes: &[u8], place: usize) -> u32
    requires { place + 4 ≤ length bytes.now }
    ensures { result ≡ u32_at bytes.now place }
{
    LittleEndian::read_u32(&bytes[place..])
}

/// The number in eight bytes from a place on.
pub fn u64_at(bytes: &[u8], place: usize) -> u64
    requires { place + 8 ≤ length bytes.now }
    ensures { result ≡ u64_at bytes.now place }
{
    LittleEndian::read_u64(&bytes[place..])
}

/// The signed number in four bytes from a place on.
pub fn i32_at(bytes: &[u8], place: usize) -> i32
    requires { place + 4 ≤ length bytes.now }
    ensures { result ≡ i32_at bytes.now place }
{
    LittleEndian::read_i32(&bytes[place..])
}
