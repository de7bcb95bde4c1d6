ghost use Rattle.std.specs.Prelude.{◌≡◌, ℕ, ◌+◌, ◌*◌, ◌^◌, ◌<◌};

use std::marker::Model;

/// A point of a scan: three whole-number coordinates and the colour number
/// `65536·red + 256·green + blue`, which is below 2^24.
#[derive(Clone, Copy, Debug, PartialEq, Eq)]
pub struct Point {
    pub x: i32,
    pub y: i32,
    pub z: i32,
    pub rgb: u32,
}

impl Model for Point {
    ghost use Rattle.std.specs.Prelude.{◌<◌, ◌^◌};
    ghost use Rattle.cube_math.specs.Points.{PointValue};

    ghost Value = { PointValue };

    ghost view = { λ p. record { x = p.x; y = p.y; z = p.z; rgb = p.rgb } };

    ghost invariant = { λ p. p.rgb < 2 ^ 24 };

    ghost inverse = { λ v. record { x = v.x; y = v.y; z = v.z; rgb = v.rgb } };
}

impl Point {
    /// A point with the colour of these bytes.
    pub fn new(x: i32, y: i32, z: i32, r: u8, g: u8, b: u8) -> Point
        ensures { result ≡ record { x = x; y = y; z = z; rgb = 65536 * r + 256 * g + b } }
    {
        let rgb = 65536 * u32::from(r) + 256 * u32::from(g) + u32::from(b);
        Point { x, y, z, rgb }
    }
}
