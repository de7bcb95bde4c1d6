ghost use Rattle.std.specs.Prelude.{◌≡◌, ◌<◌, ◌^◌, IfOk};
ghost use Rattle.synthetic_cloud.specs.Generated.{next, point_of, generated};

use cube_math::Point;
use std::alloc::{AllocError, Global};

/// The points that a seed makes, so many of them: x and y below 2^20, z below 2^14. The first points of a
/// longer cloud of the same seed are those of a shorter one.
pub fn generate(alloc: Global, seed: u64, count: u32) -> Result<Vec<Point>, AllocError>
    ensures { IfOk result (λ points. points.items ≡ generated seed count) }
{
    let mut points = Vec::with_capacity(alloc, count as usize)?;
    let mut state = seed;
    for _point in 0..count {
        let first = turn(state);
        let second = turn(first);
        let third = turn(second);
        points.push(point_of(first, second, third))?;
        state = third;
    }
    Ok(points)
}

/// The state after another, by a linear congruential generator with the multiplier and the increment of
/// Knuth's MMIX.
pub(crate) fn turn(state: u64) -> u64
    ensures { result ≡ next state }
{
    state
        .wrapping_mul(6_364_136_223_846_793_005)
        .wrapping_add(1_442_695_040_888_963_407)
}

/// The point of three states: x and y are the high bits of the first two, z and the colour number are bits of
/// the third.
fn point_of(first: u64, second: u64, third: u64) -> Point
    ensures { result ≡ point_of first second third }
{
    Point {
        x: (first >> 44) as i32,
        y: (second >> 44) as i32,
        z: (third >> 50) as i32,
        rgb: ((third >> 20) & 0xff_ffff) as u32,
    }
}
