ghost use Rattle.std.specs.Prelude.{◌≡◌, ◌<◌, ◌^◌, IfOk};
ghost use Rattle.octree_file.specs.Order.{IsPoint, above_lowest, in_order, order_key};

use cube_math::Point;
use std::alloc::{AllocError, Global};

/// The points of a list in the order of files.
pub fn in_order(alloc: Global, points: &[Point]) -> Result<Vec<Point>, AllocError>
    ensures { IfOk result (λ sorted. sorted.items ≡ in_order points.now) }
{
    let mut sorted = Vec::with_capacity(alloc, points.len())?;
    for p in points {
        sorted.push(known_point(p))?;
    }
    sorted.sort_unstable_by_key(|p| order_key(p));
    Ok(sorted)
}

/// The point, of which is known that it is one.
fn known_point(p: &Point) -> Point
    ensures same { result ≡ p.now }
    ensures point { IsPoint p.now }
{
    let Point { x, y, z, rgb } = *p;
    Point { x, y, z, rgb }
}

/// The number that orders a point among others.
fn order_key(p: &Point) -> u128
    ensures { result ≡ order_key p.now }
{
    let Point { x, y, z, rgb } = *p;
    let column = (u128::from(above_lowest(x)) << 32) + u128::from(above_lowest(y));
    let place = (column << 32) + u128::from(above_lowest(z));
    (place << 24) + u128::from(rgb)
}

/// How far a coordinate lies above the lowest one.
fn above_lowest(x: i32) -> u32
    ensures { result ≡ above_lowest x }
{
    (i64::from(x) + (1i64 << 31)) as u32
}
