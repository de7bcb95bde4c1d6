ghost use Rattle.std.specs.Prelude.{◌≡◌, ◌==◌, ◌<◌, ◌-◌, ◌^◌, ℕ, List, length, nat_lt, position, Option, slice_index_or, if◌then◌else◌};
ghost use Rattle.std.specs.Option.{option_or};
ghost use Rattle.cube_math.specs.Points.{PointValue};
ghost use Rattle.cube_math.specs.declared.refused.RefusedRow.{RefusedRow};
ghost use Rattle.batch_bounds.specs.Stops.{IsCut, CanCut, IsFirst, outside_at, points_at};

use cube_math::{Cause, Cube, Point, RefusedRow, first_outside};

/// A batch that is refused, by its place among all batches.
#[derive(Clone, Copy)]
pub struct Stop {
    pub batch: usize,
    pub row: RefusedRow,
}

/// The first batch with a point outside the cube.
pub fn first_outside_batch(points: &[Point], ends: &[usize], cube: &Cube) -> Option<Stop>
    requires cut { CanCut points.now ends.now }
    requires few { length points.now < 2 ^ 32 }
    requires batches { length ends.now < 2 ^ 32 }
    ensures { (batches : List (List PointValue)) → IsCut points.now ends.now batches → IsFirst (outside_at cube.now batches) (length batches) result }
{
    match first_outside(points, cube) {
        None => None,
        Some(at) => match first_above(ends, at) {
            None => unreachable!(),
            Some(batch) => Some(Stop {
                batch,
                row: RefusedRow {
                    input: batch as u32,
                    cause: Cause::Outside {
                        at: (at - start_of(ends, batch)) as u32,
                    },
                },
            }),
        },
    }
}

/// The first batch with which there are more than `most` points.
pub fn first_too_many(ends: &[usize], most: u32) -> Option<Stop>
    requires cut { (points : List PointValue) × CanCut points ends.now × (length points < 2 ^ 32) }
    requires batches { length ends.now < 2 ^ 32 }
    ensures { (points : List PointValue) (batches : List (List PointValue)) → IsCut points ends.now batches → IsFirst (points_at most batches) (length batches) result }
{
    match first_above(ends, most as usize) {
        None => None,
        Some(batch) => {
            let admitted = start_of(ends, batch);
            Some(Stop {
                batch,
                row: RefusedRow {
                    input: batch as u32,
                    cause: Cause::Points {
                        at: batch as u32,
                        admitted: admitted as u32,
                        n: (ends[batch] - admitted) as u32,
                        most,
                    },
                },
            })
        }
    }
}

/// The earlier of two, and at the same batch the first.
pub fn earlier(first: Option<Stop>, second: Option<Stop>) -> Option<Stop>
    ensures { (f g : ℕ → Option RefusedRow) (n : ℕ) → IsFirst f n first → IsFirst g n second → IsFirst (λ k. option_or (f k) (g k)) n result }
{
    match (first, second) {
        (Some(a), Some(b)) => Some(if b.batch < a.batch { b } else { a }),
        (Some(a), None) => Some(a),
        (None, b) => b,
    }
}

/// The first batch that ends above a place.
fn first_above(ends: &[usize], place: usize) -> Option<usize>
    ensures { result ≡ position (λ end. nat_lt place end) ends.now }
{
    ends.iter().position(|end| place < *end)
}

/// Where a batch begins among all points.
pub fn start_of(ends: &[usize], batch: usize) -> usize
    requires { batch < length ends.now }
    ensures { result ≡ (if batch == 0 then 0 else slice_index_or ends.now (batch - 1) 0) }
{
    if batch == 0 { 0 } else { ends[batch - 1] }
}
