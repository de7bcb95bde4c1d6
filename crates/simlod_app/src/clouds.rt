ghost use Rattle.std.specs.Prelude.{◌≡◌, IfOk, IfErr, None, map, vec_items};
ghost use Rattle.octree_model.specs.Bags.{joined};
ghost use Rattle.run_report.specs.Faults.{HasAxis};
ghost use Rattle.simlod_app.specs.Dues.{Gives};
ghost use Rattle.simlod_app.specs.Runs.{cube_of};

use crate::faults;
use cube_math::{Cube, Point};
use octree_plain::fit_cube;
use run_report::Fault;
use std::alloc::{AllocError, Global};

/// The points of all clouds, one cloud after the other. The points of a lone cloud are moved.
pub fn join(alloc: Global, clouds: Vec<Vec<Point>>) -> Result<Vec<Point>, AllocError>
    ensures { IfOk result (λ points. points.items ≡ joined (map vec_items clouds.items)) }
{
    let mut points = Vec::new(alloc);
    for mut cloud in clouds {
        if points.is_empty() {
            points = cloud;
        } else {
            points.append(&mut cloud)?;
        }
    }
    Ok(points)
}

/// The least cube round all points, if there is one.
pub fn least_cube(points: &[Point]) -> Result<Cube, Fault>
    ensures axis { IfErr result HasAxis }
    ensures gives { Gives (λ cube. cube) result (cube_of None points.now) }
{
    match fit_cube(points) {
        Ok(cube) => Ok(cube),
        Err(span) => Err(faults::span_fault(span)),
    }
}
