ghost use Rattle.std.specs.Prelude.{IfErr, None, map, vec_items};
ghost use Rattle.octree_model.specs.Bags.{joined};
ghost use Rattle.run_report.specs.Faults.{HasAxis};
ghost use Rattle.simlod_app.specs.Dues.{Gives};
ghost use Rattle.simlod_app.specs.Runs.{cube_of, bounds_output};

use crate::clouds::{join, least_cube};
use cube_math::Point;
use octree_plain::bounds_text;
use run_report::Fault;
use std::alloc::Global;

/// The output of `bounds`: what all points of the clouds take up, with the least cube round them. It makes
/// no batches, so any number of points will do.
pub fn bounds_output(alloc: Global, clouds: Vec<Vec<Point>>) -> Result<Vec<u8>, Fault>
    ensures axis { IfErr result HasAxis }
    ensures gives { Gives vec_items result (bounds_output (joined (map vec_items clouds.items)) (cube_of None (joined (map vec_items clouds.items)))) }
{
    let points = join(alloc, clouds)?;
    let cube = least_cube(points.as_slice())?;
    let text = bounds_text(alloc, points.as_slice(), &cube)?;
    Ok(text)
}
