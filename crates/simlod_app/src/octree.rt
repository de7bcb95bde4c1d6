ghost use Rattle.std.specs.Prelude.{◌≡◌, ◌<◌, ◌^◌, ◌↔◌, IsTrue, List, IfOk, IfErr, length, map, vec_items};
ghost use Rattle.batch_bounds.specs.Batches.{batches, ends_from};
ghost use Rattle.batch_bounds.specs.Stops.{CanCut};
ghost use Rattle.camera_cut.specs.Fields.{camera_of};
ghost use Rattle.cube_math.specs.Points.{PointValue};
ghost use Rattle.octree_model.specs.Bags.{joined};
ghost use Rattle.octree_model.specs.Octree.{octree};
ghost use Rattle.octree_model.specs.Shapes.{IsOctreeIn};
ghost use Rattle.run_report.specs.Faults.{HasAxis};
ghost use Rattle.run_words.specs.Values.{HasRanges};
ghost use Rattle.simlod_app.specs.Dues.{Gives};
ghost use Rattle.simlod_app.specs.Runs.{cube_of, camera_numbers, limits_of, octree_output, octree_output_in, tree_output};

use crate::clouds::{join, least_cube};
use crate::faults;
use batch_bounds::{Limits, batch_ends, build_within};
use camera_cut::{Camera, CameraNumbers};
use cube_math::{Cube, Point};
use octree_plain::{Tree, demo_text, nodes_text};
use run_report::Fault;
use run_words::{CommandName, Job};
use splat_ppm::picture_of;
use std::alloc::{AllocError, Global};

/// The output of `nodes`, `image` and `demo`: what the job shows of the octree of all points of the clouds.
pub fn octree_output(alloc: Global, clouds: Vec<Vec<Point>>, job: &Job) -> Result<Vec<u8>, Fault>
    requires { HasRanges job.now }
    ensures axis { IfErr result HasAxis }
    ensures gives { Gives vec_items result (octree_output job.now (map vec_items clouds.items)) }
{
    // Places and batches have numbers of 32 bits. From 2^32 points on a run ends as one that found no memory.
    if !are_few(clouds.as_slice()) {
        return Err(Fault::Memory);
    }
    let ends = batch_ends(alloc, clouds.as_slice(), job.batch)?;
    let points = join(alloc, clouds)?;
    let cube = root_cube(points.as_slice(), job.cube)?;
    octree_output_in(alloc, points.as_slice(), ends.as_slice(), &cube, job)
}

/// Whether the clouds have fewer than 2^32 points together.
fn are_few(clouds: &[Vec<Point>]) -> bool
    ensures { IsTrue result ↔ (length (joined (map vec_items clouds.now)) < 2 ^ 32) }
{
    let mut left = u32::MAX as usize;
    for cloud in clouds {
        if cloud.len() > left {
            return false;
        }
        left -= cloud.len();
    }
    true
}

/// The cube that was given, or the least one round all points, if there is one.
fn root_cube(points: &[Point], given: Option<Cube>) -> Result<Cube, Fault>
    ensures axis { IfErr result HasAxis }
    ensures gives { Gives (λ cube. cube) result (cube_of given points.now) }
{
    match given {
        Some(cube) => Ok(cube),
        None => least_cube(points),
    }
}

/// The same for points that are cut into batches, in their root cube, if no bound refuses a batch.
fn octree_output_in(
    alloc: Global,
    points: &[Point],
    ends: &[usize],
    cube: &Cube,
    job: &Job,
) -> Result<Vec<u8>, Fault>
    requires cut { CanCut points.now ends.now }
    requires few { length points.now < 2 ^ 32 }
    requires batches { length ends.now < 2 ^ 32 }
    requires ranges { HasRanges job.now }
    ensures axis { IfErr result HasAxis }
    ensures gives { (clouds : List (List PointValue)) → points.now ≡ joined clouds → ends.now ≡ ends_from 0 (batches job.now.batch clouds)
        → Gives vec_items result (octree_output_in job.now clouds cube.now) }
{
    match build_within(alloc, points, ends, cube, &limits_of(job)) {
        Ok(tree) => match tree_output(alloc, &tree, cube, ends.len(), job) {
            Ok(output) => Ok(output),
            Err(_) => Err(Fault::Memory),
        },
        Err(refusal) => Err(faults::refusal_fault(refusal)),
    }
}

/// What a job shows of an octree whose points came in so many batches: a picture, how much it has, or the
/// list of its nodes.
fn tree_output(
    alloc: Global,
    tree: &Tree,
    cube: &Cube,
    batch_count: usize,
    job: &Job,
) -> Result<Vec<u8>, AllocError>
    requires octree { IsOctreeIn cube.now tree.now }
    requires ranges { HasRanges job.now }
    ensures { (clouds : List (List PointValue)) → tree.now ≡ octree job.now.leaf cube.now (joined clouds) → batch_count ≡ length (batches job.now.batch clouds)
        → IfOk result (λ output. output.items ≡ tree_output job.now cube.now clouds) }
{
    match job.command {
        CommandName::Image => picture_of(alloc, tree, cube, &camera_of(job)),
        CommandName::Demo => demo_text(alloc, tree, cube, batch_count),
        _ => nodes_text(alloc, tree, cube, job.voxels),
    }
}

/// The limits on a job's octree.
fn limits_of(job: &Job) -> Limits
    ensures { result ≡ limits_of job.now }
{
    Limits {
        leaf: job.leaf,
        nodes: job.nodes,
        points: job.points,
    }
}

/// The camera of a job.
fn camera_of(job: &Job) -> Camera
    requires { HasRanges job.now }
    ensures { result ≡ camera_of (camera_numbers job.now) }
{
    match Camera::new(numbers_of(job)) {
        Ok(camera) => camera,
        Err(_) => unreachable!(),
    }
}

/// The numbers of a job's camera.
fn numbers_of(job: &Job) -> CameraNumbers
    ensures { result ≡ camera_numbers job.now }
{
    let (width, height) = job.size;
    CameraNumbers {
        pos: job.pos,
        rows: job.rows,
        focal: job.focal,
        near: job.near,
        width,
        height,
        threshold: job.threshold,
        dot: job.dot,
    }
}
