ghost use Rattle.std.specs.Prelude.{◌≡◌, ◌<◌, ◌≤◌, IsTrue, IfOk, OnOk, All, length, map, vec_items, replicate, []};
ghost use Rattle.cube_math.specs.Cubes.{contains, child};
ghost use Rattle.octree_model.specs.Numbers.{up_to};
ghost use Rattle.octree_model.specs.Octree.{octree, inside};
ghost use Rattle.std.specs.Cow.{cow_slice_items};

use crate::sampling::{Sample, Sampler};
use cube_math::{Cube, Point};
use octree_model::{InnerNode, Points, Tree};
use std::alloc::{AllocError, Global};
use std::borrow::CowSlice;

/// The octree of the points, in which a node with more than `leaf` points is split down to cubes of 7 bits.
/// Beside the slice each point is held once, and twice while those of its node are spread.
pub fn build(alloc: Global, points: &[Point], cube: Cube, leaf: u32) -> Result<Tree, AllocError>
    requires contained { All (λ p. IsTrue (contains cube p)) points.now }
    requires leaf { 1 ≤ leaf }
    ensures { IfOk result (λ tree. tree ≡ octree leaf cube points.now) }
{
    let mut sampler = Sampler::new(alloc)?;
    grow(alloc, &mut sampler, CowSlice::Borrowed(points), cube, leaf)
}

/// The octree of a node's points. A list of its own is let go once its points are spread over the
/// children; the caller's stays where it is.
fn grow(
    alloc: Global,
    sampler: &mut Sampler,
    points: CowSlice<'_, Point>,
    cube: Cube,
    leaf: u32,
) -> Result<Tree, AllocError>
    requires between_nodes { sampler.old ≡ [] }
    requires contained { All (λ p. IsTrue (contains cube p)) (cow_slice_items points) }
    ensures tree { IfOk result (λ tree. tree ≡ octree leaf cube (cow_slice_items points.entry)) }
    ensures between_nodes { OnOk result (sampler.new ≡ []) }
{
    if points.len() <= leaf as usize || cube.bits == 7 {
        return Ok(Tree::Leaf(Points::new(points.into_owned(alloc)?)));
    }
    let Sample { voxels, octants } = sampler.sample(alloc, &cube, points.as_slice())?;
    let count = points.len() as u64;
    let lists = spread_counted(alloc, &cube, points.as_slice(), &octants)?;
    drop(points);
    let mut trees = Vec::with_capacity(alloc, 8)?;
    let mut g = 0u8;
    for list in lists {
        let own = CowSlice::Owned(list);
        trees.push(grow(alloc, sampler, own, cube.child(g), leaf)?)?;
        g += 1;
    }
    Ok(Tree::Inner(InnerNode::new(count, voxels, trees)))
}

/// The points of each child, in the order of the children.
pub fn spread(alloc: Global, cube: &Cube, points: &[Point]) -> Result<Vec<Vec<Point>>, AllocError>
    requires contained { All (λ p. IsTrue (contains cube.now p)) points.now }
    requires splits { 7 < cube.now.bits }
    ensures { IfOk result (λ lists. map vec_items lists.items ≡ map (λ g. inside (child cube.now g) points.now) (up_to 8)) }
{
    spread_counted(alloc, cube, points, &count_octants(cube, points))
}

/// As `spread`, with room for so many points in each list: where these are the counts of the octants, no
/// list grows point by point.
fn spread_counted(
    alloc: Global,
    cube: &Cube,
    points: &[Point],
    octants: &[usize; 8],
) -> Result<Vec<Vec<Point>>, AllocError>
    requires contained { All (λ p. IsTrue (contains cube.now p)) points.now }
    requires splits { 7 < cube.now.bits }
    ensures { IfOk result (λ lists. map vec_items lists.items ≡ map (λ g. inside (child cube.now g) points.now) (up_to 8)) }
{
    let mut lists = empty_lists(alloc, octants)?;
    for p in points {
        let list = &mut lists[usize::from(cube.octant(p))];
        list.push(*p)?;
    }
    Ok(lists)
}

/// How many points lie in each octant.
fn count_octants(cube: &Cube, points: &[Point]) -> [usize; 8]
    requires contained { All (λ p. IsTrue (contains cube.now p)) points.now }
    requires splits { 7 < cube.now.bits }
    ensures { result ≡ map (λ g. length (inside (child cube.now g) points.now)) (up_to 8) }
{
    let mut counts = [0usize; 8];
    for p in points {
        counts[usize::from(cube.octant(p))] += 1;
    }
    counts
}

/// Eight empty lists with room for so many points.
fn empty_lists(alloc: Global, counts: &[usize; 8]) -> Result<Vec<Vec<Point>>, AllocError>
    ensures { IfOk result (λ lists. map vec_items lists.items ≡ replicate 8 []) }
{
    let mut lists = Vec::with_capacity(alloc, 8)?;
    for octant in 0..8usize {
        lists.push(Vec::with_capacity(alloc, counts[octant])?)?;
    }
    Ok(lists)
}
