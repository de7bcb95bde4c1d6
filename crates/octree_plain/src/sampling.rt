ghost use Rattle.std.specs.Prelude.{◌≡◌, ◌<◌, ◌^◌, ◌%◌, [], All, IsTrue, IfOk, OnOk, length, map, slice_index};
ghost use Rattle.cube_math.specs.Cubes.{contains, cell, child, key};
ghost use Rattle.octree_model.specs.Numbers.{ascending, up_to};
ghost use Rattle.octree_model.specs.Octree.{inside};
ghost use Rattle.octree_model.specs.Voxels.{voxels};
ghost use Rattle.octree_plain.specs.Sampling.{HasLeastKeys, key_at};

use crate::cell_set::CellSet;
use cube_math::{Cube, Point};
use octree_model::Voxel;
use std::alloc::{AllocError, Global};
use std::marker::Model;

/// How many cells a node has.
const CELLS: usize = 2_097_152;

/// What one pass over an inner node's points finds.
#[derive(Drop)]
pub struct Sample {
    /// The voxels of the node, by cell.
    pub voxels: Vec<Voxel>,
    /// How many points lie in each octant.
    pub octants: [usize; 8],
}

/// Finds the voxels of nodes, one node after the other. It is seen as the cells that it has found so far
/// of the node at hand, none between two nodes.
#[derive(Drop)]
pub struct Sampler {
    cells: CellSet,
    /// For each of these cells, where its least key stands among the keys.
    places: Vec<u32>,
    /// The least key of each cell, in the order in which the cells were found.
    keys: Vec<u128>,
}

impl Model for Sampler {
    ghost use Rattle.std.specs.Prelude.{◌≡◌, List, ℕ, length};

    ghost Value = { List ℕ };

    ghost view = { λ s. s.cells };

    ghost invariant = { λ s. length s.places.items ≡ 2097152 };
}

impl Sampler {
    pub fn new(alloc: Global) -> Result<Sampler, AllocError>
        ensures { IfOk result (λ sampler. sampler ≡ []) }
    {
        Ok(Sampler {
            cells: CellSet::new(alloc)?,
            places: vec![in alloc; 0; CELLS]?,
            keys: Vec::new(alloc),
        })
    }

    /// The voxels of an inner node with these points, and how many of them lie in each octant.
    pub fn sample(
        &mut self,
        alloc: Global,
        cube: &Cube,
        points: &[Point],
    ) -> Result<Sample, AllocError>
        requires between_nodes { self.old ≡ [] }
        requires contained { All (λ p. IsTrue (contains cube.now p)) points.now }
        requires splits { 7 < cube.now.bits }
        ensures voxels { IfOk result (λ sample. sample.voxels.items ≡ voxels cube.now points.now) }
        ensures octants { IfOk result (λ sample. sample.octants ≡ map (λ g. length (inside (child cube.now g) points.now)) (up_to 8)) }
        ensures between_nodes { OnOk result (self.new ≡ []) }
    {
        self.keys.clear();
        let octants = find_cells(
            &mut self.cells,
            &mut self.places,
            &mut self.keys,
            cube,
            points,
        )?;
        let cells = self.cells.take(alloc)?;
        Ok(Sample {
            voxels: coloured(alloc, &cells, &self.places, &self.keys)?,
            octants,
        })
    }
}

/// Finds the cells in which points fall and the least key of each of them, and counts the points of
/// each octant. Where memory runs out, what it left of cells and keys is of no use.
fn find_cells(
    cells: &mut CellSet,
    places: &mut [u32],
    keys: &mut Vec<u128>,
    cube: &Cube,
    points: &[Point],
) -> Result<[usize; 8], AllocError>
    requires no_cell { cells.old ≡ [] }
    requires no_key { keys.old.items ≡ [] }
    requires each_cell { length places.old ≡ 2097152 }
    requires contained { All (λ p. IsTrue (contains cube.now p)) points.now }
    requires splits { 7 < cube.now.bits }
    ensures cells { OnOk result (cells.new ≡ ascending (map (cell cube.now) points.now)) }
    ensures least_keys { OnOk result (HasLeastKeys cube.now points.now places.new keys.new.items) }
    ensures octants { IfOk result (λ octants. octants ≡ map (λ g. length (inside (child cube.now g) points.now)) (up_to 8)) }
{
    let mut octants = [0usize; 8];
    for p in points {
        octants[usize::from(cube.octant(p))] += 1;
        let cell = cube.cell(p);
        let key = key_of(cube, p);
        let is_new = cells.insert(cell);
        if is_new {
            places[cell as usize] = keys.len() as u32;
            keys.push(key)?;
        } else {
            let least = &mut keys[places[cell as usize] as usize];
            *least = key.min(*least);
        }
    }
    Ok(octants)
}

/// The key of a point in its cell.
fn key_of(cube: &Cube, p: &Point) -> u128
    requires contained { IsTrue (contains cube.now p.now) }
    requires splits { 7 < cube.now.bits }
    ensures { result ≡ key cube.now p.now }
{
    (u128::from(cube.far(p)) << 24) + u128::from(p.rgb)
}

/// The cells as voxels, each with the colour of its least key.
fn coloured(
    alloc: Global,
    cells: &[u32],
    places: &[u32],
    keys: &[u128],
) -> Result<Vec<Voxel>, AllocError>
    requires small { All (λ z. z < 2 ^ 21) cells.now }
    requires placed { All (λ z. slice_index places.now z < length keys.now) cells.now }
    requires each_cell { length places.now ≡ 2097152 }
    ensures { IfOk result (λ found. found.items ≡ map (λ z. record { cell = z; rgb = key_at places.now keys.now z % 2 ^ 24 }) cells.now) }
{
    let mut found = Vec::with_capacity(alloc, cells.len())?;
    for cell in cells {
        let place = places[*cell as usize];
        let key = keys[place as usize];
        found.push(Voxel {
            cell: *cell,
            rgb: (key % (1 << 24)) as u32,
        })?;
    }
    Ok(found)
}
