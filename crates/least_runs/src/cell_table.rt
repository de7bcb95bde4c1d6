ghost use Rattle.std.specs.Prelude.{◌≡◌, ◌<◌, ◌^◌, [], ◌∷◌, ◌++◌, All, IsTrue, IfOk, OnOk, map, length};
ghost use Rattle.cube_math.specs.Cubes.{contains};
ghost use Rattle.voxel_sampler.specs.Nears.{least_nears, near_at, near_key, nears, voxel_of};
ghost use Rattle.least_runs.specs.Runs.{joined_run, voxels_of};
ghost use Rattle.least_runs.specs.Tables.{HasEntry, entry_at};

use crate::cell_marks::CellMarks;
use crate::least_run::LeastRun;
use cube_math::{Cube, Point};
use octree_model::Voxel;
use std::alloc::{AllocError, Global};
use std::marker::Model;
use std::sync::Arc;
use voxel_sampler::Near;

/// How many cells a node has.
const CELLS: usize = 2_097_152;

/// A table with a place for each of the 2^21 cells of a node, by which runs are made: it takes 8 MB, and is kept for
/// the next call. Contracts see it as the least keys that stand in it, which are none between two calls.
#[derive(Drop)]
pub struct CellTable {
    /// The cells that have a key.
    cells: CellMarks,
    /// For each of these cells, where its key stands.
    places: Vec<u32>,
    /// The least key of each cell, in the order in which the cells were found.
    nears: Vec<Near>,
}

impl Model for CellTable {
    ghost use Rattle.std.specs.Prelude.{List};
    ghost use Rattle.voxel_sampler.specs.Nears.{NearValue, least_nears};
    ghost use Rattle.least_runs.specs.Tables.{IsTable};

    ghost Value = { List NearValue };

    ghost view = { λ t. least_nears t.nears.items };

    ghost invariant = { λ t. IsTable t.cells t.places.items t.nears.items };
}

impl CellTable {
    /// A table without keys.
    pub fn new(alloc: Global) -> Result<CellTable, AllocError>
        ensures { IfOk result (λ table. table ≡ []) }
    {
        Ok(CellTable {
            cells: CellMarks::new(alloc)?,
            places: vec![in alloc; 0; CELLS]?,
            nears: Vec::new(alloc),
        })
    }

    /// The run of points in an inner node's cube: the least key of each cell in which one of them falls. What an
    /// earlier call left for want of memory is of no matter.
    pub fn run_of(
        &mut self,
        alloc: Global,
        cube: &Cube,
        points: &[Point],
    ) -> Result<LeastRun, AllocError>
        requires contained { All (λ p. IsTrue (contains cube.now p)) points.now }
        requires splits { 7 < cube.now.bits }
        ensures run { IfOk result (λ run. run ≡ nears cube.now points.now) }
        ensures emptied { OnOk result (self.new ≡ []) }
    {
        self.begin();
        for p in points {
            self.put(Near::of(cube, p))?;
        }
        Ok(LeastRun::new(self.take(alloc)?))
    }

    /// One run in place of some: the least entry of each cell over these.
    pub fn join(&mut self, alloc: Global, runs: &[Arc<LeastRun>]) -> Result<LeastRun, AllocError>
        ensures run { IfOk result (λ run. run ≡ joined_run (map (λ run. run.value) runs.now)) }
        ensures emptied { OnOk result (self.new ≡ []) }
    {
        self.begin();
        for run in runs {
            self.put_all(run.nears())?;
        }
        Ok(LeastRun::new(self.take(alloc)?))
    }

    /// The voxels of a node with these runs: each cell with the colour of its least entry, ascending by cell.
    pub fn voxels_of(
        &mut self,
        alloc: Global,
        runs: &[Arc<LeastRun>],
    ) -> Result<Vec<Voxel>, AllocError>
        ensures { IfOk result (λ voxels. voxels.items ≡ voxels_of (map (λ run. run.value) runs.now)) }
    {
        if runs.len() == 1 {
            // A lone run has one entry a cell: nothing is to be looked up.
            let found = voxels(alloc, runs[0].nears())?;
            return Ok(found);
        }
        let run = self.join(alloc, runs)?;
        voxels(alloc, run.nears())
    }

    /// Forgets what a call left that memory did not suffice for.
    fn begin(&mut self)
        ensures { self.new ≡ [] }
    {
        if self.nears.is_empty() {
            return;
        }
        self.clear();
    }

    /// Puts a key in: where its cell has one, the lesser of the two stays.
    fn put(&mut self, near: Near) -> Result<(), AllocError>
        ensures { OnOk result (self.new ≡ least_nears (self.old ++ near ∷ [])) }
    {
        let cell = near.cell;
        // Read, so that its colour number is known to be one.
        let _rgb = near.rgb;
        if self.cells.has(cell) {
            let known = &mut self.nears[self.places[cell as usize] as usize];
            *known = known.lesser(near);
        } else {
            let place = self.nears.len() as u32;
            self.nears.push(near)?;
            self.places[cell as usize] = place;
            self.cells.insert(cell);
        }
        Ok(())
    }

    /// Puts all these keys in.
    fn put_all(&mut self, nears: &[Near]) -> Result<(), AllocError>
        ensures { OnOk result (self.new ≡ least_nears (self.old ++ nears.now)) }
    {
        // Read, so that the keys so far are known to be least keys.
        let _ = &self.nears;
        for near in nears {
            self.put(*near)?;
        }
        Ok(())
    }

    /// The keys, ascending by cell. Where this succeeds the table has none afterwards.
    fn take(&mut self, alloc: Global) -> Result<Vec<Near>, AllocError>
        ensures keys { IfOk result (λ keys. keys.items ≡ self.old) }
        ensures emptied { OnOk result (self.new ≡ []) }
    {
        let cells = self.cells.list(alloc, self.nears.len())?;
        let keys = entries_of(alloc, &cells, &self.places, &self.nears)?;
        self.clear();
        Ok(keys)
    }

    /// Takes all keys out. The places stay, since they count for cells with a key alone.
    fn clear(&mut self)
        ensures { self.new ≡ [] }
    {
        self.cells.empty();
        self.nears.clear();
    }
}

/// The entry of each of the cells.
fn entries_of(
    alloc: Global,
    cells: &[u32],
    places: &[u32],
    nears: &[Near],
) -> Result<Vec<Near>, AllocError>
    requires long { length places.now ≡ 2097152 }
    requires each { All (λ z. HasEntry places.now nears.now z) cells.now }
    ensures { IfOk result (λ entries. entries.items ≡ map (λ z. near_at z (near_key (entry_at places.now nears.now z))) cells.now) }
{
    let mut entries = Vec::with_capacity(alloc, cells.len())?;
    for cell in cells {
        let near = nears[places[*cell as usize] as usize];
        // Read, so that its colour number is known to be one.
        let _rgb = near.rgb;
        entries.push(near)?;
    }
    Ok(entries)
}

/// Each key as a voxel.
fn voxels(alloc: Global, nears: &[Near]) -> Result<Vec<Voxel>, AllocError>
    ensures voxels { IfOk result (λ voxels. voxels.items ≡ map voxel_of nears.now) }
    ensures small { OnOk result (All (λ n. n.rgb < 2 ^ 24) nears.now) }
{
    let mut voxels = Vec::with_capacity(alloc, nears.len())?;
    for near in nears {
        let _rgb = near.rgb;
        voxels.push(near.voxel())?;
    }
    Ok(voxels)
}
