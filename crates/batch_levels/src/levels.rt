ghost use Rattle.std.specs.Prelude.{◌≡◌, ◌≤◌, ◌+◌, ◌<◌, ◌^◌, ◌++◌, List, [], IfOk, IfErr, length};
ghost use Rattle.cube_math.specs.Points.{PointValue};
ghost use Rattle.leaf_counts.specs.Nodes.{node_total};
ghost use Rattle.leaf_counts.specs.Plans.{IsRefused};
ghost use Rattle.octree_model.specs.Counts.{nodes};
ghost use Rattle.octree_model.specs.Octree.{octree};
ghost use Rattle.batch_levels.specs.Levels.{AreAllOf, levels_of};

use crate::growing::grown;
use crate::level::Level;
use crate::spilling::spills_of;
use cube_math::{Batch, Cube};
use leaf_counts::{PlanRefusal, Skeleton};
use least_runs::CellTable;
use sqlite_items::Items;
use std::alloc::{AllocError, Global};
use std::marker::Model;

/// An octree kept batch by batch: its skeleton, the points of its leaves, and the runs of its inner nodes,
/// with the table by which these are made. It is there to measure what batches cost, and to be compared with the octree of all points.
#[derive(Drop)]
pub struct Levels {
    skeleton: Skeleton,
    cube: Cube,
    leaf: u32,
    total: u32,
    root: Level,
    table: CellTable,
}

impl Model for Levels {
    ghost use Rattle.batch_levels.specs.Levels.{LevelsValue, AreLevels};
    ghost use Rattle.std.specs.Prelude.{◌≡◌};

    ghost Value = { LevelsValue };

    ghost use Rattle.leaf_counts.specs.contracts.counts.Counts as counts_rows;
    ghost use Rattle.batch_levels.specs.contracts.level.Level as rows;
    ghost use Rattle.std.specs.Coded.{codes};

    ghost coded = { Prim.hlevel (codes, counts_rows.the_row.coded, rows.the_row.coded) };

    ghost view = { λ l. record { skeleton = l.skeleton; total = l.total; root = l.root } };

    ghost invariant = { λ l. AreLevels record { skeleton = l.skeleton; total = l.total; root = l.root } × (l.cube ≡ l.skeleton.cube) × (l.leaf ≡ l.skeleton.leaf) };
}

impl Levels {
    /// The levels of no points, in which a node with more than `leaf` points is split down to cubes of
    /// 7 bits.
    pub fn new(alloc: Global, cube: Cube, leaf: u32) -> Result<Levels, AllocError>
        requires { 1 ≤ leaf }
        ensures { IfOk result (λ levels. levels ≡ levels_of leaf cube []) }
    {
        Ok(Levels {
            skeleton: Skeleton::new(alloc, cube, leaf)?,
            cube,
            leaf,
            total: 0,
            root: Level::Leaf(Items::new(alloc)),
            table: CellTable::new(alloc)?,
        })
    }

    /// The nodes with their counts.
    pub fn skeleton(&self) -> &Skeleton
        ensures { result.now ≡ self.now.skeleton }
    {
        &self.skeleton
    }

    /// How many points have come.
    pub fn total(&self) -> u32
        ensures { result ≡ self.now.total }
    {
        self.total
    }

    /// The root.
    pub fn root(&self) -> &Level
        ensures { result.now ≡ self.now.root }
    {
        &self.root
    }

    /// The levels with a batch's points too. Where there would be more nodes than `most`, or memory is
    /// wanting, the levels are let go.
    pub fn add(self, alloc: Global, batch: &Batch, most: u32) -> Result<Levels, PlanRefusal>
        requires cube { batch.now.cube ≡ self.skeleton.cube }
        requires few { self.total + length batch.now.points < 2 ^ 32 }
        ensures after { (points : List PointValue) → AreAllOf self points → IfOk result (λ levels. levels ≡ levels_of self.skeleton.leaf self.skeleton.cube (points ++ batch.now.points)) }
        ensures within { IfOk result (λ levels. node_total levels.skeleton.counts ≤ most) }
        ensures refused { (points : List PointValue) → AreAllOf self points → IfErr result (λ refusal. IsRefused refusal (nodes (octree self.skeleton.leaf self.skeleton.cube (points ++ batch.now.points))) most) }
    {
        let Levels {
            mut skeleton,
            cube,
            leaf,
            total,
            root,
            mut table,
        } = self;
        let paths = skeleton.overfull(alloc, batch)?;
        let spills = spills_of(alloc, &root, paths.as_slice())?;
        let plan = skeleton.plan(alloc, batch, spills.as_slice(), most)?;
        drop(spills);
        let root = grown(alloc, &mut table, root, batch.points(), cube, leaf)?;
        skeleton.commit(plan);
        Ok(Levels {
            skeleton,
            cube,
            leaf,
            total: total + batch.points().len() as u32,
            root,
            table,
        })
    }
}
