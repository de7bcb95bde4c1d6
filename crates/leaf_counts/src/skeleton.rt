ghost use Rattle.std.specs.Prelude.{◌≡◌, ◌≤◌, ◌++◌, List, [], IfOk, IfErr, IsTrue};
ghost use Rattle.cube_math.specs.Cubes.{contains};
ghost use Rattle.cube_math.specs.Points.{PointValue};
ghost use Rattle.octree_model.specs.Counts.{nodes};
ghost use Rattle.octree_model.specs.Octree.{octree};
ghost use Rattle.leaf_counts.specs.Nodes.{count_at, is_leaf_at, cube_at, node_total};
ghost use Rattle.leaf_counts.specs.Overfull.{overfull};
ghost use Rattle.leaf_counts.specs.Plans.{HasSpills, IsPublished, IsPlanOf, IsRefused, planned, new_inner, new_leaves};
ghost use Rattle.leaf_counts.specs.Skeletons.{skeleton_of};

use crate::counts::Counts;
use crate::descent::{count_below, leaf_below, leaf_once_grown};
use crate::growing::grow_all;
use crate::growth::grown;
use crate::overfilling::add_overfull;
use crate::plan::{Plan, PlanRefusal, Spill};
use crate::progress::Progress;
use cube_math::{Batch, Cube, Path, Point};
use std::alloc::{AllocError, Global};
use std::marker::Model;
use std::mem;

/// The nodes of an octree with their numbers of points, and not the points: what is kept of all
/// batches that were committed.
#[derive(Drop)]
pub struct Skeleton {
    cube: Cube,
    leaf: u32,
    nodes: u32,
    counts: Counts,
}

impl Model for Skeleton {
    ghost use Rattle.leaf_counts.specs.Skeletons.{SkeletonValue, IsSkeleton};

    ghost Value = { SkeletonValue };

    ghost use Rattle.leaf_counts.specs.contracts.counts.Counts as rows;
    ghost use Rattle.std.specs.Coded.{codes};

    ghost coded = { Prim.hlevel (codes, rows.the_row.coded) };

    ghost view = { λ s. record { cube = s.cube; leaf = s.leaf; counts = s.counts } };

    ghost invariant = { λ s. IsSkeleton record { cube = s.cube; leaf = s.leaf; counts = s.counts } s.nodes };
}

impl Plan {
    /// The path of the leaf in whose cube the point will lie once the plan is committed to this skeleton, of
    /// which it is.
    pub fn leaf_of(&self, skeleton: &Skeleton, p: &Point) -> Path
        requires of { IsPlanOf skeleton.now self.now }
        requires contained { IsTrue (contains skeleton.now.cube p.now) }
        ensures leaf { IsTrue (is_leaf_at (planned skeleton.now self.now).counts result) }
        ensures contained { IsTrue (contains (cube_at skeleton.now.cube result) p.now) }
    {
        // So that no path gets longer than 24 octants.
        prove!(skeleton.cube.bits <= 31);
        leaf_once_grown(
            &skeleton.counts,
            &self.growth,
            Path::root(),
            skeleton.cube,
            p,
        )
    }
}

impl Skeleton {
    /// The skeleton of no points, in which a node with more than `leaf` points is split down to cubes
    /// of 7 bits.
    pub fn new(_alloc: Global, cube: Cube, leaf: u32) -> Result<Skeleton, AllocError>
        requires { 1 ≤ leaf }
        ensures { IfOk result (λ skeleton. skeleton ≡ skeleton_of leaf cube []) }
    {
        Ok(Skeleton {
            cube,
            leaf,
            nodes: 1,
            counts: Counts::Leaf(0),
        })
    }

    /// The path of the leaf in whose cube the point lies. It walks down by octants.
    pub fn leaf_of(&self, p: &Point) -> Path
        requires { IsTrue (contains self.now.cube p.now) }
        ensures leaf { IsTrue (is_leaf_at self.now.counts result) }
        ensures contained { IsTrue (contains (cube_at self.now.cube result) p.now) }
    {
        // So that no path gets longer than 24 octants.
        prove!(self.cube.bits <= 31);
        leaf_below(&self.counts, Path::root(), self.cube, p)
    }

    /// How many points lie in the cube of the node with this path, or None where no node has it.
    pub fn count(&self, path: &Path) -> Option<u64>
        ensures { result ≡ count_at self.now.counts path.now }
    {
        count_below(&self.counts, path, 0)
    }

    /// How many nodes there are, leaves and inner nodes together.
    pub fn nodes(&self) -> u32
        ensures { result ≡ node_total self.now.counts }
    {
        self.nodes
    }

    /// The paths, in path order, of the leaves that the batch makes over-full: those with bits above 7
    /// whose count with the batch's points in their cube exceeds the leaf limit.
    pub fn overfull(&self, alloc: Global, batch: &Batch) -> Result<Vec<Path>, AllocError>
        requires { batch.now.cube ≡ self.now.cube }
        ensures { IfOk result (λ paths. paths.items ≡ overfull self.now.leaf self.now.cube self.now.counts batch.now.points) }
    {
        // So that no path gets longer than 24 octants.
        prove!(self.cube.bits <= 31);
        let mut paths = Vec::new(alloc);
        add_overfull(
            alloc,
            &mut paths,
            &self.counts,
            Path::root(),
            self.cube,
            self.leaf,
            batch.points(),
        )?;
        Ok(paths)
    }

    /// Plans what the batch does, of the spills of the leaves that it makes over-full. The skeleton stays.
    pub fn plan(
        &self,
        alloc: Global,
        batch: &Batch,
        spills: &[Spill],
        most: u32,
    ) -> Result<Plan, PlanRefusal>
        requires cube { batch.now.cube ≡ self.now.cube }
        requires spills { HasSpills self.now batch.now.points spills.now }
        ensures of { IfOk result (λ plan. IsPlanOf self.now plan) }
        ensures after { (points : List PointValue) → IsPublished self.now batch.now.points spills.now points → IfOk result (λ plan. planned self.now plan ≡ skeleton_of self.now.leaf self.now.cube (points ++ batch.now.points)) }
        ensures splits { IfOk result (λ plan. plan.splits ≡ new_inner self.now.counts (planned self.now plan).counts) }
        ensures leaves { IfOk result (λ plan. plan.leaves ≡ new_leaves self.now.counts (planned self.now plan).counts) }
        ensures within { IfOk result (λ plan. plan.nodes ≤ most) }
        ensures bounded { (points : List PointValue) → IsPublished self.now batch.now.points spills.now points
            → IfOk result (λ plan. nodes (octree self.now.leaf self.now.cube (points ++ batch.now.points)) ≤ most) }
        ensures refused { (points : List PointValue) → IsPublished self.now batch.now.points spills.now points → IfErr result (λ refusal. IsRefused refusal (nodes (octree self.now.leaf self.now.cube (points ++ batch.now.points))) most) }
    {
        let mut progress = Progress::new(alloc);
        let growth = grow_all(
            alloc,
            &mut progress,
            spills,
            &self.counts,
            self.cube,
            self.leaf,
            batch.points(),
        )?;
        let need = u64::from(self.nodes) + 8 * progress.splits.len() as u64;
        if need > u64::from(most) {
            return Err(PlanRefusal::NodesFull { need, most });
        }
        Ok(Plan {
            growth,
            nodes: need as u32,
            splits: progress.splits,
            leaves: progress.leaves,
        })
    }

    /// Does what was planned of the skeleton as it is. It changes the planned nodes alone, and takes no
    /// memory.
    pub fn commit(&mut self, plan: Plan)
        requires { IsPlanOf self.old plan }
        ensures { self.new ≡ planned self.old plan }
    {
        let Plan { growth, nodes, .. } = plan;
        let counts = mem::replace(&mut self.counts, Counts::Leaf(0));
        self.counts = grown(counts, growth);
        self.nodes = nodes;
    }
}
