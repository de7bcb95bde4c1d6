ghost use Rattle.std.specs.Prelude.{◌≡◌, length};

use crate::voxel::Voxel;
use cube_math::Point;
use sqlite_items::Items;
use std::marker::Model;

/// The points of a leaf, in order.
#[derive(Drop)]
pub struct Points {
    points: Vec<Point>,
}

impl Model for Points {
    ghost use Rattle.std.specs.Prelude.{List};
    ghost use Rattle.cube_math.specs.Points.{PointValue};

    ghost Value = { List PointValue };

    ghost view = { λ p. p.points.items };
}

impl Points {
    /// The points of a leaf, moved in.
    pub fn new(points: Vec<Point>) -> Points
        ensures { result ≡ points.items }
    {
        Points { points }
    }

    /// The points, in order.
    pub fn points(&self) -> &[Point]
        ensures { result.now ≡ self.now }
    {
        self.points.as_slice()
    }
}

/// An octree: a leaf with all its points, or an inner node.
#[cycle(tree)]
#[derive(Drop)]
pub enum Tree {
    Leaf(Points),
    Inner(InnerNode),
}

/// An inner node: how many points lie in its cube, its voxels in order of cells, and eight trees in
/// order of octants.
#[cycle(tree)]
#[derive(Drop)]
pub struct InnerNode {
    count: u64,
    voxels: Items<Voxel>,
    trees: Items<Tree>,
}

impl InnerNode {
    /// An inner node of these parts, moved in.
    pub fn new(count: u64, voxels: Vec<Voxel>, trees: Vec<Tree>) -> InnerNode
        requires { length trees.items ≡ 8 }
        ensures { result ≡ record { count = count; voxels = voxels.items; trees = trees.items } }
    {
        InnerNode {
            count,
            voxels: Items::from_vec(voxels),
            trees: Items::from_vec(trees),
        }
    }

    /// How many points lie in the node's cube.
    pub fn count(&self) -> u64
        ensures { result ≡ self.now.count }
    {
        self.count
    }

    /// The voxels, ascending by cell.
    pub fn voxels(&self) -> &[Voxel]
        ensures { result.now ≡ self.now.voxels }
    {
        self.voxels.as_slice()
    }

    /// The eight trees below, by octant.
    pub fn trees(&self) -> &[Tree]
        ensures { result.now ≡ self.now.trees }
    {
        self.trees.as_slice()
    }
}
