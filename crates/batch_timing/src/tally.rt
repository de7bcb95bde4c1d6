use batch_levels::Level;
use least_runs::CellTable;
use octree_plain::Tree;
use std::alloc::{AllocError, Global};

/// How much was made: so many points in the leaves, nodes, and voxels.
#[derive(Clone, Copy)]
pub struct Tally {
    pub points: u64,
    pub nodes: u64,
    pub voxels: u64,
}

impl Tally {
    fn new() -> Tally {
        Tally {
            points: 0,
            nodes: 0,
            voxels: 0,
        }
    }

    /// Counts a leaf with so many points.
    fn leaf(&mut self, points: usize) {
        self.nodes = self.nodes.wrapping_add(1);
        self.points = self.points.wrapping_add(points as u64);
    }

    /// Counts an inner node with so many voxels.
    fn inner(&mut self, voxels: usize) {
        self.nodes = self.nodes.wrapping_add(1);
        self.voxels = self.voxels.wrapping_add(voxels as u64);
    }
}

/// The tally of levels.
pub fn of_level(alloc: Global, root: &Level) -> Result<Tally, AllocError> {
    let mut tally = Tally::new();
    let mut table = CellTable::new(alloc)?;
    add_level(alloc, &mut table, &mut tally, root)?;
    Ok(tally)
}

/// The tally of an octree.
pub fn of_tree(root: &Tree) -> Tally {
    let mut tally = Tally::new();
    add_tree(&mut tally, root);
    tally
}

fn add_level(
    alloc: Global,
    table: &mut CellTable,
    tally: &mut Tally,
    level: &Level,
) -> Result<(), AllocError> {
    match level {
        Level::Leaf(points) => tally.leaf(points.len()),
        Level::Inner(node) => {
            let voxels = node.runs().voxels(alloc, table)?;
            tally.inner(voxels.len());
            for below in node.levels() {
                add_level(alloc, table, tally, below)?;
            }
        }
    }
    Ok(())
}

fn add_tree(tally: &mut Tally, tree: &Tree) {
    match tree {
        Tree::Leaf(leaf) => tally.leaf(leaf.points().len()),
        Tree::Inner(node) => {
            tally.inner(node.voxels().len());
            for below in node.trees() {
                add_tree(tally, below);
            }
        }
    }
}
