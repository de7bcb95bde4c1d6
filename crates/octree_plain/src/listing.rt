ghost use Rattle.std.specs.Prelude.{◌≡◌, ◌++◌, IfOk, OnOk, string_bytes, length};
ghost use Rattle.std.specs.List.{flat_map};
ghost use Rattle.octree_model.specs.Bags.{leaf_points};
ghost use Rattle.octree_model.specs.Shapes.{IsOctree, IsOctreeIn};
ghost use Rattle.octree_plain.specs.Descent.{IsOctreeBelow};
ghost use Rattle.octree_plain.specs.Listing.{nodes_text, lines, cube_line, path_text, voxel_line};

use crate::count::node_count;
use cube_math::{Cube, Path};
use octree_model::{Tree, Voxel};
use std::alloc::{AllocError, Global};

/// The text of the octree in the cube: a line of the cube, a line of each node in path order, under an
/// inner node a line of each of its voxels where voxels are wanted, and a line of the numbers of nodes
/// and points.
pub fn nodes_text(
    alloc: Global,
    tree: &Tree,
    cube: &Cube,
    voxels: bool,
) -> Result<Vec<u8>, AllocError>
    requires { IsOctreeIn cube.now tree.now }
    ensures { IfOk result (λ text. text.items ≡ nodes_text voxels tree.now cube.now) }
{
    // So that no path gets longer than 24 octants.
    prove!(cube.bits <= 31);
    let mut out = String::new(alloc);
    write_cube(&mut out, cube)?;
    write_lines(&mut out, tree, Path::root(), voxels)?;
    let nodes = node_count(tree);
    let points = point_count(tree);
    writeln!(out, "nodes {nodes} points {points}")?;
    Ok(out.into_bytes())
}

pub(crate) fn write_cube(out: &mut String, cube: &Cube) -> Result<(), AllocError>
    ensures { OnOk result (string_bytes out.new ≡ string_bytes out.old ++ cube_line cube.now) }
{
    let Cube { ox, oy, oz, bits } = *cube;
    writeln!(out, "cube {ox} {oy} {oz} {bits}")
}

/// How many points the leaves of the octree have together.
pub(crate) fn point_count(tree: &Tree) -> u64
    requires { IsOctree tree.now }
    ensures { result ≡ length (leaf_points tree.now) }
{
    match tree {
        Tree::Leaf(points) => points.points().len() as u64,
        Tree::Inner(node) => node.count(),
    }
}

/// Appends the lines of the octree whose root has the path.
fn write_lines(out: &mut String, tree: &Tree, path: Path, voxels: bool) -> Result<(), AllocError>
    requires { IsOctreeBelow path tree.now }
    ensures { OnOk result (string_bytes out.new ≡ string_bytes out.old ++ lines voxels tree.now path) }
{
    write_path(out, &path)?;
    match tree {
        Tree::Leaf(points) => {
            let n = points.points().len();
            writeln!(out, " leaf {n}")
        }
        Tree::Inner(node) => {
            let n = node.count();
            let cells = node.voxels().len();
            writeln!(out, " inner {n} {cells}")?;
            if voxels {
                write_voxels(out, node.voxels())?;
            }
            for (g, t) in node.trees().iter().enumerate() {
                write_lines(out, t, path.child(g as u8), voxels)?;
            }
            Ok(())
        }
    }
}

fn write_path(out: &mut String, path: &Path) -> Result<(), AllocError>
    ensures { OnOk result (string_bytes out.new ≡ string_bytes out.old ++ path_text path.now) }
{
    out.push('r')?;
    for i in 0..path.len() {
        let octant = path.octant(i);
        write!(out, "{octant}")?;
    }
    Ok(())
}

fn write_voxels(out: &mut String, voxels: &[Voxel]) -> Result<(), AllocError>
    ensures { OnOk result (string_bytes out.new ≡ string_bytes out.old ++ flat_map voxel_line voxels.now) }
{
    for voxel in voxels {
        let Voxel { cell, rgb } = *voxel;
        writeln!(out, "v {cell} {rgb:06x}")?;
    }
    Ok(())
}
