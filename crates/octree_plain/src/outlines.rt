ghost use Rattle.std.specs.Prelude.{◌≡◌, ◌+◌, ◌≤◌, ◌++◌, length, IfOk, OnOk};
ghost use Rattle.octree_model.specs.Outlines.{outline, outline_at};
ghost use Rattle.octree_model.specs.Shapes.{IsOctreeIn};

use cube_math::{Cube, Path};
use octree_model::{OutlineNode, Tree};
use std::alloc::{AllocError, Global};

/// The outline of the octree in the cube: its nodes in path order.
pub fn outline(alloc: Global, tree: &Tree, cube: &Cube) -> Result<Vec<OutlineNode>, AllocError>
    requires { IsOctreeIn cube.now tree.now }
    ensures { IfOk result (λ nodes. nodes.items ≡ outline tree.now cube.now) }
{
    // So that no path gets longer than 24 octants.
    prove!(cube.bits <= 31);
    let mut nodes = Vec::new(alloc);
    add_outline(&mut nodes, tree, Path::root(), *cube)?;
    Ok(nodes)
}

/// Appends the outline of the octree whose root has the path and the cube.
fn add_outline(
    nodes: &mut Vec<OutlineNode>,
    tree: &Tree,
    path: Path,
    cube: Cube,
) -> Result<(), AllocError>
    requires octree { IsOctreeIn cube tree.now }
    requires room { length path + cube.bits ≤ 31 }
    ensures { OnOk result (nodes.new.items ≡ nodes.old.items ++ outline_at tree.now path cube) }
{
    match tree {
        Tree::Leaf(_) => {
            nodes.push(OutlineNode {
                path,
                cube,
                inner: false,
            })?;
            Ok(())
        }
        Tree::Inner(node) => {
            nodes.push(OutlineNode {
                path,
                cube,
                inner: true,
            })?;
            for (g, t) in node.trees().iter().enumerate() {
                let octant = g as u8;
                add_outline(nodes, t, path.child(octant), cube.child(octant))?;
            }
            Ok(())
        }
    }
}
