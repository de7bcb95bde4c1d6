ghost use Rattle.std.specs.Prelude.{◌≡◌, ◌≤◌, ◌<◌, IfOk, IsTrue};
ghost use Rattle.picture_model.specs.Cuts.{cut, opens, in_path_order};
ghost use Rattle.camera_cut.specs.Outlines.{IsOutline, LeadToEachLeaf};
ghost use Rattle.camera_cut.specs.Walks.{is_longer};

use crate::camera::Camera;
use octree_model::OutlineNode;
use std::alloc::{AllocError, Global};
use std::marker::Model;

/// Nodes of an outline, in path order.
#[derive(Drop)]
pub struct Cut {
    nodes: Vec<OutlineNode>,
}

impl Model for Cut {
    ghost use Rattle.std.specs.Prelude.{List, IsTrue};
    ghost use Rattle.octree_model.specs.declared.outline.OutlineNode.{OutlineNode};
    ghost use Rattle.picture_model.specs.Cuts.{in_path_order};

    ghost Value = { List OutlineNode };

    ghost view = { λ c. c.nodes.items };

    ghost invariant = { λ c. IsTrue (in_path_order c.nodes.items) };
}

impl Cut {
    /// A cut of these nodes, moved in.
    pub fn new(nodes: Vec<OutlineNode>) -> Cut
        requires { IsTrue (in_path_order nodes.items) }
        ensures { result ≡ nodes.items }
    {
        Cut { nodes }
    }

    /// The nodes, in path order.
    pub fn nodes(&self) -> &[OutlineNode]
        ensures nodes { result.now ≡ self.now }
        ensures order { IsTrue (in_path_order self.now) }
    {
        self.nodes.as_slice()
    }
}

/// The cut of an outline: each node whose upper nodes are all inner and refine, and that is a leaf or does
/// not refine. From exactly one of them the way goes down to each leaf of the outline.
pub fn cut_of(alloc: Global, outline: &[OutlineNode], camera: &Camera) -> Result<Cut, AllocError>
    requires { IsOutline outline.now }
    ensures cut { IfOk result (λ nodes. nodes ≡ cut camera.now outline.now) }
    ensures leaves { IfOk result (λ nodes. LeadToEachLeaf nodes outline.now) }
{
    Ok(Cut::new(shown_nodes(alloc, outline, camera)?))
}

/// The nodes of the cut. The nodes below a node follow it in the outline, and their paths are longer.
fn shown_nodes(
    alloc: Global,
    outline: &[OutlineNode],
    camera: &Camera,
) -> Result<Vec<OutlineNode>, AllocError>
    requires { IsOutline outline.now }
    ensures { IfOk result (λ nodes. nodes.items ≡ cut camera.now outline.now) }
{
    let mut shown = Vec::new(alloc);
    // How long the path is of the node that was shown last, as long as nodes below it may come.
    let mut last = None;
    for node in outline {
        let length = node.path.len();
        if !is_longer(length, last) {
            last = None;
            if !opens(camera, node) {
                shown.push(*node)?;
                last = Some(length);
            }
        }
    }
    Ok(shown)
}

/// Whether there is a last length, and this one is longer.
fn is_longer(length: u32, last: Option<u32>) -> bool
    ensures { result ≡ is_longer last length }
{
    match last {
        None => false,
        Some(last) => length > last,
    }
}

/// Whether the nodes below a node are shown in its place.
fn opens(camera: &Camera, node: &OutlineNode) -> bool
    ensures { result ≡ opens camera.now node.now }
{
    node.inner && camera.refines(&node.cube)
}
