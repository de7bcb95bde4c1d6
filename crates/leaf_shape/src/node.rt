ghost use Rattle.std.specs.Prelude.{◌≡◌, ℕ, ◌+◌, ◌*◌, ◌<◌, ◌≤◌, ◌^◌, None, Some, IsSome, length, vec_len};
ghost use Rattle.std.specs.Vec.{vec_capacity};
ghost use Rattle.leaf_shape.specs.Tables.{HasChildren, IsOpened, IsTree, missing, node, node_at};

use cube_math::Path;

/// A node of a shape: the number of the first of its eight children, which stand one behind the other, and the list
/// that was opened last for its path.
#[derive(Clone, Copy, Debug)]
pub(crate) struct Node {
    pub(crate) below: Option<u32>,
    pub(crate) list: Option<u32>,
}

/// A node with no children and no list.
pub(crate) fn bare_node() -> Node
    ensures { result ≡ record { below = None; list = None } }
{
    Node {
        below: None,
        list: None,
    }
}

/// The node to which a path leads from the root, where one stands there.
pub(crate) fn find_node(nodes: &[Node], path: &Path) -> Option<u32>
    requires tree { IsTree nodes.now }
    requires few { length nodes.now < 2 ^ 32 }
    ensures { result ≡ node_at nodes.now 0 path.now }
{
    let steps = path.len();
    let mut node = 0;
    for step in 0..steps {
        let Some(first) = nodes[node as usize].below else {
            return None;
        };
        node = first + u32::from(path.octant(step));
    }
    Some(node)
}

/// Opens a list for a path: gives children to the nodes on the way that have none, and notes the list at the path's
/// node, whose number it answers.
pub(crate) fn open_node(nodes: &mut Vec<Node>, path: &Path, list: u32) -> u32
    requires tree { IsTree nodes.old.items }
    requires room { vec_len nodes.old + 8 * missing nodes.old.items 0 path.now ≤ vec_capacity nodes.old }
    requires few { vec_len nodes.old + 8 * missing nodes.old.items 0 path.now < 2 ^ 32 }
    ensures opened { IsOpened nodes.old.items nodes.new.items path.now list result }
    ensures few { vec_len nodes.new ≤ vec_len nodes.old + 8 * missing nodes.old.items 0 path.now }
    ensures capacity { vec_capacity nodes.old ≤ vec_capacity nodes.new }
{
    let mut node = 0;
    for step in 0..path.len() {
        node = child_at(nodes, node, path.octant(step));
    }
    let place = &mut nodes[node as usize];
    place.list = Some(list);
    node
}

/// The child of a node in an octant. A node that has no children is given eight.
fn child_at(nodes: &mut Vec<Node>, parent: u32, octant: u8) -> u32
    requires within { parent < vec_len nodes.old }
    requires tree { IsTree nodes.old.items }
    requires below { octant < 8 }
    requires room { (node nodes.old.items parent).below ≡ None → vec_len nodes.old + 8 ≤ vec_capacity nodes.old }
    requires few { (node nodes.old.items parent).below ≡ None → vec_len nodes.old + 8 < 2 ^ 32 }
    requires numbered { vec_len nodes.old < 2 ^ 32 }
    ensures child { (first : ℕ) × HasChildren nodes.old.items nodes.new.items parent first × (result ≡ first + octant) }
    ensures stays { IsSome (node nodes.old.items parent).below → vec_len nodes.new ≡ vec_len nodes.old }
    ensures few { vec_len nodes.new ≤ vec_len nodes.old + 8 }
    ensures capacity { vec_capacity nodes.old ≤ vec_capacity nodes.new }
{
    match nodes[parent as usize].below {
        Some(first) => first + u32::from(octant),
        None => with_children(nodes, parent) + u32::from(octant),
    }
}

/// Gives eight children to a node that has none, and answers the number of the first.
fn with_children(nodes: &mut Vec<Node>, parent: u32) -> u32
    requires within { parent < vec_len nodes.old }
    requires none { (node nodes.old.items parent).below ≡ None }
    requires room { vec_len nodes.old + 8 ≤ vec_capacity nodes.old }
    requires few { vec_len nodes.old + 8 < 2 ^ 32 }
    ensures children { HasChildren nodes.old.items nodes.new.items parent result }
    ensures first { result ≡ vec_len nodes.old }
    ensures len { vec_len nodes.new ≡ vec_len nodes.old + 8 }
    ensures capacity { vec_capacity nodes.old ≤ vec_capacity nodes.new }
{
    let first = nodes.len();
    let Ok(()) = nodes.resize(first + 8, bare_node()) else {
        unreachable!()
    };
    let place = &mut nodes[parent as usize];
    place.below = Some(first as u32);
    first as u32
}
