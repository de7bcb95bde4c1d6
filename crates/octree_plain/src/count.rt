ghost use Rattle.std.specs.Prelude.{◌≡◌, ◌<◌, ◌^◌};
ghost use Rattle.octree_model.specs.Counts.{nodes};
ghost use Rattle.octree_model.specs.Shapes.{IsOctree};

use octree_model::Tree;

/// How many nodes the octree has, leaves and inner nodes together.
pub fn node_count(tree: &Tree) -> u64
    requires { IsOctree tree.now }
    ensures { result ≡ nodes tree.now }
{
    count_nodes(tree)
}

fn count_nodes(tree: &Tree) -> u64
    requires { nodes tree.now < 2 ^ 64 }
    ensures { result ≡ nodes tree.now }
{
    match tree {
        Tree::Leaf(_) => 1,
        Tree::Inner(node) => {
            let mut all = 1;
            for t in node.trees() {
                all += count_nodes(t);
            }
            all
        }
    }
}
