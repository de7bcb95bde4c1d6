ghost use Rattle.std.specs.Prelude.{◌≡◌, ℕ, ◌+◌, ◌≤◌, List, [], ◌++◌, ◌&&◌, Some, All, IsTrue, filter, length, map, nat_lt, not};
ghost use Rattle.cube_math.specs.Cubes.{CubeValue, contains, cube_at};
ghost use Rattle.cube_math.specs.Points.{PointValue};
ghost use Rattle.octree_model.specs.Counts.{nodes};
ghost use Rattle.octree_model.specs.Leaves.{leaves};
ghost use Rattle.octree_model.specs.Octree.{inside, octree};
ghost use Rattle.octree_model.specs.Outlines.{outline};
ghost use Rattle.octree_model.specs.declared.outline.OutlineNode.{OutlineNode};
ghost use Rattle.leaf_counts.specs.Laws.{Commit, AreDue, skeleton_after, all_points};
ghost use Rattle.leaf_counts.specs.Nodes.{NodeValue, node_at, node_total, counted, is_leaf_at};
ghost use Rattle.leaf_counts.specs.Overfull.{overfull};
ghost use Rattle.leaf_counts.specs.Paths.{leaf_paths, inner_paths};
ghost use Rattle.leaf_counts.specs.Skeletons.{skeleton_of};

/// A law: whatever batches are committed one after the other, from no point on, the nodes that are kept,
/// their roles and their counts are those of the octree of all the points together.
pub fn commits_give_skeleton()
    ensures { (leaf : ℕ) (cube : CubeValue) (commits : List Commit) → AreDue (skeleton_of leaf cube []) [] commits
        → skeleton_after (skeleton_of leaf cube []) commits ≡ skeleton_of leaf cube (all_points commits) }
{}

/// A law of whatever points: the count of a node is the number of points in its cube, and the node is inner exactly
/// where its cube may split and the count exceeds the leaf limit.
pub fn nodes_count_points()
    ensures { (leaf : ℕ) (cube : CubeValue) (points : List PointValue) (path : List ℕ) (node : NodeValue)
        → node_at (counted (octree leaf cube points)) path ≡ Some node
        → (node.count ≡ length (inside (cube_at cube path) points)) × (node.inner ≡ (nat_lt 7 (cube_at cube path).bits && nat_lt leaf node.count)) }
{}

/// A law of whatever points: the leaves and the inner nodes of the counts are those of the octree's outline, in its
/// order; at each path of a leaf a leaf stands; and there are as many nodes as the octree has.
pub fn nodes_are_those_of_outline()
    ensures leaves { (leaf : ℕ) (cube : CubeValue) (points : List PointValue)
        → leaf_paths (counted (octree leaf cube points)) ≡ map (λ (n : OutlineNode). n.path) (leaves leaf cube points) }
    ensures inner { (leaf : ℕ) (cube : CubeValue) (points : List PointValue) → inner_paths (counted (octree leaf cube points))
        ≡ map (λ (n : OutlineNode). n.path) (filter (λ (n : OutlineNode). n.inner) (outline (octree leaf cube points) cube)) }
    ensures stand { (leaf : ℕ) (cube : CubeValue) (points : List PointValue)
        → All (λ path. IsTrue (is_leaf_at (counted (octree leaf cube points)) path)) (leaf_paths (counted (octree leaf cube points))) }
    ensures number { (leaf : ℕ) (cube : CubeValue) (points : List PointValue)
        → node_total (counted (octree leaf cube points)) ≡ nodes (octree leaf cube points) }
{}

/// A law of whatever points: the path of a node leaves a cube of at least 7 bits at least 7 bits.
pub fn node_paths_fit()
    ensures { (leaf : ℕ) (cube : CubeValue) (points : List PointValue) (path : List ℕ) (node : NodeValue) → 7 ≤ cube.bits
        → node_at (counted (octree leaf cube points)) path ≡ Some node → length path + 7 ≤ cube.bits }
{}

/// A law of whatever points: leaves whose cubes contain the same point are one.
pub fn leaves_of_a_point_are_one()
    ensures { (leaf : ℕ) (cube : CubeValue) (points : List PointValue) (p : PointValue) (path other : List ℕ)
        → IsTrue (is_leaf_at (counted (octree leaf cube points)) path) → IsTrue (is_leaf_at (counted (octree leaf cube points)) other)
        → IsTrue (contains (cube_at cube path) p) → IsTrue (contains (cube_at cube other) p) → path ≡ other }
{}

/// A law: what was a leaf, and is one once more points have come, was one in between.
pub fn leaves_were_leaves_between()
    ensures { (leaf : ℕ) (cube : CubeValue) (before next last : List PointValue) (path : List ℕ)
        → IsTrue (is_leaf_at (counted (octree leaf cube before)) path)
        → IsTrue (is_leaf_at (counted (octree leaf cube ((before ++ next) ++ last))) path)
        → IsTrue (is_leaf_at (counted (octree leaf cube (before ++ next))) path) }
{}

/// A law: once more points have come, the leaves that were leaves before are the leaves from before that are
/// leaves still, in the same order; and the leaves from before that are none are those that the points make
/// over-full.
pub fn leaves_stay_or_split()
    ensures stay { (leaf : ℕ) (cube : CubeValue) (before next : List PointValue)
        → filter (is_leaf_at (counted (octree leaf cube before))) (leaf_paths (counted (octree leaf cube (before ++ next))))
        ≡ filter (is_leaf_at (counted (octree leaf cube (before ++ next)))) (leaf_paths (counted (octree leaf cube before))) }
    ensures split { (leaf : ℕ) (cube : CubeValue) (before next : List PointValue)
        → overfull leaf cube (counted (octree leaf cube before)) next
        ≡ filter (λ path. not (is_leaf_at (counted (octree leaf cube (before ++ next))) path)) (leaf_paths (counted (octree leaf cube before))) }
{}
