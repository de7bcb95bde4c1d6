//! Laws of the lists of points.
ghost use Rattle.std.specs.Prelude.{◌≡◌, ℕ, ◌≤◌, List, ◌++◌, All, Contains, IsSome, IsTrue, false};
ghost use Rattle.cube_math.specs.Cubes.{CubeValue, contains, cube_at};
ghost use Rattle.cube_math.specs.Points.{PointValue};
ghost use Rattle.octree_model.specs.Octree.{octree};
ghost use Rattle.leaf_counts.specs.Nodes.{counted, is_leaf_at, node_at};
ghost use Rattle.leaf_shape.specs.Shapes.{GoesOn, IsListOf, IsPathIn, path_of};

/// A law: a point has one list at most.
pub fn lists_of_a_point_are_one()
    ensures { (cube : CubeValue) (paths : List (List ℕ)) (p : PointValue) (list other : ℕ) → All (IsPathIn cube) paths
        → IsListOf cube paths p list → IsListOf cube paths p other → list ≡ other }
{}

/// A law of whatever points: where a list was opened for each leaf of their octree, and none for a path at which no node
/// stands, the list of a point is that of its leaf.
pub fn lists_are_those_of_leaves()
    ensures { (leaf : ℕ) (cube : CubeValue) (points : List PointValue) (paths : List (List ℕ)) (p : PointValue) (list : ℕ)
        → 7 ≤ cube.bits → IsTrue (contains cube p)
        → ((path : List ℕ) → IsTrue (is_leaf_at (counted (octree leaf cube points)) path) → Contains paths path)
        → All (λ path. IsSome (node_at (counted (octree leaf cube points)) path)) paths
        → IsListOf cube paths p list → IsTrue (is_leaf_at (counted (octree leaf cube points)) (path_of paths list)) }
{}

/// A law: where lists are opened at a path and below it, a point outside that path's cube keeps its list.
pub fn lists_elsewhere_stay()
    ensures { (cube : CubeValue) (paths more : List (List ℕ)) (path : List ℕ) (p : PointValue) (list : ℕ) → All (IsPathIn cube) more → All (GoesOn path) more
        → contains (cube_at cube path) p ≡ false → IsListOf cube paths p list → IsListOf cube (paths ++ more) p list }
{}

/// A law: once more lists were opened, the path of a point's list is the one from before or goes on from it.
pub fn lists_only_go_down()
    ensures { (cube : CubeValue) (paths more : List (List ℕ)) (p : PointValue) (list later : ℕ) → All (IsPathIn cube) (paths ++ more)
        → IsListOf cube paths p list → IsListOf cube (paths ++ more) p later → GoesOn (path_of paths list) (path_of (paths ++ more) later) }
{}
