ghost use Rattle.octree_model.specs.Bags.{IsSameBag, leaf_points};
ghost use Rattle.octree_model.specs.Facts.{facts};
ghost use Rattle.octree_model.specs.Leaves.{leaves};
ghost use Rattle.octree_model.specs.Octree.{inside, octree};
ghost use Rattle.octree_model.specs.Outlines.{outline};
ghost use Rattle.octree_model.specs.declared.outline.OutlineNode.{OutlineNode};
ghost use Rattle.cube_math.specs.Cubes.{CubeValue, contains, cube_at};
ghost use Rattle.cube_math.specs.Points.{PointValue};
ghost use Rattle.std.specs.Prelude.{ℕ, ◌≡◌, List, All, Contains, IsTrue};

/// A law of whatever points: the leaves of an octree together have the points of its cube, each as often as it stands
/// in the list, and no others.
pub fn leaves_keep_points()
    ensures { (leaf : ℕ) (cube : CubeValue) (points : List PointValue) → IsSameBag (leaf_points (octree leaf cube points)) (inside cube points) }
{}

/// A law: two lists with the same points, each as often, have octrees with the same nodes, counts and
/// voxels, and with the same points in each leaf, each as often. So the order of points is of no matter.
pub fn same_points_have_same_octree()
    ensures { (leaf : ℕ) (cube : CubeValue) (first second : List PointValue) → IsSameBag first second
        → facts (octree leaf cube first) ≡ facts (octree leaf cube second) }
{}

/// A law of whatever points: a point of a cube lies in the cube of a leaf of the octree, and of no other leaf.
pub fn each_point_has_one_leaf()
    ensures some { (leaf : ℕ) (cube : CubeValue) (points : List PointValue) (p : PointValue) → IsTrue (contains cube p)
        → (n : OutlineNode) × Contains (leaves leaf cube points) n × IsTrue (contains n.cube p) }
    ensures one { (leaf : ℕ) (cube : CubeValue) (points : List PointValue) (p : PointValue) (n m : OutlineNode)
        → Contains (leaves leaf cube points) n → Contains (leaves leaf cube points) m
        → IsTrue (contains n.cube p) → IsTrue (contains m.cube p) → n ≡ m }
{}

/// A law of whatever points: the cube of each node of an octree is the one to which the node's path leads from the root.
pub fn paths_lead_to_cubes()
    ensures { (leaf : ℕ) (cube : CubeValue) (points : List PointValue)
        → All (λ (n : OutlineNode). n.cube ≡ cube_at cube n.path) (outline (octree leaf cube points) cube) }
{}
