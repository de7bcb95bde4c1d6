ghost use Rattle.cube_math.specs.Cubes.{CubeValue};
ghost use Rattle.cube_math.specs.Points.{PointValue};
ghost use Rattle.octree_file.specs.Files.{tree_file};
ghost use Rattle.octree_file.specs.Order.{IsPoint};
ghost use Rattle.octree_model.specs.Bags.{IsSameBag};
ghost use Rattle.octree_model.specs.Octree.{octree};
ghost use Rattle.std.specs.Prelude.{ℕ, ◌≡◌, List, All};

/// A law: two lists with the same points, each as often, have one file, whatever the order of the points.
pub fn same_points_have_same_file()
    ensures { (leaf : ℕ) (cube : CubeValue) (first second : List PointValue) → All IsPoint first → All IsPoint second → IsSameBag first second
        → tree_file leaf cube (octree leaf cube first) ≡ tree_file leaf cube (octree leaf cube second) }
{}
