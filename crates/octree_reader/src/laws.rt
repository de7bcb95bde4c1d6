ghost use Rattle.cube_math.specs.Cubes.{CubeValue};
ghost use Rattle.cube_math.specs.Points.{PointValue};
ghost use Rattle.octree_file.specs.Files.{IsFileOf};
ghost use Rattle.octree_reader.specs.Heads.{HasHead, head_cube, head_leaf};
ghost use Rattle.std.specs.Prelude.{ℕ, ◌≡◌, List};

/// A law: the file of an octree begins with a head, which names the octree's cube and leaf limit. So
/// bytes that are a file have none of the faults but want of memory.
pub fn files_have_heads()
    ensures { (bytes : List ℕ) (cube : CubeValue) (leaf : ℕ) (points : List PointValue) → IsFileOf bytes cube leaf points
        → HasHead bytes × (head_cube bytes ≡ cube) × (head_leaf bytes ≡ leaf) }
{}
