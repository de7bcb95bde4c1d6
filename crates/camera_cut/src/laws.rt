ghost use Rattle.camera_cut.specs.Showings.{shown_by};
ghost use Rattle.cube_math.specs.Cubes.{CubeValue};
ghost use Rattle.cube_math.specs.Points.{PointValue};
ghost use Rattle.octree_model.specs.Octree.{octree};
ghost use Rattle.octree_model.specs.Outlines.{outline};
ghost use Rattle.picture_model.specs.Cameras.{CameraValue};
ghost use Rattle.picture_model.specs.Cuts.{cut, in_path_order};
ghost use Rattle.picture_model.specs.Items.{items};
ghost use Rattle.std.specs.List.{flat_map};
ghost use Rattle.std.specs.Prelude.{ℕ, ◌≡◌, List, IsTrue};

/// A law of whatever points: the outline of an octree stands in path order.
pub fn outline_is_in_path_order()
    ensures { (leaf : ℕ) (cube : CubeValue) (points : List PointValue) → IsTrue (in_path_order (outline (octree leaf cube points) cube)) }
{}

/// A law of whatever points: the items that a camera sees of an octree are those of the nodes of its cut, one node after
/// the other, each made of the points in the node's cube.
pub fn cut_has_the_items()
    ensures { (camera : CameraValue) (leaf : ℕ) (cube : CubeValue) (points : List PointValue)
        → items camera (octree leaf cube points) cube ≡ flat_map (shown_by points) (cut camera (outline (octree leaf cube points) cube)) }
{}
