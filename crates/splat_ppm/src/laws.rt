ghost use Rattle.std.specs.Prelude.{◌≡◌};
ghost use Rattle.picture_model.specs.Frames.{frame};
ghost use Rattle.octree_model.specs.Bags.{IsSameBag};
ghost use Rattle.picture_model.specs.Items.{IsSameItems};
ghost use Rattle.picture_model.specs.Pictures.{picture};

use camera_cut::{Camera, Item};
use cube_math::{Cube, Point};

/// A law: the same items, each as often, give the same frame. So the order of items is of no matter.
pub fn order_of_items_is_of_no_matter(camera: &Camera, first: &[Item], second: &[Item])
    ensures { IsSameItems first.now second.now → frame camera.now first.now ≡ frame camera.now second.now }
{}

/// A law: two lists with the same points, each as often, have the same picture. So the order of points is
/// of no matter.
pub fn same_points_have_same_picture(
    cube: &Cube,
    first: &[Point],
    second: &[Point],
    leaf: u32,
    camera: &Camera,
)
    ensures { IsSameBag first.now second.now → picture leaf cube.now first.now camera.now ≡ picture leaf cube.now second.now camera.now }
{}
