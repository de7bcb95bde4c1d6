//! What is drawn: items, the points of a leaf, or the voxels of an inner node.
ghost use Rattle.std.specs.Prelude.{◌≡◌, ◌<◌, ◌≤◌, ◌*◌, ◌∷◌, [], length, map};
ghost use Rattle.picture_model.specs.Items.{point_item, voxel_item};
ghost use Rattle.frame_words.specs.Hands.{Adds, AreCapped, IsBrush, IsFor};
ghost use Rattle.frame_words.specs.Parts.{IsPart, part_items, portion};

use crate::brush::draw_item;
use crate::rule::{Chair, Desk};
use camera_cut::{Camera, Item};
use cube_math::{Cube, Point};
use octree_model::Voxel;
use splat_ppm::{point_item, voxel_item};

/// A part of what is drawn on a canvas.
#[derive(Clone, Copy)]
pub enum Part<'a> {
    /// Items.
    Items(&'a [Item]),
    /// The points of a leaf.
    Points(&'a [Point]),
    /// The voxels of an inner node with this cube.
    Voxels(Cube, &'a [Voxel]),
}

impl<'a> Part<'a> {
    /// How many items the part has.
    pub fn len(&self) -> usize
        ensures { result ≡ length (part_items self.now) }
    {
        match self {
            Part::Items(items) => items.len(),
            Part::Points(points) => points.len(),
            Part::Voxels(_, voxels) => voxels.len(),
        }
    }

    /// Draws the part's items from the first one on, before the end.
    pub(crate) fn draw(
        &self,
        desk: &Desk,
        camera: &Camera,
        seat: &mut Chair,
        first: usize,
        end: usize,
    )
        requires part { IsPart self.now }
        requires ordered { first ≤ end }
        requires within { end ≤ length (part_items self.now) }
        requires table { seat.old.table_id ≡ desk.now.shared.table_id }
        requires canvas { IsFor camera.now desk.now.shared.key desk.now.shared.table_id.words }
        requires brush { IsBrush desk.now.shared.key seat.old.me.0.shares seat.old.me }
        requires some { 0 < seat.old.me.0.shares }
        requires capped { AreCapped seat.old.me.0.keys }
        ensures table { seat.new.table_id ≡ seat.old.table_id }
        ensures brush { IsBrush desk.now.shared.key seat.old.me.0.shares seat.new.me }
        ensures capped { AreCapped seat.new.me.0.keys }
        ensures drawn { Adds camera.now (portion first end (part_items self.now)) seat.old.me.0.keys seat.new.me.0.keys }
    {
        match self {
            Part::Items(items) => draw_items(desk, camera, seat, &items[first..end]),
            Part::Points(points) => draw_points(desk, camera, seat, &points[first..end]),
            Part::Voxels(cube, voxels) => draw_voxels(
                desk,
                camera,
                seat,
                cube,
                &voxels[first..end],
            ),
        }
    }
}

/// Draws items.
fn draw_items(desk: &Desk, camera: &Camera, seat: &mut Chair, items: &[Item])
    requires table { seat.old.table_id ≡ desk.now.shared.table_id }
    requires canvas { IsFor camera.now desk.now.shared.key desk.now.shared.table_id.words }
    requires brush { IsBrush desk.now.shared.key seat.old.me.0.shares seat.old.me }
    requires some { 0 < seat.old.me.0.shares }
    requires capped { AreCapped seat.old.me.0.keys }
    ensures table { seat.new.table_id ≡ seat.old.table_id }
    ensures brush { IsBrush desk.now.shared.key seat.old.me.0.shares seat.new.me }
    ensures capped { AreCapped seat.new.me.0.keys }
    ensures drawn { Adds camera.now (items.now) seat.old.me.0.keys seat.new.me.0.keys }
{
    for item in items {
        draw_item(desk, camera, seat, item);
    }
}

/// Draws the points of a leaf.
fn draw_points(desk: &Desk, camera: &Camera, seat: &mut Chair, points: &[Point])
    requires table { seat.old.table_id ≡ desk.now.shared.table_id }
    requires canvas { IsFor camera.now desk.now.shared.key desk.now.shared.table_id.words }
    requires brush { IsBrush desk.now.shared.key seat.old.me.0.shares seat.old.me }
    requires some { 0 < seat.old.me.0.shares }
    requires capped { AreCapped seat.old.me.0.keys }
    ensures table { seat.new.table_id ≡ seat.old.table_id }
    ensures brush { IsBrush desk.now.shared.key seat.old.me.0.shares seat.new.me }
    ensures capped { AreCapped seat.new.me.0.keys }
    ensures drawn { Adds camera.now (map point_item points.now) seat.old.me.0.keys seat.new.me.0.keys }
{
    for point in points {
        draw_item(desk, camera, seat, &point_item(point));
    }
}

/// Draws the voxels of an inner node with this cube.
fn draw_voxels(desk: &Desk, camera: &Camera, seat: &mut Chair, cube: &Cube, voxels: &[Voxel])
    requires splits { 7 < cube.now.bits }
    requires table { seat.old.table_id ≡ desk.now.shared.table_id }
    requires canvas { IsFor camera.now desk.now.shared.key desk.now.shared.table_id.words }
    requires brush { IsBrush desk.now.shared.key seat.old.me.0.shares seat.old.me }
    requires some { 0 < seat.old.me.0.shares }
    requires capped { AreCapped seat.old.me.0.keys }
    ensures table { seat.new.table_id ≡ seat.old.table_id }
    ensures brush { IsBrush desk.now.shared.key seat.old.me.0.shares seat.new.me }
    ensures capped { AreCapped seat.new.me.0.keys }
    ensures drawn { Adds camera.now (map (voxel_item cube.now) voxels.now) seat.old.me.0.keys seat.new.me.0.keys }
{
    for voxel in voxels {
        draw_item(desk, camera, seat, &voxel_item(cube, voxel));
    }
}
