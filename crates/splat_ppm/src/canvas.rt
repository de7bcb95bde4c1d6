ghost use Rattle.std.specs.Prelude.{◌≡◌, ◌++◌, ◌∷◌, [], ◌<◌, ◌*◌, ◌%◌, ◌^◌, List, IfOk, length, map};
ghost use Rattle.picture_model.specs.Frames.{frame};
ghost use Rattle.octree_model.specs.Shapes.{IsOctreeIn};
ghost use Rattle.picture_model.specs.Items.{ItemValue, items, point_item, voxel_item};
ghost use Rattle.camera_cut.specs.Descents.{seen_in};
ghost use Rattle.splat_ppm.specs.Canvases.{Shows, drawn_keys};

use crate::frame::Frame;
use crate::items::{point_item, voxel_item};
use crate::pixels::lower_square;
use crate::square::square_of;
use camera_cut::{Camera, Item};
use cube_math::{Cube, Point};
use octree_model::{Tree, Voxel};
use std::alloc::{AllocError, Global};
use std::marker::Model;

/// The key of a pixel at which nothing was drawn: above all keys of items, and with the colour number 0.
pub const NO_KEY: u64 = 1 << 60;

/// A picture while items are drawn: of each pixel the least key so far. It is seen as the bag of the items
/// drawn so far, by `Shows`.
#[derive(Drop)]
pub struct Canvas {
    camera: Camera,
    /// By rows from the top, each row from the left.
    keys: Vec<u64>,
}

impl Model for Canvas {
    ghost use Rattle.std.specs.Prelude.{◌≡◌, ◌*◌, length};
    ghost use Rattle.splat_ppm.specs.Canvases.{CanvasValue};

    ghost Value = { CanvasValue };

    ghost view = { λ c. record { camera = c.camera; keys = c.keys.items } };

    ghost invariant = { λ c. length c.keys.items ≡ c.camera.width * c.camera.height };
}

impl Canvas {
    /// A canvas for a camera, on which nothing is drawn.
    pub fn new(alloc: Global, camera: &Camera) -> Result<Canvas, AllocError>
        ensures camera { IfOk result (λ canvas. canvas.camera ≡ camera.now) }
        ensures empty { IfOk result (λ canvas. Shows canvas []) }
    {
        let pixels = camera.width() as usize * camera.height() as usize;
        Ok(Canvas {
            camera: *camera,
            keys: vec![in alloc; NO_KEY; pixels]?,
        })
    }

    /// Draws the points of a leaf.
    pub fn draw_points(&mut self, points: &[Point])
        ensures camera { self.new.camera ≡ self.old.camera }
        ensures drawn { (items : List ItemValue) → Shows self.old items → Shows self.new (items ++ map point_item points.now) }
    {
        for point in points {
            self.draw(&point_item(point));
        }
    }

    /// Draws the voxels of an inner node with this cube.
    pub fn draw_voxels(&mut self, cube: &Cube, voxels: &[Voxel])
        requires splits { 7 < cube.now.bits }
        ensures camera { self.new.camera ≡ self.old.camera }
        ensures drawn { (items : List ItemValue) → Shows self.old items → Shows self.new (items ++ map (voxel_item cube.now) voxels.now) }
    {
        for voxel in voxels {
            self.draw(&voxel_item(cube, voxel));
        }
    }

    /// Draws items.
    pub fn draw_items(&mut self, items: &[Item])
        ensures camera { self.new.camera ≡ self.old.camera }
        ensures drawn { (before : List ItemValue) → Shows self.old before → Shows self.new (before ++ items.now) }
    {
        for item in items {
            self.draw(item);
        }
    }

    /// Draws the items of the nodes of an octree that are in the camera's cut. What lies below a node of
    /// the cut is not looked at, and of what lies above nothing is drawn.
    pub fn draw_octree(&mut self, tree: &Tree, cube: &Cube)
        requires { IsOctreeIn cube.now tree.now }
        ensures camera { self.new.camera ≡ self.old.camera }
        ensures drawn { (before : List ItemValue) → Shows self.old before → Shows self.new (before ++ items self.old.camera tree.now cube.now) }
    {
        self.draw_tree(tree, *cube);
    }

    /// Draws what is seen of an octree on the way down.
    fn draw_tree(&mut self, tree: &Tree, cube: Cube)
        requires { IsOctreeIn cube tree.now }
        ensures camera { self.new.camera ≡ self.old.camera }
        ensures drawn { (before : List ItemValue) → Shows self.old before → Shows self.new (before ++ seen_in self.old.camera tree.now cube) }
    {
        match tree {
            Tree::Leaf(points) => self.draw_points(points.points()),
            Tree::Inner(node) => {
                if self.camera.refines(&cube) {
                    for (g, t) in node.trees().iter().enumerate() {
                        self.draw_tree(t, cube.child(g as u8));
                    }
                } else {
                    self.draw_voxels(&cube, node.voxels());
                }
            }
        }
    }

    /// The frame of the items that were drawn.
    pub fn frame(&self, alloc: Global) -> Result<Frame, AllocError>
        ensures { (items : List ItemValue) → Shows self.now items → IfOk result (λ f. f ≡ frame self.now.camera items) }
    {
        let colours = colours_of(alloc, self.keys.as_slice())?;
        Ok(Frame::new(self.camera.width(), self.camera.height(), colours))
    }

    /// Draws an item.
    #[inline]
    fn draw(&mut self, item: &Item)
        ensures camera { self.new.camera ≡ self.old.camera }
        ensures drawn { (items : List ItemValue) → Shows self.old items → Shows self.new (items ++ item.now ∷ []) }
    {
        draw_on(&mut self.keys, &self.camera, item);
    }
}

/// Draws an item on the keys of a camera's picture.
#[inline]
fn draw_on(keys: &mut [u64], camera: &Camera, item: &Item)
    requires { length keys.old ≡ camera.now.width * camera.now.height }
    ensures size { length keys.new ≡ length keys.old }
    ensures drawn { (items : List ItemValue) → keys.old ≡ drawn_keys camera.now items → keys.new ≡ drawn_keys camera.now (items ++ item.now ∷ []) }
{
    let Some(square) = square_of(item, camera) else {
        return;
    };
    lower_square(keys, camera.width() as usize, square);
}

/// The frame of items that a camera sees.
pub fn splat(alloc: Global, items: &[Item], camera: &Camera) -> Result<Frame, AllocError>
    ensures { IfOk result (λ f. f ≡ frame camera.now items.now) }
{
    let mut canvas = Canvas::new(alloc, camera)?;
    canvas.draw_items(items);
    canvas.frame(alloc)
}

/// The colour numbers of keys.
fn colours_of(alloc: Global, keys: &[u64]) -> Result<Vec<u32>, AllocError>
    ensures { IfOk result (λ colours. colours.items ≡ map (λ key. key % 2 ^ 24) keys.now) }
{
    let mut colours = Vec::with_capacity(alloc, keys.len())?;
    for key in keys {
        colours.push((*key % (1 << 24)) as u32)?;
    }
    Ok(colours)
}
