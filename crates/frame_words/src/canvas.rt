//! A canvas on which threads draw at once, and the frame of items that threads draw.
ghost use Rattle.std.specs.Prelude.{◌≡◌, ◌<◌, ◌≤◌, ◌++◌, ◌*◌, ◌%◌, ◌^◌, List, [], IfOk, All, length, map, replicate};
ghost use Rattle.picture_model.specs.Frames.{frame};
ghost use Rattle.picture_model.specs.Items.{IsSameItems, ItemValue};
ghost use Rattle.splat_ppm.specs.Canvases.{Shows, no_key};
ghost use Rattle.frame_words.specs.Hands.{IsWhole};
ghost use Rattle.frame_words.specs.Parts.{IsPart, all_items};

use crate::parts::Part;
use crate::portions::{count_items, draw_portion};
use crate::rule::{Chair, Desk};
use crate::words::{read_pixel, wipe_pixel};
use atomic_table::Table;
use camera_cut::{Camera, Item};
use splat_ppm::{Frame, NO_KEY};
use std::alloc::{AllocError, Global};
use std::marker::Model;
use std::thread::Threads;

/// A picture while threads draw items: of each pixel one word, the least key so far. It can be used again for
/// the next frame. It is seen as the bag of the items drawn so far, by `Shows`.
#[derive(Drop)]
pub struct SharedCanvas {
    camera: Camera,
    desk: Desk,
    seat: Chair,
}

impl Model for SharedCanvas {
    ghost use Rattle.splat_ppm.specs.Canvases.{CanvasValue};
    ghost use Rattle.frame_words.specs.Hands.{IsPainter};

    ghost Value = { CanvasValue };

    ghost view = { λ c. record { camera = c.camera; keys = c.seat.me.0.keys } };

    ghost invariant = { λ c. IsPainter c.camera c.desk.shared.key 16 c.desk.shared.table_id c.seat.table_id c.seat.me };
}

impl SharedCanvas {
    /// A canvas for a camera, on which nothing is drawn.
    pub fn new(alloc: Global, camera: &Camera) -> Result<SharedCanvas, AllocError>
        ensures camera { IfOk result (λ canvas. canvas.camera ≡ camera.now) }
        ensures empty { IfOk result (λ canvas. Shows canvas []) }
    {
        let pixels = camera.width() as usize * camera.height() as usize;
        let words = vec![in alloc; NO_KEY; pixels]?;
        let (desk, seat) = Table::of_words(alloc, &words, &pixels)?;
        Ok(SharedCanvas {
            camera: *camera,
            desk,
            seat,
        })
    }

    /// Draws the items of parts by 1 to 16 threads, each of which is given about as many items as the others.
    pub fn draw<R: Threads + Sync>(&mut self, rt: &R, parts: &[Part], workers: u32)
        requires parts { All IsPart parts.now }
        requires few { length (all_items parts.now) < 2 ^ 64 }
        requires some { 1 ≤ workers }
        requires most { workers ≤ 16 }
        ensures camera { self.new.camera ≡ self.old.camera }
        ensures drawn { (before : List ItemValue) → Shows self.old before → Shows self.new (before ++ all_items parts.now) }
    {
        let count = count_items(parts);
        draw_portion(
            rt,
            &self.desk,
            &self.camera,
            &mut self.seat,
            parts,
            0,
            count,
            workers,
        );
    }

    /// The frame of the items that were drawn. The canvas stays as it is.
    pub fn frame(&mut self, alloc: Global) -> Result<Frame, AllocError>
        ensures kept { self.new ≡ self.old }
        ensures frame { (items : List ItemValue) → Shows self.old items → IfOk result (λ f. f ≡ frame self.old.camera items) }
    {
        let colours = read_colours(alloc, &self.desk, &mut self.seat)?;
        Ok(Frame::new(self.camera.width(), self.camera.height(), colours))
    }

    /// Wipes the canvas for the next frame, of a camera with as many pixels.
    pub fn clear(&mut self, camera: &Camera)
        requires pixels { camera.now.width * camera.now.height ≡ self.old.camera.width * self.old.camera.height }
        ensures camera { self.new.camera ≡ camera.now }
        ensures empty { Shows self.new [] }
    {
        wipe_all(&self.desk, &mut self.seat);
        self.camera = *camera;
    }
}

/// The colour numbers of the keys of all pixels.
fn read_colours(alloc: Global, desk: &Desk, seat: &mut Chair) -> Result<Vec<u32>, AllocError>
    requires whole { IsWhole desk.now.shared.key desk.now.shared.table_id seat.old.table_id seat.old.me }
    ensures kept { (seat.new.table_id ≡ seat.old.table_id) × (seat.new.me ≡ seat.old.me) }
    ensures colours { IfOk result (λ colours. colours.items ≡ map (λ key. key % 2 ^ 24) seat.old.me.0.keys) }
{
    let pixels = desk.word_count();
    let mut colours = Vec::with_capacity(alloc, pixels)?;
    for pixel in 0..pixels {
        let key = read_pixel(desk, seat, pixel);
        colours.push((key % (1 << 24)) as u32)?;
    }
    Ok(colours)
}

/// Wipes all pixels.
fn wipe_all(desk: &Desk, seat: &mut Chair)
    requires whole { IsWhole desk.now.shared.key desk.now.shared.table_id seat.old.table_id seat.old.me }
    ensures whole { IsWhole desk.now.shared.key desk.now.shared.table_id seat.new.table_id seat.new.me }
    ensures wiped { seat.new.me.0.keys ≡ replicate desk.now.shared.key no_key }
{
    for pixel in 0..desk.word_count() {
        wipe_pixel(desk, seat, pixel);
    }
}

/// The frame of items that a camera sees, drawn by 1 to 16 threads.
pub fn splat_parallel<R: Threads + Sync>(
    rt: &R,
    alloc: Global,
    items: &[Item],
    camera: &Camera,
    workers: u32,
) -> Result<Frame, AllocError>
    requires some { 1 ≤ workers }
    requires most { workers ≤ 16 }
    ensures frame { IfOk result (λ f. f ≡ frame camera.now items.now) }
    ensures bag { (others : List ItemValue) → IsSameItems items.now others → IfOk result (λ f. f ≡ frame camera.now others) }
{
    let mut canvas = SharedCanvas::new(alloc, camera)?;
    canvas.draw(rt, &[Part::Items(items)], workers);
    canvas.frame(alloc)
}
