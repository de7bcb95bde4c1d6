//! How one seat draws items on the words of a canvas.
ghost use Rattle.std.specs.Prelude.{◌≡◌, ◌<◌, ◌≤◌, ◌*◌, ◌^◌, ◌∷◌, []};
ghost use Rattle.splat_ppm.specs.Lowering.{AreLowered, lies_in, lies_in_square};
ghost use Rattle.frame_words.specs.Hands.{Adds, AreCapped, IsBrush, IsFor};

use crate::rule::{Chair, Desk};
use crate::words::lower_pixel;
use camera_cut::{Camera, Item};
use splat_ppm::{Square, square_of};

/// Draws an item.
#[inline]
pub fn draw_item(desk: &Desk, camera: &Camera, seat: &mut Chair, item: &Item)
    requires table { seat.old.table_id ≡ desk.now.shared.table_id }
    requires canvas { IsFor camera.now desk.now.shared.key desk.now.shared.table_id.words }
    requires brush { IsBrush desk.now.shared.key seat.old.me.0.shares seat.old.me }
    requires some { 0 < seat.old.me.0.shares }
    requires capped { AreCapped seat.old.me.0.keys }
    ensures table { seat.new.table_id ≡ seat.old.table_id }
    ensures brush { IsBrush desk.now.shared.key seat.old.me.0.shares seat.new.me }
    ensures capped { AreCapped seat.new.me.0.keys }
    ensures drawn { Adds camera.now (item.now ∷ []) seat.old.me.0.keys seat.new.me.0.keys }
{
    if let Some(square) = square_of(item, camera) {
        lower_square(desk, seat, camera.width() as usize, square);
    }
}

/// Draws a key in a square of a picture of this width.
#[inline]
fn lower_square(desk: &Desk, seat: &mut Chair, width: usize, square: Square)
    requires table { seat.old.table_id ≡ desk.now.shared.table_id }
    requires sized { desk.now.shared.key ≡ desk.now.shared.table_id.words }
    requires brush { IsBrush desk.now.shared.key seat.old.me.0.shares seat.old.me }
    requires some { 0 < seat.old.me.0.shares }
    requires width { 0 < width }
    requires ordered { square.left ≤ square.right }
    requires columns { square.right ≤ width }
    requires rows { square.bottom * width ≤ desk.now.shared.key }
    requires small { desk.now.shared.key < 2 ^ 32 }
    ensures table { seat.new.table_id ≡ seat.old.table_id }
    ensures brush { IsBrush desk.now.shared.key seat.old.me.0.shares seat.new.me }
    ensures lowered { AreLowered (lies_in_square width square.left square.right square.top square.bottom) square.key seat.old.me.0.keys seat.new.me.0.keys }
{
    for row in square.top..square.bottom {
        let start = row * width;
        lower_run(
            desk,
            seat,
            start + square.left,
            start + square.right,
            square.key,
        );
    }
}

/// Draws a key at the pixels from one place on, below another.
#[inline]
fn lower_run(desk: &Desk, seat: &mut Chair, first: usize, end: usize, key: u64)
    requires table { seat.old.table_id ≡ desk.now.shared.table_id }
    requires sized { desk.now.shared.key ≡ desk.now.shared.table_id.words }
    requires brush { IsBrush desk.now.shared.key seat.old.me.0.shares seat.old.me }
    requires some { 0 < seat.old.me.0.shares }
    requires within { end ≤ desk.now.shared.key }
    ensures table { seat.new.table_id ≡ seat.old.table_id }
    ensures brush { IsBrush desk.now.shared.key seat.old.me.0.shares seat.new.me }
    ensures lowered { AreLowered (lies_in first end) key seat.old.me.0.keys seat.new.me.0.keys }
{
    for pixel in first..end {
        lower_pixel(desk, seat, pixel, key);
    }
}
