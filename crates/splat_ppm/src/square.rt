ghost use Rattle.std.specs.Prelude.{IfNone, IfSome};
ghost use Rattle.splat_ppm.specs.Squares.{Draws, DrawsNothing, IsWithin};

use crate::pixels::{Square, part_within};
use crate::spot::project;
use camera_cut::{Camera, Item};

/// The square of an item in a camera's picture, cut at its edges: nothing exactly where the item lies before the
/// near plane. To draw the item is to lower the keys of these pixels to the square's.
#[inline]
pub fn square_of(item: &Item, camera: &Camera) -> Option<Square>
    ensures within { IfSome result (λ s. IsWithin camera.now.width camera.now.height s) }
    ensures drawn { IfSome result (λ s. Draws camera.now item.now s) }
    ensures nothing { IfNone result (DrawsNothing camera.now item.now) }
{
    let Some(spot) = project(item, camera) else {
        return None;
    };
    let columns = part_within(spot.left, spot.side, camera.width());
    let rows = part_within(spot.top, spot.side, camera.height());
    Some(Square {
        left: columns.first,
        right: columns.end,
        top: rows.first,
        bottom: rows.end,
        key: spot.key,
    })
}
