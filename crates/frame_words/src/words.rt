//! Single steps on the words of a canvas, each on the word of one pixel.
ghost use Rattle.std.specs.Prelude.{◌≡◌, ◌<◌, ◌≤◌, ◌∷◌, []};
ghost use Rattle.frame_words.specs.Hands.{IsBrush, lowered, wiped, key_of};

use crate::rule::{Chair, Desk, Draw, Key, Load, Look, Wipe};
use splat_ppm::NO_KEY;
use std::marker::Brand;

/// Draws a key at a pixel. Where the word is no greater already, it is only read.
#[inline]
pub fn lower_pixel(desk: &Desk, seat: &mut Chair, pixel: usize, key: u64)
    requires table { seat.old.table_id ≡ desk.now.shared.table_id }
    requires sized { desk.now.shared.key ≡ desk.now.shared.table_id.words }
    requires pixel { pixel < desk.now.shared.key }
    requires brush { IsBrush desk.now.shared.key seat.old.me.0.shares seat.old.me }
    requires some { 0 < seat.old.me.0.shares }
    ensures table { seat.new.table_id ≡ seat.old.table_id }
    ensures drawn { seat.new.me ≡ (lowered seat.old.me.0 pixel key, []) }
{
    if look::<Brand>(desk, seat, pixel, key) > key {
        desk.shared.fetch_min::<Draw>(seat, pixel, key);
    }
}

/// Reads the word of a pixel. Where it is no greater than the key, the key counts as drawn there.
#[inline]
fn look<K: Key>(desk: &Desk, seat: &mut Chair, pixel: usize, key: u64) -> u64
    requires picked { key ≡ K.key }
    requires table { seat.old.table_id ≡ desk.now.shared.table_id }
    requires sized { desk.now.shared.key ≡ desk.now.shared.table_id.words }
    requires pixel { pixel < desk.now.shared.key }
    requires brush { IsBrush desk.now.shared.key seat.old.me.0.shares seat.old.me }
    requires some { 0 < seat.old.me.0.shares }
    ensures table { seat.new.table_id ≡ seat.old.table_id }
    ensures drawn { result ≤ key → seat.new.me ≡ (lowered seat.old.me.0 pixel key, []) }
    ensures kept { key < result → seat.new.me ≡ seat.old.me }
{
    desk.shared.load::<Look<K>>(seat, pixel)
}

/// The key of a pixel, for a seat that has all shares.
#[inline]
pub fn read_pixel(desk: &Desk, seat: &mut Chair, pixel: usize) -> u64
    requires table { seat.old.table_id ≡ desk.now.shared.table_id }
    requires sized { desk.now.shared.key ≡ desk.now.shared.table_id.words }
    requires pixel { pixel < desk.now.shared.key }
    requires whole { IsBrush desk.now.shared.key 16 seat.old.me }
    ensures table { seat.new.table_id ≡ seat.old.table_id }
    ensures kept { seat.new.me ≡ seat.old.me }
    ensures key { result ≡ key_of seat.old.me.0 pixel }
{
    desk.shared.load::<Load>(seat, pixel)
}

/// Wipes a pixel, for a seat that has all shares.
#[inline]
pub fn wipe_pixel(desk: &Desk, seat: &mut Chair, pixel: usize)
    requires table { seat.old.table_id ≡ desk.now.shared.table_id }
    requires sized { desk.now.shared.key ≡ desk.now.shared.table_id.words }
    requires pixel { pixel < desk.now.shared.key }
    requires whole { IsBrush desk.now.shared.key 16 seat.old.me }
    ensures table { seat.new.table_id ≡ seat.old.table_id }
    ensures wiped { seat.new.me ≡ (wiped seat.old.me.0 pixel, []) }
{
    desk.shared.store::<Wipe>(seat, pixel, NO_KEY);
}
