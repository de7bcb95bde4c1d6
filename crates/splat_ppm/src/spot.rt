ghost use Rattle.std.specs.Prelude.{◌≡◌, ◌<◌, ◌≤◌, ◌+◌, ◌*◌, ◌/◌, ◌^◌, ◌==◌, ℤ, pos, ◌+ℤ◌, ◌-ℤ◌, ◌*ℤ◌, max, unsigned_abs, if◌then◌else◌};
ghost use Rattle.picture_model.specs.Cameras.{floor_over};
ghost use Rattle.picture_model.specs.Frames.{spot};

use camera_cut::{Camera, Item};
use std::marker::Model;

/// What is drawn of an item: the pixels from `left` on and from `top` on, as many as `side` to the right
/// and downwards, with a key. The place is below 2^52 in size, the side below 2^50, the key below 2^60.
#[derive(Clone, Copy, Debug, PartialEq, Eq)]
pub struct Spot {
    pub left: i64,
    pub top: i64,
    pub side: u64,
    pub key: u64,
}

impl Model for Spot {
    ghost use Rattle.picture_model.specs.Frames.{SpotValue};
    ghost use Rattle.splat_ppm.specs.Spots.{IsSmall};

    ghost Value = { SpotValue };

    ghost view = { λ s. record { left = s.left; top = s.top; side = s.side; key = s.key } };

    ghost invariant = { λ s. IsSmall s.left s.top s.side s.key };

    ghost inverse = { λ s. record { left = s.left; top = s.top; side = s.side; key = s.key } };
}

/// What a camera draws of an item: nothing exactly where its depth is below the near plane.
#[inline]
pub fn project(item: &Item, camera: &Camera) -> Option<Spot>
    ensures { result ≡ spot camera.now item.now }
{
    let (right, down, depth) = camera.place(item.x, item.y, item.z);
    if depth < i64::from(camera.near()) {
        return None;
    }
    let depth = depth as u64;
    let side = square_side(item.side, depth, camera.focal(), camera.dot());
    Some(Spot {
        left: square_begin(camera.width(), camera.focal(), right, depth, side),
        top: square_begin(camera.height(), camera.focal(), down, depth, side),
        side,
        key: (depth << 24) + u64::from(item.rgb),
    })
}

/// How many pixels wide and high the square of an item of this side is.
#[inline]
fn square_side(side: u32, depth: u64, focal: u32, dot: u32) -> u64
    requires deep { 0 < depth }
    requires focal { focal ≤ 65536 }
    requires dot { dot ≤ 64 }
    ensures value { result ≡ (if side == 0 then dot else max 1 (focal * side / depth)) }
    ensures small { result < 2 ^ 50 }
{
    if side == 0 {
        u64::from(dot)
    } else {
        quotient(u64::from(focal) * u64::from(side), depth).max(1)
    }
}

/// The first pixel of a square on an axis of so many pixels, for an item that lies so far from the middle.
#[inline]
fn square_begin(pixels: u32, focal: u32, off: i64, depth: u64, side: u64) -> i64
    requires pixels { pixels ≤ 4096 }
    requires focal { focal ≤ 65536 }
    requires off { unsigned_abs off < 2 ^ 34 }
    requires deep { 0 < depth }
    requires depth { depth < 2 ^ 34 }
    requires side { side < 2 ^ 50 }
    ensures value { result ≡ (pos (pixels / 2) +ℤ floor_over (pos focal *ℤ off) depth) -ℤ pos (side / 2) }
    ensures small { unsigned_abs result < 2 ^ 52 }
{
    let middle = i64::from(pixels / 2) + floor_quotient(spread(focal, off), depth);
    middle - (side / 2) as i64
}

#[inline]
fn spread(focal: u32, off: i64) -> i64
    requires focal { focal ≤ 65536 }
    requires off { unsigned_abs off < 2 ^ 34 }
    ensures value { result ≡ pos focal *ℤ off }
    ensures small { unsigned_abs result ≤ 2 ^ 50 }
{
    i64::from(focal) * off
}

/// The quotient, rounded towards minus infinity.
#[inline]
fn floor_quotient(n: i64, d: u64) -> i64
    requires n { unsigned_abs n ≤ 2 ^ 50 }
    requires d { 0 < d }
    ensures value { result ≡ floor_over n d }
    ensures small { unsigned_abs result ≤ 2 ^ 50 }
{
    if n >= 0 {
        quotient(n as u64, d) as i64
    } else {
        -1 - quotient((-1 - n) as u64, d) as i64
    }
}

/// The quotient, rounded down. Numbers of 32 bits, which are the usual ones, are divided faster.
#[inline]
fn quotient(n: u64, d: u64) -> u64
    requires { 0 < d }
    ensures { result ≡ n / d }
{
    const SHORT: u64 = 1 << 32;
    if n < SHORT && d < SHORT {
        u64::from(n as u32 / d as u32)
    } else {
        n / d
    }
}
