ghost use Rattle.std.specs.Prelude.{◌≡◌, ◌<◌, ◌≤◌, ◌+◌, ◌*◌, ◌^◌, ℕ, ℤ, pos, unsigned_abs, length, min};
ghost use Rattle.std.specs.Int.{int_max};
ghost use Rattle.picture_model.specs.Frames.{reaches};
ghost use Rattle.splat_ppm.specs.Lowering.{AreLowered, lies_in, lies_in_square};

/// A part of an axis of pixels, from the first one on, below the end.
#[derive(Clone, Copy)]
pub struct Part {
    pub first: usize,
    pub end: usize,
}

/// The pixels of a picture that an item covers, and the key that it has there: those in the columns from `left`
/// on, below `right`, and in the rows from `top` on, below `bottom`.
#[derive(Clone, Copy)]
pub struct Square {
    pub left: usize,
    pub right: usize,
    pub top: usize,
    pub bottom: usize,
    pub key: u64,
}

/// The part of an axis of so many pixels that lies from `begin` on for `side` pixels.
#[inline]
pub fn part_within(begin: i64, side: u64, pixels: u32) -> Part
    requires begin { unsigned_abs begin < 2 ^ 52 }
    requires side { side < 2 ^ 50 }
    ensures ordered { result.first ≤ result.end }
    ensures within { result.end ≤ pixels }
    ensures value { (k : ℕ) → k < pixels → reaches begin side k ≡ lies_in result.first result.end k }
{
    Part {
        first: clamp_to(begin, pixels),
        end: clamp_to(begin + side as i64, pixels),
    }
}

/// The place nearest to `at` from 0 to `pixels`.
#[inline]
fn clamp_to(at: i64, pixels: u32) -> usize
    requires { unsigned_abs at < 2 ^ 53 }
    ensures { result ≡ min pixels (unsigned_abs (int_max (pos 0) at)) }
{
    at.clamp(0, i64::from(pixels)) as usize
}

/// Lowers the keys of a square of a picture of this width.
#[inline]
pub fn lower_square(keys: &mut [u64], width: usize, square: Square)
    requires width { 0 < width }
    requires ordered { square.left ≤ square.right }
    requires columns { square.right ≤ width }
    requires rows { square.bottom * width ≤ length keys.old }
    ensures { AreLowered (lies_in_square width square.left square.right square.top square.bottom) square.key keys.old keys.new }
{
    for row in square.top..square.bottom {
        let start = row * width;
        lower(keys, start + square.left, start + square.right, square.key);
    }
}

/// Lowers the keys from one place on, below another.
#[inline]
fn lower(keys: &mut [u64], first: usize, end: usize, key: u64)
    requires { end ≤ length keys.old }
    ensures { AreLowered (lies_in first end) key keys.old keys.new }
{
    for k in first..end {
        keys[k] = keys[k].min(key);
    }
}
