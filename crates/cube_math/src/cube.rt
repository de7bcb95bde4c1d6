ghost use Rattle.std.specs.Prelude.{◌≡◌, ℕ, ◌+◌, ◌-◌, ◌*◌, ◌^◌, ◌<◌, ◌≤◌, ◌↔◌, length, IsTrue, IsSome, IfSome, ℤ, pos, ◌+ℤ◌, ◌≤ℤ◌};
ghost use Rattle.cube_math.specs.Cubes.{FitsSpace, on_axis, contains, child, cube_at, octant, cell, centre, far, distance, octant_bit, cell_index, from_middle, square};

use crate::path::Path;
use crate::point::Point;
use std::marker::Model;

/// A half-open cube of space: it contains the points with `ox <= x < ox + 2^bits`, and the same for y
/// and z. `bits` is 7 to 31, and no end is above 2^31.
#[derive(Clone, Copy, Debug, PartialEq, Eq)]
pub struct Cube {
    pub ox: i32,
    pub oy: i32,
    pub oz: i32,
    pub bits: u32,
}

impl Model for Cube {
    ghost use Rattle.cube_math.specs.Cubes.{CubeValue, FitsSpace};

    ghost Value = { CubeValue };

    ghost view = { λ c. record { ox = c.ox; oy = c.oy; oz = c.oz; bits = c.bits } };

    ghost invariant = { λ c. FitsSpace c.ox c.oy c.oz c.bits };

    ghost inverse = { λ c. record { ox = c.ox; oy = c.oy; oz = c.oz; bits = c.bits } };
}

impl Cube {
    /// The cube with this origin and side, or None where it does not fit the space.
    pub fn new(ox: i32, oy: i32, oz: i32, bits: u32) -> Option<Cube>
        ensures fits { IsSome result ↔ FitsSpace ox oy oz bits }
        ensures value { IfSome result (λ c. c ≡ record { ox = ox; oy = oy; oz = oz; bits = bits }) }
    {
        if bits < 7 || bits > 31 {
            return None;
        }
        if ends_within(ox, bits) && ends_within(oy, bits) && ends_within(oz, bits) {
            Some(Cube { ox, oy, oz, bits })
        } else {
            None
        }
    }

    /// Whether the point lies in the cube.
    pub fn contains(&self, p: &Point) -> bool
        ensures { result ≡ contains self.now p.now }
    {
        let on_x = holds_on_axis(self.ox, self.bits, p.x);
        let on_y = holds_on_axis(self.oy, self.bits, p.y);
        let on_z = holds_on_axis(self.oz, self.bits, p.z);
        on_x & on_y & on_z
    }

    /// The number, 0 to 7, of the octant in which the point lies: x bit + 2·y bit + 4·z bit.
    #[tactic(auto, using(std::proofs::lemmas::Bool::and_parts))]
    pub fn octant(&self, p: &Point) -> u8
        requires contained { IsTrue (contains self.now p.now) }
        requires splits { 7 < self.now.bits }
        ensures value { result ≡ octant self.now p.now }
        ensures below { result < 8 }
    {
        let x = upper_half(self.ox, self.bits, p.x);
        let y = upper_half(self.oy, self.bits, p.y);
        let z = upper_half(self.oz, self.bits, p.z);
        x + 2 * y + 4 * z
    }

    /// The cube of an octant.
    pub fn child(&self, octant: u8) -> Cube
        requires below { octant < 8 }
        requires splits { 7 < self.now.bits }
        ensures { result ≡ child self.now octant }
    {
        Cube {
            ox: half_origin(self.ox, self.bits, octant % 2),
            oy: half_origin(self.oy, self.bits, octant / 2 % 2),
            oz: half_origin(self.oz, self.bits, octant / 4),
            bits: self.bits - 1,
        }
    }

    /// The cube of the node with this path below a node with this cube.
    pub fn at(&self, path: &Path) -> Cube
        requires { length path.now + 7 ≤ self.now.bits }
        ensures { result ≡ cube_at self.now path.now }
    {
        let mut cube = *self;
        for step in 0..path.len() {
            cube = cube.child(path.octant(step));
        }
        cube
    }

    /// The point in the middle: the origin plus half the side on each axis.
    pub fn centre(&self) -> (i32, i32, i32)
        ensures { result ≡ centre self.now }
    {
        (
            axis_middle(self.ox, self.bits),
            axis_middle(self.oy, self.bits),
            axis_middle(self.oz, self.bits),
        )
    }

    /// The number, below 2^21, of the cell in which the point lies. A cell has the side
    /// 2^(bits - 7), and the cell with the indices cx, cy and cz has the number
    /// cx + 128·cy + 16384·cz.
    #[tactic(auto, using(std::proofs::lemmas::Bool::and_parts))]
    pub fn cell(&self, p: &Point) -> u32
        requires contained { IsTrue (contains self.now p.now) }
        requires splits { 7 < self.now.bits }
        ensures value { result ≡ cell self.now p.now }
        ensures below { result < 2 ^ 21 }
    {
        let x = cell_on_axis(self.ox, self.bits, p.x);
        let y = cell_on_axis(self.oy, self.bits, p.y);
        let z = cell_on_axis(self.oz, self.bits, p.z);
        x + 128 * y + 16384 * z
    }

    /// The square of the distance of the point from the middle of its cell.
    #[tactic(auto, using(std::proofs::lemmas::Bool::and_parts))]
    pub fn far(&self, p: &Point) -> u64
        requires contained { IsTrue (contains self.now p.now) }
        requires splits { 7 < self.now.bits }
        ensures value { result ≡ far self.now p.now }
        ensures below { result < 2 ^ 48 }
    {
        let x = away_from_middle(self.ox, self.bits, p.x);
        let y = away_from_middle(self.oy, self.bits, p.y);
        let z = away_from_middle(self.oz, self.bits, p.z);
        square(x) + square(y) + square(z)
    }
}

/// Whether an axis of this many bits from `o` on ends at 2^31 or before.
fn ends_within(o: i32, bits: u32) -> bool
    requires { bits ≤ 31 }
    ensures { IsTrue result ↔ ((o +ℤ pos (2 ^ bits)) ≤ℤ pos (2 ^ 31)) }
{
    i64::from(o) + (1i64 << bits) <= 1i64 << 31
}

fn holds_on_axis(o: i32, bits: u32, x: i32) -> bool
    requires { bits ≤ 31 }
    ensures { result ≡ on_axis o bits x }
{
    let end = i64::from(o) + (1i64 << bits);
    o <= x && i64::from(x) < end
}

fn distance_from(o: i32, x: i32) -> u32
    requires { o ≤ℤ x }
    ensures { result ≡ distance o x }
{
    (i64::from(x) - i64::from(o)) as u32
}

/// 1 where the coordinate lies in the upper half of its axis, else 0.
fn upper_half(o: i32, bits: u32, x: i32) -> u8
    requires low { 7 < bits }
    requires high { bits ≤ 31 }
    requires contained { IsTrue (on_axis o bits x) }
    ensures value { result ≡ octant_bit o bits x }
    ensures below { result < 2 }
{
    (distance_from(o, x) >> (bits - 1)) as u8
}

#[tactic(auto, using(std::proofs::lemmas::Nat::div_below, std::proofs::lemmas::Nat::pow_pos, std::proofs::lemmas::Nat::shr_below))]
fn cell_on_axis(o: i32, bits: u32, x: i32) -> u32
    requires low { 7 < bits }
    requires high { bits ≤ 31 }
    requires contained { IsTrue (on_axis o bits x) }
    ensures value { result ≡ cell_index o bits x }
    ensures below { result < 128 }
{
    distance_from(o, x) >> (bits - 7)
}

/// How far a coordinate lies from the middle of its cell.
fn away_from_middle(o: i32, bits: u32, x: i32) -> u64
    requires low { 7 < bits }
    requires high { bits ≤ 31 }
    requires contained { IsTrue (on_axis o bits x) }
    ensures value { result ≡ from_middle o bits x }
    ensures small { result ≤ 2 ^ 23 }
{
    let side = 1u32 << (bits - 7);
    let within = distance_from(o, x) % side;
    u64::from(within.abs_diff(side / 2))
}

fn square(n: u64) -> u64
    requires { n ≤ 2 ^ 23 }
    ensures value { result ≡ square n }
    ensures small { result ≤ 2 ^ 46 }
{
    n * n
}

/// Where the lower or the upper half of an axis begins.
fn half_origin(o: i32, bits: u32, upper: u8) -> i32
    requires low { 7 < bits }
    requires high { bits ≤ 31 }
    requires end { (o +ℤ pos (2 ^ bits)) ≤ℤ pos (2 ^ 31) }
    requires upper { upper < 2 }
    ensures value { result ≡ o +ℤ pos (upper * 2 ^ (bits - 1)) }
    ensures end { (result +ℤ pos (2 ^ (bits - 1))) ≤ℤ pos (2 ^ 31) }
{
    if upper == 1 { axis_middle(o, bits) } else { o }
}

/// Where the upper half of an axis begins.
fn axis_middle(o: i32, bits: u32) -> i32
    requires low { 7 ≤ bits }
    requires high { bits ≤ 31 }
    requires end { (o +ℤ pos (2 ^ bits)) ≤ℤ pos (2 ^ 31) }
    ensures value { result ≡ o +ℤ pos (2 ^ (bits - 1)) }
    ensures end { (result +ℤ pos (2 ^ (bits - 1))) ≤ℤ pos (2 ^ 31) }
{
    o + (1i32 << (bits - 1))
}
