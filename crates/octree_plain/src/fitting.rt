ghost use Rattle.std.specs.Prelude.{◌≡◌, ◌≤◌, ◌<◌, ◌^◌, ◌-◌, ◌-ℤ◌, unsigned_abs, Ok, Err, IfOk, IfErr, All, IsTrue};
ghost use Rattle.std.specs.Int.{int_min, int_max};
ghost use Rattle.cube_math.specs.Cubes.{contains};
ghost use Rattle.octree_plain.specs.Fitting.{fitted_cube, least_of, greatest_of, on_x, on_y, on_z, origin};

use cube_math::{Cube, Point};

/// An axis, 0 for x, 1 for y and 2 for z, on which the greatest coordinate lies `span` above the
/// least, which is 2^31 or more.
#[derive(Clone, Copy, Debug, PartialEq, Eq)]
pub struct Span {
    pub axis: u8,
    pub span: u64,
}

/// The least and the greatest coordinate of points on an axis.
#[derive(Clone, Copy)]
pub(crate) struct Extent {
    pub least: i32,
    pub greatest: i32,
}

impl Extent {
    fn of(x: i32) -> Extent
        ensures least { result.least ≡ x }
        ensures greatest { result.greatest ≡ x }
    {
        Extent {
            least: x,
            greatest: x,
        }
    }

    fn with(self, x: i32) -> Extent
        ensures least { result.least ≡ int_min self.least x }
        ensures greatest { result.greatest ≡ int_max self.greatest x }
    {
        Extent {
            least: self.least.min(x),
            greatest: self.greatest.max(x),
        }
    }

    fn span(self) -> u32
        ensures { result ≡ unsigned_abs (self.greatest -ℤ self.least) }
    {
        self.greatest.abs_diff(self.least)
    }

    /// Where an axis of this many bits begins: at the least coordinate, or before it so that the axis
    /// ends by 2^31.
    fn origin(self, bits: u32) -> i32
        requires low { 7 ≤ bits }
        requires high { bits ≤ 31 }
        ensures { result ≡ origin self.least bits }
    {
        let last = (1i64 << 31) - (1i64 << bits);
        self.least.min(last as i32)
    }
}

/// The extents on the three axes.
#[derive(Clone, Copy)]
pub(crate) struct Extents {
    pub x: Extent,
    pub y: Extent,
    pub z: Extent,
}

impl Extents {
    fn of(p: &Point) -> Extents
        ensures x { (result.x.least ≡ p.now.x) × (result.x.greatest ≡ p.now.x) }
        ensures y { (result.y.least ≡ p.now.y) × (result.y.greatest ≡ p.now.y) }
        ensures z { (result.z.least ≡ p.now.z) × (result.z.greatest ≡ p.now.z) }
    {
        Extents {
            x: Extent::of(p.x),
            y: Extent::of(p.y),
            z: Extent::of(p.z),
        }
    }

    fn with(self, p: &Point) -> Extents
        ensures x { (result.x.least ≡ int_min self.x.least p.now.x) × (result.x.greatest ≡ int_max self.x.greatest p.now.x) }
        ensures y { (result.y.least ≡ int_min self.y.least p.now.y) × (result.y.greatest ≡ int_max self.y.greatest p.now.y) }
        ensures z { (result.z.least ≡ int_min self.z.least p.now.z) × (result.z.greatest ≡ int_max self.z.greatest p.now.z) }
    {
        Extents {
            x: self.x.with(p.x),
            y: self.y.with(p.y),
            z: self.z.with(p.z),
        }
    }
}

/// The extents of the points; without points all are from 0 to 0.
pub(crate) fn extents_of(points: &[Point]) -> Extents
    ensures x { (result.x.least ≡ least_of (on_x points.now)) × (result.x.greatest ≡ greatest_of (on_x points.now)) }
    ensures y { (result.y.least ≡ least_of (on_y points.now)) × (result.y.greatest ≡ greatest_of (on_y points.now)) }
    ensures z { (result.z.least ≡ least_of (on_z points.now)) × (result.z.greatest ≡ greatest_of (on_z points.now)) }
{
    let Some((first, rest)) = points.split_first() else {
        let none = Extent::of(0);
        return Extents {
            x: none,
            y: none,
            z: none,
        };
    };
    let mut all = Extents::of(first);
    for p in rest {
        all = all.with(p);
    }
    all
}

/// The least number of bits, from 7 on, whose power of two is above the span.
fn bits_above(span: u32) -> u32
    requires { span < 2 ^ 31 }
    ensures low { 7 ≤ result }
    ensures high { result ≤ 31 }
    ensures above { span < 2 ^ result }
    ensures least { 7 < result → 2 ^ (result - 1) ≤ span }
{
    if span < 128 { 7 } else { span.ilog2() + 1 }
}

/// The least cube that is made for points: its bits are the least number, from 7 on, for which each
/// axis spans less than 2^bits, and each origin is the least coordinate, or before it where the cube
/// would pass 2^31. For no points it is the cube at 0 with 7 bits. The first axis that spans 2^31 or
/// more is the refusal. It takes no memory.
pub fn fit_cube(points: &[Point]) -> Result<Cube, Span>
    ensures fitted { IfOk result (λ cube. fitted_cube points.now ≡ Ok cube) }
    ensures refused { IfErr result (λ span. fitted_cube points.now ≡ Err span) }
    ensures contained { IfOk result (λ cube. All (λ p. IsTrue (contains cube p)) points.now) }
{
    let all = extents_of(points);
    let x = narrow(0, all.x)?;
    let y = narrow(1, all.y)?;
    let z = narrow(2, all.z)?;
    let bits = bits_above(x.max(y).max(z));
    Ok(Cube {
        ox: all.x.origin(bits),
        oy: all.y.origin(bits),
        oz: all.z.origin(bits),
        bits,
    })
}

/// The span of an axis, or a refusal where it is 2^31 or more.
fn narrow(axis: u8, extent: Extent) -> Result<u32, Span>
    ensures ok { IfOk result (λ n. (n ≡ unsigned_abs (extent.greatest -ℤ extent.least)) × (n < 2 ^ 31)) }
    ensures wide { IfErr result (λ s. (s ≡ record { axis = axis; span = unsigned_abs (extent.greatest -ℤ extent.least) }) × (2 ^ 31 ≤ s.span)) }
{
    let span = extent.span();
    if span < 1 << 31 {
        Ok(span)
    } else {
        Err(Span {
            axis,
            span: u64::from(span),
        })
    }
}
