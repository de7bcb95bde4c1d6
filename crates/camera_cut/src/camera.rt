ghost use Rattle.std.specs.Prelude.{◌≡◌, ◌<◌, ◌≤◌, ◌^◌, None, Some, IfErr, IfOk, OnOk, pos, ◌+ℤ◌, ◌-ℤ◌, ◌*ℤ◌, unsigned_abs, int_le, int_lt};
ghost use Rattle.std.specs.Int.{int_max};
ghost use Rattle.std.specs.List.{list_all};
ghost use Rattle.picture_model.specs.Cameras.{IsRow, along, depth, refines, seen_at};
ghost use Rattle.cube_math.specs.Cubes.{centre};
ghost use Rattle.camera_cut.specs.Kept.{triple_of};
ghost use Rattle.camera_cut.specs.Fields.{camera_of, first_out_of_range, in_row, within};

use crate::numbers::{CameraFault, CameraField, CameraNumbers};
use cube_math::Cube;
use std::marker::Model;

/// A number for each axis.
#[derive(Clone, Copy, Debug)]
struct Axes {
    x: i32,
    y: i32,
    z: i32,
}

impl Axes {
    fn new(x: i32, y: i32, z: i32) -> Axes
        ensures { result ≡ record { x = x; y = y; z = z } }
    {
        Axes { x, y, z }
    }
}

/// A camera: where it stands, how it is turned, and what it draws. Its numbers are in their ranges.
#[derive(Clone, Copy, Debug)]
pub struct Camera {
    eye: Axes,
    right: Axes,
    down: Axes,
    forward: Axes,
    focal: u32,
    near: u32,
    width: u32,
    height: u32,
    threshold: u32,
    dot: u32,
}

impl Model for Camera {
    ghost use Rattle.picture_model.specs.Cameras.{CameraValue};

    ghost Value = { CameraValue };

    ghost use Rattle.picture_model.specs.Cameras.{IsCamera};
    ghost use Rattle.camera_cut.specs.Kept.{camera_value, camera_back};

    ghost view = { camera_value };

    ghost invariant = { λ c. IsCamera (camera_value c) };

    ghost inverse = { camera_back };
}

impl Camera {
    /// The camera with these numbers, or the first field that is out of its range.
    pub fn new(numbers: CameraNumbers) -> Result<Camera, CameraFault>
        ensures camera { IfOk result (λ camera. camera ≡ camera_of numbers) }
        ensures ranges { OnOk result (first_out_of_range numbers ≡ None) }
        ensures fault { IfErr result (λ fault. first_out_of_range numbers ≡ Some fault.field) }
    {
        if let Some(field) = field_out_of_range(&numbers) {
            return Err(CameraFault { field });
        }
        Ok(with_numbers(&numbers))
    }

    /// The numbers of the camera.
    pub fn numbers(&self) -> CameraNumbers
        ensures { camera_of result ≡ self.now }
    {
        CameraNumbers {
            pos: [self.eye.x, self.eye.y, self.eye.z],
            rows: [
                self.right.x,
                self.right.y,
                self.right.z,
                self.down.x,
                self.down.y,
                self.down.z,
                self.forward.x,
                self.forward.y,
                self.forward.z,
            ],
            focal: self.focal,
            near: self.near,
            width: self.width,
            height: self.height,
            threshold: self.threshold,
            dot: self.dot,
        }
    }

    /// How many pixels wide a thing appears that is as wide as it is deep.
    #[inline]
    pub fn focal(&self) -> u32
        ensures value { result ≡ self.now.focal }
        ensures low { 1 ≤ result }
        ensures high { result ≤ 65536 }
    {
        self.focal
    }

    /// The least depth that is drawn.
    #[inline]
    pub fn near(&self) -> u32
        ensures value { result ≡ self.now.near }
        ensures low { 1 ≤ result }
        ensures high { result ≤ 1000000000 }
    {
        self.near
    }

    /// The picture's width in pixels.
    #[inline]
    pub fn width(&self) -> u32
        ensures value { result ≡ self.now.width }
        ensures low { 1 ≤ result }
        ensures high { result ≤ 4096 }
    {
        self.width
    }

    /// The picture's height in pixels.
    #[inline]
    pub fn height(&self) -> u32
        ensures value { result ≡ self.now.height }
        ensures low { 1 ≤ result }
        ensures high { result ≤ 4096 }
    {
        self.height
    }

    /// How many pixels wide a point is drawn.
    #[inline]
    pub fn dot(&self) -> u32
        ensures value { result ≡ self.now.dot }
        ensures low { 1 ≤ result }
        ensures high { result ≤ 64 }
    {
        self.dot
    }

    /// How far a position lies to the right of the camera, below it and before it. Each number is
    /// rounded down, and is below 2^34 in size.
    #[inline]
    pub fn place(&self, x: i32, y: i32, z: i32) -> (i64, i64, i64)
        ensures place { result ≡ seen_at self.now (x, y, z) }
        ensures right_small { unsigned_abs result.0 < 2 ^ 34 }
        ensures down_small { unsigned_abs result.1 < 2 ^ 34 }
        ensures forward_small { unsigned_abs result.2 < 2 ^ 34 }
    {
        let at = Axes { x, y, z };
        (
            along(self.eye, self.right, at),
            along(self.eye, self.down, at),
            along(self.eye, self.forward, at),
        )
    }

    /// Whether a cube is shown by the nodes below its node: where it does not end before the near plane,
    /// and its side, at its nearest, appears more than `threshold` pixels wide.
    pub fn refines(&self, cube: &Cube) -> bool
        ensures { result ≡ refines self.now cube.now }
    {
        let middle = self.middle_depth(cube);
        let side = side_of(cube);
        let nearest = nearest_depth(middle, side, self.near);
        reaches_near(middle, side, self.near) & is_large(side, self.focal, self.threshold, nearest)
    }

    /// The depth of the point in the middle of a cube.
    fn middle_depth(&self, cube: &Cube) -> i64
        ensures value { result ≡ depth self.now (centre cube.now) }
        ensures small { unsigned_abs result < 2 ^ 34 }
    {
        let (x, y, z) = cube.centre();
        let (_, _, depth) = self.place(x, y, z);
        depth
    }
}

fn side_of(cube: &Cube) -> i64
    ensures value { result ≡ pos (2 ^ cube.now.bits) }
    ensures small { unsigned_abs result ≤ 2 ^ 31 }
{
    1i64 << cube.bits
}

/// Whether a cube does not end before the near plane.
fn reaches_near(middle: i64, side: i64, near: u32) -> bool
    requires middle_small { unsigned_abs middle < 2 ^ 34 }
    requires side_small { unsigned_abs side ≤ 2 ^ 31 }
    ensures { result ≡ int_le (pos near) (middle +ℤ side) }
{
    i64::from(near) <= middle + side
}

/// The least depth of a cube, but no less than that of the near plane.
fn nearest_depth(middle: i64, side: i64, near: u32) -> i64
    requires middle_small { unsigned_abs middle < 2 ^ 34 }
    requires side_small { unsigned_abs side ≤ 2 ^ 31 }
    requires near_small { near ≤ 1000000000 }
    ensures value { result ≡ int_max (pos near) (middle -ℤ side) }
    ensures small { unsigned_abs result ≤ 2 ^ 35 }
{
    i64::from(near).max(middle - side)
}

/// How far a position lies from the eye along a row.
#[inline]
fn along(eye: Axes, row: Axes, at: Axes) -> i64
    requires { IsRow (triple_of row) }
    ensures value { result ≡ along (triple_of eye) (triple_of row) (triple_of at) }
    ensures small { unsigned_abs result < 2 ^ 34 }
{
    let across = part(row.x, eye.x, at.x) + part(row.y, eye.y, at.y) + part(row.z, eye.z, at.z);
    across >> 10
}

/// The part of an axis in the sum along a row.
#[inline]
fn part(row: i32, from: i32, to: i32) -> i64
    requires { unsigned_abs row ≤ 1024 }
    ensures value { result ≡ row *ℤ (to -ℤ from) }
    ensures small { unsigned_abs result ≤ 2 ^ 42 }
{
    let off = i64::from(to) - i64::from(from);
    i64::from(row) * off
}

/// Whether a side that lies so near appears more than `threshold` pixels wide.
fn is_large(side: i64, focal: u32, threshold: u32, nearest: i64) -> bool
    requires side_small { unsigned_abs side ≤ 2 ^ 31 }
    requires focal_small { focal ≤ 65536 }
    requires threshold_small { threshold ≤ 65536 }
    requires nearest_small { unsigned_abs nearest ≤ 2 ^ 35 }
    ensures { result ≡ int_lt (pos threshold *ℤ nearest) (side *ℤ pos focal) }
{
    i64::from(threshold) * nearest < side * i64::from(focal)
}

/// The first field that is out of its range, if one is.
fn field_out_of_range(numbers: &CameraNumbers) -> Option<CameraField>
    ensures { result ≡ first_out_of_range numbers.now }
{
    if !are_in_row(&numbers.rows) {
        return Some(CameraField::Rows);
    }
    if !is_within(1, 65_536, numbers.focal) {
        return Some(CameraField::Focal);
    }
    if !is_within(1, 1_000_000_000, numbers.near) {
        return Some(CameraField::Near);
    }
    if !is_within(1, 4096, numbers.width) {
        return Some(CameraField::Width);
    }
    if !is_within(1, 4096, numbers.height) {
        return Some(CameraField::Height);
    }
    if !is_within(1, 65_536, numbers.threshold) {
        return Some(CameraField::Threshold);
    }
    if !is_within(1, 64, numbers.dot) {
        return Some(CameraField::Dot);
    }
    None
}

fn are_in_row(rows: &[i32]) -> bool
    ensures { result ≡ list_all in_row rows.now }
{
    rows.iter().all(|r| -1024 <= *r && *r <= 1024)
}

fn is_within(low: u32, high: u32, n: u32) -> bool
    ensures { result ≡ within low high n }
{
    low <= n && n <= high
}

/// The camera with these numbers, which are in their ranges.
fn with_numbers(numbers: &CameraNumbers) -> Camera
    requires { first_out_of_range numbers.now ≡ None }
    ensures { result ≡ camera_of numbers.now }
{
    let CameraNumbers { pos, rows, .. } = *numbers;
    Camera {
        eye: Axes::new(pos[0], pos[1], pos[2]),
        right: Axes::new(rows[0], rows[1], rows[2]),
        down: Axes::new(rows[3], rows[4], rows[5]),
        forward: Axes::new(rows[6], rows[7], rows[8]),
        focal: numbers.focal,
        near: numbers.near,
        width: numbers.width,
        height: numbers.height,
        threshold: numbers.threshold,
        dot: numbers.dot,
    }
}
