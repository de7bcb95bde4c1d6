/// The numbers of a camera.
#[derive(Clone, Copy, Debug, PartialEq, Eq)]
pub struct CameraNumbers {
    /// Where the camera stands.
    pub pos: [i32; 3],
    /// How the directions to the right, downwards and forwards lie along the three axes, each in 1/1024:
    /// -1024 to 1024.
    pub rows: [i32; 9],
    /// How many pixels wide a thing appears that is as wide as it is deep: 1 to 65536.
    pub focal: u32,
    /// The least depth that is drawn: 1 to 1000000000.
    pub near: u32,
    /// The picture's width in pixels: 1 to 4096.
    pub width: u32,
    /// The picture's height in pixels: 1 to 4096.
    pub height: u32,
    /// How many pixels wide a cube may appear before the nodes below it are shown: 1 to 65536.
    pub threshold: u32,
    /// How many pixels wide a point is drawn: 1 to 64.
    pub dot: u32,
}

/// A field of the numbers of a camera that has a range.
#[derive(Clone, Copy, Debug, PartialEq, Eq)]
pub enum CameraField {
    Rows,
    Focal,
    Near,
    Width,
    Height,
    Threshold,
    Dot,
}

/// Numbers are those of no camera: the field is the first, in the order of the numbers, that is out of
/// its range.
#[derive(Clone, Copy, Debug, PartialEq, Eq)]
pub struct CameraFault {
    pub field: CameraField,
}
