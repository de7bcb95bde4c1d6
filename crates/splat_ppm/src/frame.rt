ghost use Rattle.std.specs.Prelude.{◌≡◌, ◌*◌, ◌<◌, ◌^◌, All, length};

use std::marker::Model;

/// A finished picture: its size in pixels, and the colour number of each pixel, below 2^24, by rows from
/// the top, each row from the left.
#[derive(Drop)]
pub struct Frame {
    width: u32,
    height: u32,
    colours: Vec<u32>,
}

impl Model for Frame {
    ghost use Rattle.std.specs.Prelude.{◌≡◌, ◌*◌, ◌<◌, ◌^◌, All, length};
    ghost use Rattle.picture_model.specs.Frames.{FrameValue};

    ghost Value = { FrameValue };

    ghost view = { λ f. record { width = f.width; height = f.height; colours = f.colours.items } };

    ghost invariant = { λ f. (length f.colours.items ≡ f.width * f.height) × All (λ rgb. rgb < 2 ^ 24) f.colours.items };
}

impl Frame {
    /// A frame of these parts, moved in.
    pub fn new(width: u32, height: u32, colours: Vec<u32>) -> Frame
        requires size { length colours.items ≡ width * height }
        requires colours { All (λ rgb. rgb < 2 ^ 24) colours.items }
        ensures { result ≡ record { width = width; height = height; colours = colours.items } }
    {
        Frame {
            width,
            height,
            colours,
        }
    }

    /// The width in pixels.
    pub fn width(&self) -> u32
        ensures { result ≡ self.now.width }
    {
        self.width
    }

    /// The height in pixels.
    pub fn height(&self) -> u32
        ensures { result ≡ self.now.height }
    {
        self.height
    }

    /// The colour number of each pixel.
    pub fn colours(&self) -> &[u32]
        ensures colours { result.now ≡ self.now.colours }
        ensures size { length result.now ≡ self.now.width * self.now.height }
        ensures small { All (λ rgb. rgb < 2 ^ 24) result.now }
    {
        self.colours.as_slice()
    }
}
