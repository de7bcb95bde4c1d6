ghost use Rattle.std.specs.Prelude.{◌≡◌, ◌++◌, ◌<◌, ◌^◌, All, IfOk, OnOk};
ghost use Rattle.std.specs.List.{flat_map};
ghost use Rattle.octree_model.specs.Shapes.{IsOctreeIn};
ghost use Rattle.picture_model.specs.Frames.{frame};
ghost use Rattle.picture_model.specs.Items.{items};
ghost use Rattle.picture_model.specs.Pictures.{colour_bytes, ppm, ppm_head};

use crate::canvas::Canvas;
use crate::frame::Frame;
use camera_cut::Camera;
use cube_math::Cube;
use octree_model::Tree;
use std::alloc::{AllocError, Global};

/// The picture that a camera takes of an octree: the bytes of the frame of the items of its cut.
pub fn picture_of(
    alloc: Global,
    tree: &Tree,
    cube: &Cube,
    camera: &Camera,
) -> Result<Vec<u8>, AllocError>
    requires { IsOctreeIn cube.now tree.now }
    ensures { IfOk result (λ bytes. bytes.items ≡ ppm (frame camera.now (items camera.now tree.now cube.now))) }
{
    let mut canvas = Canvas::new(alloc, camera)?;
    canvas.draw_octree(tree, cube);
    let frame = canvas.frame(alloc)?;
    ppm(alloc, &frame)
}

/// The bytes of a frame as a binary PPM file.
pub fn ppm(alloc: Global, frame: &Frame) -> Result<Vec<u8>, AllocError>
    ensures { IfOk result (λ bytes. bytes.items ≡ ppm frame.now) }
{
    let mut bytes = ppm_head(alloc, frame.width(), frame.height())?;
    push_colours(&mut bytes, frame.colours())?;
    Ok(bytes)
}

/// The kind of file, the size and the greatest colour byte.
fn ppm_head(alloc: Global, width: u32, height: u32) -> Result<Vec<u8>, AllocError>
    ensures { IfOk result (λ head. head.items ≡ ppm_head width height) }
{
    let mut head = String::new(alloc);
    write!(head, "P6\n{width} {height}\n255\n")?;
    Ok(head.into_bytes())
}

/// Appends red, green and blue of each colour number.
fn push_colours(bytes: &mut Vec<u8>, colours: &[u32]) -> Result<(), AllocError>
    requires { All (λ rgb. rgb < 2 ^ 24) colours.now }
    ensures { OnOk result (bytes.new.items ≡ bytes.old.items ++ flat_map colour_bytes colours.now) }
{
    bytes.reserve(colours.len() * 3)?;
    for colour in colours {
        bytes.extend_from_slice(&colour_bytes(*colour))?;
    }
    Ok(())
}

/// Red, green and blue of a colour number.
#[inline]
fn colour_bytes(rgb: u32) -> [u8; 3]
    requires { rgb < 2 ^ 24 }
    ensures { result ≡ colour_bytes rgb }
{
    [
        (rgb / 65_536) as u8,
        (rgb / 256 % 256) as u8,
        (rgb % 256) as u8,
    ]
}
