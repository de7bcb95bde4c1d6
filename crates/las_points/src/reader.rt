ghost use Rattle.std.specs.Prelude.{◌≡◌, IfErr, IfOk, Ok};
ghost use Rattle.las_points.specs.Reading.{las, IsFault};

use crate::header::read_header;
use crate::records::{read_frame, read_points};
use cube_math::Point;
use std::alloc::Global;
use std::marker::Model;

/// Which byte of a colour word of 16 bits is taken. Files hold colours of 16 bits in the high byte,
/// and some hold colours of 8 bits in the low one.
#[derive(Clone, Copy, Debug, PartialEq, Eq)]
pub enum RgbByte {
    High,
    Low,
}

/// The points of a file in their order, and the 48 bytes of its scales and offsets, which tell
/// whether the coordinates of two files mean the same.
#[derive(Debug, Drop)]
pub struct LasCloud {
    pub points: Vec<Point>,
    pub frame: [u8; 48],
}

impl Model for LasCloud {
    ghost use Rattle.las_points.specs.Clouds.{CloudValue};

    ghost Value = { CloudValue };

    ghost view = { λ c. record { points = c.points.items; frame = c.frame } };
}

/// Why a file is not read, tested in this order but for `HeaderShort`, which is tested before and
/// behind `Version`.
#[derive(Clone, Copy, Debug, PartialEq, Eq)]
pub enum LasFault {
    /// The file does not begin with `LASF`, or with what it has of it.
    NotLas,
    /// The file has `have` bytes, and its header is longer.
    HeaderShort { have: u64 },
    /// The version is not 1.2, 1.3 or 1.4.
    Version { major: u8, minor: u8 },
    /// The points are compressed, as a point format byte of 128 or more tells.
    Compressed { byte: u8 },
    /// The point format is not 0, 1, 2, 3, 6, 7 or 8.
    Format { byte: u8 },
    /// A record has `have` bytes, and the point format takes `need`.
    Length { have: u16, need: u16 },
    /// The points start at `offset`, within the `header` bytes of the header.
    Start { offset: u32, header: u32 },
    /// The file has `have` bytes, and its points reach to `need`.
    PointsShort { have: u64, need: u128 },
    /// There is not enough memory. This says nothing of the file.
    Memory,
}

/// The points of a LAS file in their order, with the coordinates as they are stored.
///
/// The colour is that of the words of red, green and blue, of which `rgb` tells the byte. A format
/// without these words gives the grey of the high byte of the intensity.
pub fn read_las(alloc: Global, bytes: &[u8], rgb: RgbByte) -> Result<LasCloud, LasFault>
    ensures cloud { IfOk result (λ cloud. las rgb bytes.now ≡ Ok cloud) }
    ensures fault { IfErr result (λ fault. IsFault rgb bytes.now fault) }
{
    let table = read_header(bytes)?;
    let Ok(points) = read_points(alloc, bytes, &table, rgb) else {
        return Err(LasFault::Memory);
    };
    Ok(LasCloud {
        points,
        frame: read_frame(bytes),
    })
}
