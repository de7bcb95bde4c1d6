ghost use Rattle.std.specs.Prelude.{◌≡◌, ◌<◌, ◌≤◌, ◌+◌, length, slice_index, IfOk};
ghost use Rattle.las_points.specs.Fields.{i32_at, frame};
ghost use Rattle.las_points.specs.Formats.{colour_end};
ghost use Rattle.las_points.specs.Reading.{colour_number, first_points};
ghost use Rattle.las_points.specs.Records.{colour_place};
ghost use Rattle.las_points.specs.Tables.{IsTable};

use crate::fields::i32_at;
use crate::header::PointTable;
use crate::reader::RgbByte;
use cube_math::Point;
use std::alloc::{AllocError, Global};

/// Where in a record the high byte of the intensity stands.
const GREY: usize = 13;

/// Where in the header the scales and offsets stand.
const FRAME: usize = 131;

/// Where in a record the bytes of red, green and blue stand.
#[derive(Clone, Copy)]
struct ColourPlaces {
    red: usize,
    green: usize,
    blue: usize,
}

impl ColourPlaces {
    /// The places of the bytes in words from a place on, or else of the high byte of the intensity.
    fn new(words: Option<usize>, rgb: RgbByte) -> ColourPlaces
        requires { colour_end words ≤ 65535 }
        ensures red { result.red ≡ colour_place rgb words 0 }
        ensures green { result.green ≡ colour_place rgb words 1 }
        ensures blue { result.blue ≡ colour_place rgb words 2 }
    {
        let Some(words) = words else {
            return ColourPlaces {
                red: GREY,
                green: GREY,
                blue: GREY,
            };
        };
        let red = match rgb {
            RgbByte::High => words + 1,
            RgbByte::Low => words,
        };
        ColourPlaces {
            red,
            green: red + 2,
            blue: red + 4,
        }
    }
}

/// The point of the record from a place on.
fn record_point(bytes: &[u8], place: usize, colour: &ColourPlaces) -> Point
    requires coordinates { place + 12 ≤ length bytes.now }
    requires red { place + colour.now.red < length bytes.now }
    requires green { place + colour.now.green < length bytes.now }
    requires blue { place + colour.now.blue < length bytes.now }
    ensures { result ≡ record {
      x = i32_at bytes.now place;
      y = i32_at bytes.now (place + 4);
      z = i32_at bytes.now (place + 8);
      rgb = colour_number
          (slice_index bytes.now (place + colour.now.red))
          (slice_index bytes.now (place + colour.now.green))
          (slice_index bytes.now (place + colour.now.blue));
    } }
{
    Point::new(
        i32_at(bytes, place),
        i32_at(bytes, place + 4),
        i32_at(bytes, place + 8),
        bytes[place + colour.red],
        bytes[place + colour.green],
        bytes[place + colour.blue],
    )
}

/// The points of a table, record by record.
pub fn read_points(
    alloc: Global,
    bytes: &[u8],
    table: &PointTable,
    rgb: RgbByte,
) -> Result<Vec<Point>, AllocError>
    requires { IsTable bytes.now table.now }
    ensures { IfOk result (λ points. points.items ≡ first_points rgb bytes.now table.now.count) }
{
    let colour = ColourPlaces::new(table.rgb, rgb);
    let mut points = Vec::with_capacity(alloc, table.count)?;
    let mut place = table.start;
    for _i in 0..table.count {
        points.push(record_point(bytes, place, &colour))?;
        place += table.length;
    }
    Ok(points)
}

/// The bytes of the scales and offsets.
pub fn read_frame(bytes: &[u8]) -> [u8; 48]
    requires { 179 ≤ length bytes.now }
    ensures { result ≡ frame bytes.now }
{
    let mut kept = [0; 48];
    kept.copy_from_slice(&bytes[FRAME..FRAME + 48]);
    kept
}
