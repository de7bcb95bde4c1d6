ghost use Rattle.std.specs.Prelude.{◌≡◌};
ghost use Rattle.las_points.specs.Formats.{version_of, format_of};

use std::marker::Model;

/// A version of the format, 1.2 to 1.4.
#[derive(Clone, Copy)]
pub struct Version {
    pub minor: u8,
    /// The length of the header.
    pub header: u32,
}

impl Model for Version {
    ghost use Rattle.las_points.specs.Formats.{VersionValue};

    ghost Value = { VersionValue };

    ghost view = { λ v. record { minor = v.minor; header = v.header } };

    ghost inverse = { λ v. record { minor = v.minor; header = v.header } };
}

impl Version {
    /// The version of two numbers, where it is one that is read.
    pub fn new(major: u8, minor: u8) -> Option<Version>
        ensures { result ≡ version_of major minor }
    {
        let header = match (major, minor) {
            (1, 2) => 227,
            (1, 3) => 235,
            (1, 4) => 375,
            _ => return None,
        };
        Some(Version { minor, header })
    }
}

/// How a point stands in a record.
#[derive(Clone, Copy)]
pub struct PointFormat {
    pub number: u8,
    /// The least length of a record.
    pub least: u16,
    /// Where in a record the words of red, green and blue begin, where it has them.
    pub rgb: Option<usize>,
}

impl Model for PointFormat {
    ghost use Rattle.las_points.specs.Formats.{FormatValue};

    ghost Value = { FormatValue };

    ghost view = { λ f. record { number = f.number; least = f.least; rgb = f.rgb } };

    ghost inverse = { λ f. record { number = f.number; least = f.least; rgb = f.rgb } };
}

impl PointFormat {
    /// The point format of a number, where it is one that is read.
    pub fn new(number: u8) -> Option<PointFormat>
        ensures { result ≡ format_of number }
    {
        let (least, rgb) = match number {
            0 => (20, None),
            1 => (28, None),
            2 => (26, Some(20)),
            3 => (34, Some(28)),
            6 => (30, None),
            7 => (36, Some(30)),
            8 => (38, Some(30)),
            _ => return None,
        };
        Some(PointFormat { number, least, rgb })
    }
}
