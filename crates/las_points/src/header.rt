ghost use Rattle.std.specs.Prelude.{◌≡◌, ◌≤◌, drop, length, false, None, Some, OnOk, IfErr, IfOk};
ghost use Rattle.las_points.specs.Fields.{major, minor, point_count};
ghost use Rattle.las_points.specs.Formats.{version_of};
ghost use Rattle.las_points.specs.Refusals.{first_holding, first_refusal, has_other_signature, refusals};
ghost use Rattle.las_points.specs.Tables.{IsTable};

use crate::fields::{u16_at, u32_at, u64_at};
use crate::formats::{PointFormat, Version};
use crate::reader::LasFault;

/// The length of the shortest header, which has the version and all fields but the one of the
/// number of points that came with version 1.4.
const SHORTEST_HEADER: usize = 227;

// Where the fields of the header stand.
const MAJOR: usize = 24;

const MINOR: usize = 25;

const START: usize = 96;

const FORMAT: usize = 104;

const LENGTH: usize = 105;

const COUNT: usize = 107;

const LONG_COUNT: usize = 247;

/// Where the records of the points stand in a file, and the words of red, green and blue in each.
#[derive(Clone, Copy)]
pub struct PointTable {
    pub start: usize,
    pub length: usize,
    pub count: usize,
    pub rgb: Option<usize>,
}

/// Whether a byte of the signature is there and is another one.
fn has_other_signature(bytes: &[u8]) -> bool
    ensures { result ≡ has_other_signature bytes.now }
{
    bytes
        .iter()
        .zip(b"LASF")
        .any(|(byte, wanted)| byte != wanted)
}

/// The version of a file whose header is whole.
fn read_version(bytes: &[u8]) -> Result<Version, LasFault>
    ensures version { IfOk result (λ v. version_of (major bytes.now) (minor bytes.now) ≡ Some v) }
    ensures whole { IfOk result (λ v. v.header ≤ length bytes.now) }
    ensures fault { IfErr result (λ fault. first_refusal bytes.now ≡ Some fault) }
    ensures later { OnOk result (first_refusal bytes.now ≡ first_holding (drop 4 (refusals bytes.now))) }
{
    if has_other_signature(bytes) {
        return Err(LasFault::NotLas);
    }
    let have = bytes.len() as u64;
    if bytes.len() < SHORTEST_HEADER {
        return Err(LasFault::HeaderShort { have });
    }
    let (major, minor) = (bytes[MAJOR], bytes[MINOR]);
    let Some(version) = Version::new(major, minor) else {
        return Err(LasFault::Version { major, minor });
    };
    if have < u64::from(version.header) {
        return Err(LasFault::HeaderShort { have });
    }
    Ok(version)
}

/// The number of points that a file says it has.
fn read_count(bytes: &[u8], version: Version) -> u64
    requires known { version_of (major bytes.now) (minor bytes.now) ≡ Some version }
    requires whole { version.header ≤ length bytes.now }
    ensures { result ≡ point_count bytes.now }
{
    if version.minor == 4 {
        u64_at(bytes, LONG_COUNT)
    } else {
        u64::from(u32_at(bytes, COUNT))
    }
}

/// The table of the points of a file, unless it is refused.
pub fn read_header(bytes: &[u8]) -> Result<PointTable, LasFault>
    ensures accepted { OnOk result (first_refusal bytes.now ≡ None) }
    ensures table { IfOk result (IsTable bytes.now) }
    ensures fault { IfErr result (λ fault. first_refusal bytes.now ≡ Some fault) }
{
    let version = read_version(bytes)?;
    let byte = bytes[FORMAT];
    if byte >= 128 {
        return Err(LasFault::Compressed { byte });
    }
    let Some(format) = PointFormat::new(byte) else {
        return Err(LasFault::Format { byte });
    };
    let length = u16_at(bytes, LENGTH);
    if length < format.least {
        return Err(LasFault::Length {
            have: length,
            need: format.least,
        });
    }
    let offset = u32_at(bytes, START);
    if offset < version.header {
        return Err(LasFault::Start {
            offset,
            header: version.header,
        });
    }
    let count = read_count(bytes, version);
    let have = bytes.len() as u64;
    let need = u128::from(offset) + u128::from(count) * u128::from(length);
    if u128::from(have) < need {
        return Err(LasFault::PointsShort { have, need });
    }
    Ok(PointTable {
        start: offset as usize,
        length: usize::from(length),
        count: count as usize,
        rgb: format.rgb,
    })
}
