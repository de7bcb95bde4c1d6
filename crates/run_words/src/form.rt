ghost use Rattle.std.specs.Prelude.{◌≡◌, ◌≤◌, IfSome, Some, None, if◌then◌else◌};
ghost use Rattle.run_words.specs.Forms.{fits, are_numbers, is_coordinate, is_bits, is_cube, is_seed_and_count};
ghost use Rattle.run_words.specs.Numbers.{natural, whole, is_number, pieces};
ghost use Rattle.std.specs.List.{list_all};
ghost use Rattle.run_words.specs.Values.{cube_of};

use crate::number::{is_seed, is_whole, piece, piece_count, whole};
use cube_math::Cube;

/// The form of an option's value.
#[derive(Clone, Copy)]
pub(crate) enum Form {
    /// A whole number from `low` to `high`.
    Number { low: i32, high: i32 },
    /// So many whole numbers from `low` to `high`.
    Numbers { count: usize, low: i32, high: i32 },
    /// The origin and the bits of a cube that fits the space.
    CubePlace,
    /// `high` or `low`.
    HighOrLow,
    /// `yes` or `no`.
    YesOrNo,
    /// A name that is not empty.
    FileName,
    /// A number below 2^64.
    Seed,
    /// A seed, and a number from 1 to `most`.
    SeedAndCount { most: i32 },
}

/// Whether a text is a value of the form.
pub(crate) fn fits(form: Form, text: &str) -> bool
    ensures { result ≡ fits form text.now }
{
    match form {
        Form::Number { low, high } => is_whole(text, low, high),
        Form::Numbers { count, low, high } => are_numbers(text, count, low, high),
        Form::CubePlace => cube(text).is_some(),
        Form::HighOrLow => text == "high" || text == "low",
        Form::YesOrNo => text == "yes" || text == "no",
        Form::FileName => !text.is_empty(),
        Form::Seed => is_seed(text),
        Form::SeedAndCount { most } => is_seed_and_count(text, most),
    }
}

/// The cube of a value x,y,z,bits.
pub(crate) fn cube(text: &str) -> Option<Cube>
    ensures { result ≡ (if is_cube text.now then Some (cube_of text.now) else None) }
{
    if piece_count(text) != 4 {
        return None;
    }
    let x = coordinate(piece(text, 0))?;
    let y = coordinate(piece(text, 1))?;
    let z = coordinate(piece(text, 2))?;
    let bits = bits(piece(text, 3))?;
    Cube::new(x, y, z, bits)
}

/// A coordinate: a number of 32 bits.
fn coordinate(text: &str) -> Option<i32>
    ensures { result ≡ (if is_coordinate text.now then Some (whole text.now) else None) }
{
    whole(text, i32::MIN, i32::MAX)
}

/// The bits of a cube, 7 to 31.
fn bits(text: &str) -> Option<u32>
    ensures value { result ≡ (if is_bits text.now then Some (natural text.now) else None) }
    ensures within { IfSome result (λ bits. (7 ≤ bits) × (bits ≤ 31)) }
{
    let bits = whole(text, 7, 31)?;
    Some(bits as u32)
}

/// Whether a text is so many whole numbers from `low` to `high`.
fn are_numbers(text: &str, count: usize, low: i32, high: i32) -> bool
    ensures { result ≡ are_numbers count low high text.now }
{
    piece_count(text) == count && are_whole(text, low, high)
}

/// Whether all texts between commas are whole numbers from `low` to `high`.
fn are_whole(text: &str, low: i32, high: i32) -> bool
    ensures { result ≡ list_all (λ number. is_number low high number) (pieces text.now) }
{
    text.split(',').all(|number| is_whole(number, low, high))
}

/// Whether a text is a seed and a number from 1 to `most`.
fn is_seed_and_count(text: &str, most: i32) -> bool
    ensures { result ≡ is_seed_and_count most text.now }
{
    piece_count(text) == 2 && is_seed(piece(text, 0)) && is_whole(piece(text, 1), 1, most)
}
