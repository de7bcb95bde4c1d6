ghost use Rattle.std.specs.Prelude.{◌≡◌, ◌^◌, ◌&&◌, ◌-◌, IsTrue, Some, None, if◌then◌else◌, nat_lt, option_map, drop, pos, int_le, length};
ghost use Rattle.std.specs.Str.{all_ascii_digits};
ghost use Rattle.run_words.specs.Numbers.{natural, has_minus, is_digits, is_numeral, is_number, is_seed, whole, pieces, piece};

/// The number that one to `most` digits stand for, if it is below 2^64.
fn digits(text: &str, most: usize) -> Option<u64>
    ensures { result ≡ (if is_digits most text.now && nat_lt (natural text.now) (2 ^ 64) then Some (natural text.now) else None) }
{
    if text.len() > most || !are_digits(text) {
        return None;
    }
    text.parse().ok()
}

/// Whether each byte is a digit.
fn are_digits(text: &str) -> bool
    ensures { result ≡ all_ascii_digits text.now }
{
    text.bytes().all(|byte| byte.is_ascii_digit())
}

/// What follows a `-`, if the text begins with one and negative numbers are meant.
fn without_minus(text: &str, negatives: bool) -> Option<&str>
    ensures { option_map (λ rest. rest.now) result ≡ (if has_minus text.now && negatives then Some (drop 1 text.now) else None) }
{
    if negatives {
        text.strip_prefix('-')
    } else {
        None
    }
}

/// The number of one to ten digits, after a `-` only where negative numbers are meant.
fn numeral(text: &str, negatives: bool) -> Option<i128>
    ensures { result ≡ (if is_numeral negatives text.now then Some (whole text.now) else None) }
{
    match without_minus(text, negatives) {
        Some(rest) => Some(-i128::from(digits(rest, 10)?)),
        None => Some(i128::from(digits(text, 10)?)),
    }
}

/// The whole number of a text: one to ten digits, after a `-` only where `low` is negative, from `low` to
/// `high`.
pub(crate) fn whole(text: &str, low: i32, high: i32) -> Option<i32>
    ensures { result ≡ (if is_number low high text.now then Some (whole text.now) else None) }
{
    in_range(numeral(text, low < 0)?, low, high)
}

/// A number, if it is from `low` to `high`.
fn in_range(number: i128, low: i32, high: i32) -> Option<i32>
    ensures { result ≡ (if int_le low number && int_le number high then Some number else None) }
{
    if i128::from(low) <= number && number <= i128::from(high) {
        Some(number as i32)
    } else {
        None
    }
}

/// Whether a text is a whole number from `low` to `high`.
pub(crate) fn is_whole(text: &str, low: i32, high: i32) -> bool
    ensures { result ≡ is_number low high text.now }
{
    whole(text, low, high).is_some()
}

/// The number of a text that is one, without a sign.
pub(crate) fn natural(text: &str) -> u32
    requires { IsTrue (is_number (pos 0) (pos (2 ^ 31 - 1)) text.now) }
    ensures { result ≡ natural text.now }
{
    whole(text, 0, i32::MAX).unwrap() as u32
}

/// The seed of a text: one to twenty digits, below 2^64.
pub(crate) fn seed(text: &str) -> Option<u64>
    ensures { result ≡ (if is_seed text.now then Some (natural text.now) else None) }
{
    digits(text, 20)
}

/// Whether a text is a seed.
pub(crate) fn is_seed(text: &str) -> bool
    ensures { result ≡ is_seed text.now }
{
    seed(text).is_some()
}

/// How many texts the commas part.
pub(crate) fn piece_count(text: &str) -> usize
    ensures { result ≡ length (pieces text.now) }
{
    text.split(',').count()
}

/// The text at a place, from 0, between commas, or no text.
pub(crate) fn piece(text: &str, place: usize) -> &str
    ensures { result.now ≡ piece text.now place }
{
    text.split(',').nth(place).unwrap_or("")
}
