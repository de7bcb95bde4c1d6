ghost use Rattle.std.specs.Prelude.{◌≡◌, ◌≤◌, ◌<◌, ◌==◌, ◌/◌, ◌%◌, ◌^◌, ◌++◌, min, take, length, take_while, true, false, IfSome, IfNone, neg_ℤ, pos};
ghost use Rattle.std.specs.List.{prefix_len, list_all};
ghost use Rattle.std.specs.Char.{is_ascii_digit};
ghost use Rattle.std.specs.Str.Parse.{starts_with_minus, without_leading_sign};
ghost use Rattle.xyz_points.specs.Numbers.{number, number_after, is_numeral, without_point, fraction, numerator, denominator, is_decimal, coordinate, colour};

/// Why a field is no number of its kind.
#[derive(Clone, Copy, Debug, PartialEq, Eq)]
pub enum FieldFault {
    /// It has not the form.
    Malformed,
    /// Its value is out of range.
    OutOfRange,
}

/// Digits are read as a number up to here, which is above all that is in range. So any number of
/// digits is read in 64 bits.
const LIMIT: u64 = 1 << 32;

/// The digits at the front of a text: the number, up to the limit, that they write behind the
/// digits of `before`, and how many they are.
fn digits_after(before: u64, text: &[u8]) -> (u64, usize)
    requires { before ≤ LIMIT }
    ensures count { result.1 ≡ prefix_len is_ascii_digit text.now }
    ensures value { result.0 ≡ min (number_after before (take_while is_ascii_digit text.now)) LIMIT }
{
    let mut value = before;
    for (k, b) in text.iter().enumerate() {
        if !b.is_ascii_digit() {
            return (value, k);
        }
        value = (10 * value + u64::from(*b - b'0')).min(LIMIT);
    }
    (value, text.len())
}

/// Whether digits are all zeros; None where a byte is no digit.
fn all_zeros(text: &[u8]) -> Option<bool>
    ensures none { IfNone result (list_all is_ascii_digit text.now ≡ false) }
    ensures some { IfSome result (λ _. list_all is_ascii_digit text.now ≡ true) }
    ensures zeros { IfSome result (λ zeros. zeros ≡ list_all (λ b. b == 48) text.now) }
{
    let mut zeros = true;
    for b in text {
        if !b.is_ascii_digit() {
            return None;
        }
        zeros &= *b == b'0';
    }
    Some(zeros)
}

/// The sign of a field, true for a minus, and what stands behind it.
fn sign(field: &[u8]) -> (bool, &[u8])
    ensures minus { result.0 ≡ starts_with_minus field.now }
    ensures rest { result.1.now ≡ without_leading_sign field.now }
{
    match field {
        [b'-', rest @ ..] => (true, rest),
        [b'+', rest @ ..] => (false, rest),
        _ => (false, field),
    }
}

/// What stands behind the point of a decimal number that begins with so many digits; None where
/// another byte stands there.
fn fraction_behind(text: &[u8], whole: usize) -> Option<&[u8]>
    requires { whole ≡ prefix_len is_ascii_digit text.now }
    ensures none { IfNone result (is_numeral (without_point text.now) ≡ false) }
    ensures digits { IfSome result (λ f. without_point text.now ≡ take whole text.now ++ f.now) }
    ensures fraction { IfSome result (λ f. fraction text.now ≡ f.now) }
{
    if whole == text.len() {
        Some(&[])
    } else if text[whole] == b'.' {
        Some(&text[whole + 1..])
    } else {
        None
    }
}

/// A number rounded down, up to the limit, and whether it was whole.
#[derive(Clone, Copy)]
struct Rounded {
    floor: u64,
    exact: bool,
}

/// A decimal number without its sign, times `10^decimals`; None where the text is none.
fn magnitude(text: &[u8], decimals: u32) -> Option<Rounded>
    requires { decimals ≤ 9 }
    ensures none { IfNone result (is_numeral (without_point text.now) ≡ false) }
    ensures some { IfSome result (λ _. is_numeral (without_point text.now) ≡ true) }
    ensures floor { IfSome result (λ r. r.floor ≡ min (numerator decimals text.now / denominator text.now) LIMIT) }
    ensures exact { IfSome result (λ r. r.exact ≡ (numerator decimals text.now % denominator text.now == 0)) }
{
    let (value, whole) = digits_after(0, text);
    let fraction = fraction_behind(text, whole)?;
    if whole + fraction.len() == 0 {
        return None;
    }
    let kept = fraction.len().min(decimals as usize);
    let (value, digits) = digits_after(value, &fraction[..kept]);
    if digits < kept {
        return None;
    }
    let exact = all_zeros(&fraction[kept..])?;
    let floor = (value * 10u64.pow(decimals - kept as u32)).min(LIMIT);
    Some(Rounded { floor, exact })
}

/// The number that lies so far below zero.
fn negative(away: u64) -> i32
    requires { away ≤ 2 ^ 31 }
    ensures { result ≡ neg_ℤ (pos away) }
{
    (0 - away as i64) as i32
}

/// A coordinate: a decimal number times `10^decimals`, rounded down.
pub fn coordinate(field: &[u8], decimals: u32) -> Result<i32, FieldFault>
    requires { decimals ≤ 9 }
    ensures { result ≡ coordinate decimals field.now }
{
    let (minus, text) = sign(field);
    let Some(rounded) = magnitude(text, decimals) else {
        return Err(FieldFault::Malformed);
    };
    if minus {
        let away = rounded.floor + u64::from(!rounded.exact);
        if away <= 1 << 31 {
            Ok(negative(away))
        } else {
            Err(FieldFault::OutOfRange)
        }
    } else if rounded.floor < 1 << 31 {
        Ok(rounded.floor as i32)
    } else {
        Err(FieldFault::OutOfRange)
    }
}

/// Whether a field has the form of a coordinate.
pub fn is_decimal(field: &[u8]) -> bool
    ensures { result ≡ is_decimal field.now }
{
    let (_, text) = sign(field);
    magnitude(text, 0).is_some()
}

/// The number that digits write, up to the limit; None where there is no digit or another byte.
fn numeral(text: &[u8]) -> Option<u64>
    ensures none { IfNone result (is_numeral text.now ≡ false) }
    ensures some { IfSome result (λ _. is_numeral text.now ≡ true) }
    ensures value { IfSome result (λ n. n ≡ min (number text.now) LIMIT) }
{
    let (value, digits) = digits_after(0, text);
    if digits < text.len() {
        return None;
    }
    if digits == 0 { None } else { Some(value) }
}

/// A colour byte.
pub fn colour(field: &[u8]) -> Result<u8, FieldFault>
    ensures { result ≡ colour field.now }
{
    match numeral(field) {
        None => Err(FieldFault::Malformed),
        Some(value) if value <= 255 => Ok(value as u8),
        Some(_) => Err(FieldFault::OutOfRange),
    }
}
