ghost use Rattle.std.specs.Prelude.{◌≡◌, ◌≤◌, if◌then◌else◌, Some, None};
ghost use Rattle.std.specs.Str.Parse.{digits_value};
ghost use Rattle.sim_script.specs.Turns.{is_numeral};

/// The number of a text of one to `most` decimal digits.
pub fn numeral(text: &[u8], most: usize) -> Option<u32>
    requires { most ≤ 9 }
    ensures { result ≡ (if is_numeral most text.now then Some (digits_value 10 text.now) else None) }
{
    if text.is_empty() || text.len() > most {
        return None;
    }
    let mut value = 0;
    for byte in text {
        if !byte.is_ascii_digit() {
            return None;
        }
        value = 10 * value + u32::from(*byte - b'0');
    }
    Some(value)
}
