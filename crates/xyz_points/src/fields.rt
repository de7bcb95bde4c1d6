ghost use Rattle.std.specs.Prelude.{◌≡◌, ◌∷◌, [], ◌<◌, ◌≤◌, not, length, position, IfSome, IfNone};
ghost use Rattle.xyz_points.specs.Lines.{is_separator, fields_of, is_comment};

fn is_separator(b: u8) -> bool
    ensures { result ≡ is_separator b }
{
    b == b' ' || b == b'\t' || b == b','
}

/// Where the first field of a line begins.
fn field_in(line: &[u8]) -> Option<usize>
    ensures { result ≡ position (λ b. not (is_separator b)) line.now }
{
    line.iter().position(|b| !is_separator(*b))
}

/// Where the first separator of a line stands.
fn separator_in(line: &[u8]) -> Option<usize>
    ensures { result ≡ position is_separator line.now }
{
    line.iter().position(|b| is_separator(*b))
}

/// The first field of a line, and what stands behind it.
pub fn next_field(line: &[u8]) -> Option<(&[u8], &[u8])>
    ensures none { IfNone result (fields_of line.now ≡ []) }
    ensures some { IfSome result (λ t. fields_of line.now ≡ t.0.now ∷ fields_of t.1.now) }
    ensures shorter { IfSome result (λ t. length t.1.now < length line.now) }
{
    let line = &line[field_in(line)?..];
    match separator_in(line) {
        None => Some((line, &[])),
        Some(k) => Some((&line[..k], &line[k + 1..])),
    }
}

/// Whether a field begins a comment.
pub fn is_comment(field: &[u8]) -> bool
    ensures { result ≡ is_comment field.now }
{
    field.starts_with(b"#") || field.starts_with(b"//")
}

/// How many fields a line has.
pub fn count_fields(line: &[u8]) -> u64
    ensures count { result ≡ length (fields_of line.now) }
    ensures few { result ≤ length line.now }
{
    let mut count = 0;
    let mut rest = line;
    while let Some((_, behind)) = next_field(rest) {
        count += 1;
        rest = behind;
    }
    count
}
