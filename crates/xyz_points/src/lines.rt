ghost use Rattle.std.specs.Prelude.{◌≡◌, ◌∷◌, [], ◌<◌, ◌==◌, length, count_by, position, IfSome, IfNone};
ghost use Rattle.xyz_points.specs.Lines.{lines_of, without_return};

/// Where the first line feed stands.
fn feed_in(bytes: &[u8]) -> Option<usize>
    ensures { result ≡ position (λ b. b == 10) bytes.now }
{
    bytes.iter().position(|b| *b == b'\n')
}

/// A line without the carriage return at its end.
fn without_return(line: &[u8]) -> &[u8]
    ensures { result.now ≡ without_return line.now }
{
    match line {
        [rest @ .., b'\r'] => rest,
        _ => line,
    }
}

/// The first line of a text, and what stands behind its line feed.
pub fn next_line(bytes: &[u8]) -> Option<(&[u8], &[u8])>
    ensures none { IfNone result (lines_of bytes.now ≡ []) }
    ensures some { IfSome result (λ t. lines_of bytes.now ≡ t.0.now ∷ lines_of t.1.now) }
    ensures shorter { IfSome result (λ t. length t.1.now < length bytes.now) }
{
    if bytes.is_empty() {
        return None;
    }
    match feed_in(bytes) {
        None => Some((without_return(bytes), &[])),
        Some(k) => Some((without_return(&bytes[..k]), &bytes[k + 1..])),
    }
}

/// How many line feeds a text has.
pub fn count_feeds(bytes: &[u8]) -> usize
    ensures { result ≡ count_by (λ b. b == 10) bytes.now }
{
    let mut feeds = 0;
    for b in bytes {
        feeds += usize::from(*b == b'\n');
    }
    feeds
}
