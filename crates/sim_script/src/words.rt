ghost use Rattle.std.specs.Prelude.{◌≡◌, ◌≤◌, ◌<◌, ◌+◌, ℕ, [], ◌∷◌, not, length, position, IfNone, IfSome};
ghost use Rattle.sim_script.specs.Words.{is_blank, words_from};

fn is_blank(byte: u8) -> bool
    ensures { result ≡ is_blank byte }
{
    matches!(byte, b' ' | b'\t' | b'\r' | b'\n')
}

/// Where the first word of a text begins.
fn word_in(text: &[u8]) -> Option<usize>
    ensures { result ≡ position (λ byte. not (is_blank byte)) text.now }
{
    text.iter().position(|byte| !is_blank(*byte))
}

/// Where the first blank of a text stands.
fn blank_in(text: &[u8]) -> Option<usize>
    ensures { result ≡ position is_blank text.now }
{
    text.iter().position(|byte| is_blank(*byte))
}

/// The first word of a text: how many blanks stand before it, its bytes, and what stands behind the blank that ends it.
pub fn first_word(text: &[u8]) -> Option<(usize, &[u8], &[u8])>
    ensures none { IfNone result ((at : ℕ) → words_from at text.now ≡ []) }
    ensures some { IfSome result (λ w. (at : ℕ) → words_from at text.now
        ≡ record { at = at + w.0; text = w.1.now } ∷ words_from (at + w.0 + length w.1.now + 1) w.2.now) }
    ensures within { IfSome result (λ w. w.0 + length w.1.now ≤ length text.now) }
    ensures behind { IfSome result (λ w. 0 < length w.2.now → w.0 + length w.1.now + 1 + length w.2.now ≤ length text.now) }
    ensures shorter { IfSome result (λ w. length w.2.now < length text.now) }
{
    let blanks = word_in(text)?;
    let rest = &text[blanks..];
    match blank_in(rest) {
        None => Some((blanks, rest, &[])),
        Some(k) => Some((blanks, &rest[..k], &rest[k + 1..])),
    }
}
