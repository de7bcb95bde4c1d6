//! Counts of who is out, by birth.
ghost use Rattle.std.specs.Prelude.{◌≡◌, ◌+◌, ◌<◌, ◌↔◌, if◌then◌else◌, IsTrue, slice_index, sum};
ghost use Rattle.list_words.specs.Store.{counted_off};

/// Whether anybody of a birth is out.
pub fn is_counted(out: &[u64], birth: u32) -> bool
    ensures { IsTrue result ↔ (0 < slice_index out.now birth) }
{
    let at = birth as usize;
    at < out.len() && 0 < out[at]
}

/// Counts one of a birth off. Where nobody of that birth is out, it answers false and the counts stay.
pub fn count_off(out: &mut [u64], birth: u32) -> bool
    ensures out { out.new ≡ counted_off out.old birth }
    ensures counted { sum out.new + (if result then 1 else 0) ≡ sum out.old }
{
    let at = birth as usize;
    if at < out.len() && 0 < out[at] {
        out[at] -= 1;
        true
    } else {
        false
    }
}
