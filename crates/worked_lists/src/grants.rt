//! Filers with leave to claim as many places in each list.
ghost use Rattle.std.specs.Prelude.{◌≡◌, ℕ, ◌+◌, [], IfOk, OnOk};
ghost use Rattle.chunk_lists.specs.Knives.{lists_of};
ghost use Rattle.worked_lists.specs.Layouts.{HasRoomFor, IsLaidOut, even_grants};

use chunk_lists::{Filer, Knife};
use list_words::{Grant, LeafLists};
use std::alloc::{AllocError, Global};

/// Leave to claim so many places in each list.
pub fn even_grants(alloc: Global, lists: u32, places: u32) -> Result<Vec<Grant>, AllocError>
    ensures { IfOk result (λ grants. grants.items ≡ even_grants lists places) }
{
    let mut grants = Vec::new(alloc);
    for list in 0..lists {
        grants.push(Grant { list, n: places })?;
    }
    Ok(grants)
}

/// Makes a filer with leave to claim `places` places in each of the lists. It refuses only for want of memory.
pub fn admit_even(
    knife: &mut Knife,
    grants: &[Grant],
    lists: u32,
    places: u32,
) -> Result<Filer, AllocError>
    requires grants { grants.now ≡ even_grants lists places }
    requires laid_out { (chunks granted seats : ℕ) × IsLaidOut (lists_of knife.old) lists chunks granted seats × HasRoomFor lists chunks (granted + places) (seats + 1) }
    ensures laid_out { OnOk result ((chunks granted seats : ℕ) → IsLaidOut (lists_of knife.old) lists chunks granted seats → IsLaidOut (lists_of knife.new) lists chunks (granted + places) (seats + 1)) }
    ensures name { OnOk result ((lists_of knife.new).name ≡ (lists_of knife.old).name) }
    ensures filer { IfOk result (λ f. f.filing ≡ record { name = (lists_of knife.old).name; birth = 0; left = even_grants lists places; answers = [] }) }
{
    knife.reserve_filer(lists, lists * places)?;
    Ok(knife.admit(grants))
}
