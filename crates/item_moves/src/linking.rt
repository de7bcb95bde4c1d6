ghost use Rattle.std.specs.Prelude.{◌≡◌, ◌≢◌, ℕ, ◌+◌, ◌*◌, ◌<◌, ◌≤◌, Bool, List, [], length, slice_index, AllPairs, Contains};
ghost use Rattle.list_machine.specs.Grants.{granted_in_all};
ghost use Rattle.list_machine.specs.declared.views.Grant.{Grant};
ghost use Rattle.list_words.specs.Store.{IsOpen, Keeps, Store, admitted, birth_now, row, seats_out};
ghost use Rattle.item_moves.specs.Homes.{AreHomed};
ghost use Rattle.item_moves.specs.Links.{AreLinked, lacking, lacking_in, lacking_in_all, one_grown};
ghost use Rattle.item_moves.specs.Settled.{AreSettled};

use list_words::{Grant, LeafLists};

/// The items that have room in a chunk.
const SLOTS: u64 = 256;

/// Puts so many free chunks at the end of a list's claimed chain.
pub fn link_chunks<L: LeafLists>(lists: &mut L, list: u32, n: u32)
    requires takes { IsOpen (L.store lists.old) list }
    requires room { n ≤ (row (L.store lists.old) list).claimed_room }
    requires free { n ≤ (L.store lists.old).free }
    ensures linked { AreLinked (L.store lists.old) (L.store lists.new) (one_grown list n) n }
    ensures known { Keeps (L.knows lists.old) (L.knows lists.new) }
    ensures borne { (f : L.Filer) → L.borne_out lists.old f → L.borne_out lists.new f }
{
    for _chunk in 0..n {
        lists.extend_claimed(list);
    }
}

/// Links the chunk or chunks that the list of a grant lacks for `granted` slots and those of the grant.
fn link_for_grant<L: LeafLists>(lists: &mut L, granted: u32, grant: &Grant)
    requires takes { IsOpen (L.store lists.old) grant.now.list }
    requires granted { granted ≡ (row (L.store lists.old) grant.now.list).granted }
    requires room { lacking (L.store lists.old) grant.now ≤ (row (L.store lists.old) grant.now.list).claimed_room }
    requires free { lacking (L.store lists.old) grant.now ≤ (L.store lists.old).free }
    ensures linked { AreLinked (L.store lists.old) (L.store lists.new) (one_grown grant.now.list (lacking (L.store lists.old) grant.now))
        (lacking (L.store lists.old) grant.now) }
    ensures known { Keeps (L.knows lists.old) (L.knows lists.new) }
    ensures borne { (f : L.Filer) → L.borne_out lists.old f → L.borne_out lists.new f }
{
    let wanted = (u64::from(granted) + u64::from(grant.n)).div_ceil(SLOTS);
    let linked = lists.claimed(grant.list).len() as u64;
    link_chunks(lists, grant.list, wanted.saturating_sub(linked) as u32);
}

/// Links the chunks that the lists of these grants lack, `granted` having for each list the slots that were granted so far.
/// Then each list has a chunk for each slot of its grant.
pub fn link_for_grants<L: LeafLists>(lists: &mut L, granted: &[u32], grants: &[Grant])
    requires apart { AllPairs (λ (a b : Grant). a.list ≢ b.list) grants.now }
    requires takes { (a : Grant) → Contains grants.now a → IsOpen (L.store lists.old) a.list }
    requires granted { (a : Grant) → Contains grants.now a → (a.list < length granted.now)
        × (slice_index granted.now a.list ≡ (row (L.store lists.old) a.list).granted) }
    requires room { (a : Grant) → Contains grants.now a → lacking (L.store lists.old) a ≤ (row (L.store lists.old) a.list).claimed_room }
    requires free { lacking_in_all (L.store lists.old) grants.now ≤ (L.store lists.old).free }
    ensures linked { AreLinked (L.store lists.old) (L.store lists.new) (lacking_in (L.store lists.old) grants.now)
        (lacking_in_all (L.store lists.old) grants.now) }
    ensures slots { (a : Grant) → Contains grants.now a
        → (row (L.store lists.new) a.list).granted + a.n ≤ 256 * length (row (L.store lists.new) a.list).claimed }
    ensures homed { (guest : ℕ → ℕ → Bool) (homes : List ℕ) → AreHomed (L.store lists.old) (L.knows lists.old) guest homes
        → AreHomed (L.store lists.new) (L.knows lists.new) guest homes }
    ensures settled { (leaf : ℕ → ℕ) (covers : ℕ → ℕ → Bool) (homes left : List ℕ) → AreSettled (L.store lists.old) leaf covers homes left
        → AreSettled (L.store lists.new) leaf covers homes left }
    ensures known { Keeps (L.knows lists.old) (L.knows lists.new) }
    ensures borne { (f : L.Filer) → L.borne_out lists.old f → L.borne_out lists.new f }
{
    for grant in grants {
        link_for_grant(lists, granted[grant.list as usize], grant);
    }
}

/// Links the chunks that the lists of these grants lack, and makes the filer of the grants.
pub fn admit_slots<L: LeafLists>(lists: &mut L, granted: &[u32], grants: &[Grant]) -> L::Filer
    requires apart { AllPairs (λ (a b : Grant). a.list ≢ b.list) grants.now }
    requires takes { (a : Grant) → Contains grants.now a → IsOpen (L.store lists.old) a.list }
    requires granted { (a : Grant) → Contains grants.now a → (a.list < length granted.now)
        × (slice_index granted.now a.list ≡ (row (L.store lists.old) a.list).granted) }
    requires room { (a : Grant) → Contains grants.now a → lacking (L.store lists.old) a ≤ (row (L.store lists.old) a.list).claimed_room }
    requires free { lacking_in_all (L.store lists.old) grants.now ≤ (L.store lists.old).free }
    requires filer { (length grants.now ≤ (L.store lists.old).grants_room) × (granted_in_all grants.now ≤ (L.store lists.old).items_room) }
    requires few { (L.store lists.old).given + granted_in_all grants.now < 2147483648 }
    requires seats { seats_out (L.store lists.old) < 18446744073709551615 }
    ensures store { (t : Store) × AreLinked (L.store lists.old) t (lacking_in (L.store lists.old) grants.now) (lacking_in_all (L.store lists.old) grants.now)
        × (L.store lists.new ≡ admitted t grants.now) }
    ensures filer { L.Filer.filing result ≡ record { name = (L.store lists.old).name; birth = birth_now (L.store lists.old); left = grants.now; answers = [] } }
    ensures vouched { L.borne_out lists.new result }
    ensures homed { (guest : ℕ → ℕ → Bool) (homes : List ℕ) → AreHomed (L.store lists.old) (L.knows lists.old) guest homes
        → AreHomed (L.store lists.new) (L.knows lists.new) guest homes }
    ensures settled { (leaf : ℕ → ℕ) (covers : ℕ → ℕ → Bool) (homes left : List ℕ) → AreSettled (L.store lists.old) leaf covers homes left
        → AreSettled (L.store lists.new) leaf covers homes left }
    ensures known { Keeps (L.knows lists.old) (L.knows lists.new) }
    ensures borne { (f : L.Filer) → L.borne_out lists.old f → L.borne_out lists.new f }
{
    link_for_grants(lists, granted, grants);
    lists.admit(grants)
}
