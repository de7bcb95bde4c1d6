ghost use Rattle.std.specs.Prelude.{◌≡◌, ◌≢◌, ℕ, ◌*◌, ◌≤◌, ◌↔◌, List, [], length, slice_index, IsTrue, Contains, AllPairs, All};
ghost use Rattle.std.specs.Vec.{vec_capacity};
ghost use Rattle.list_words.specs.Store.{IsOpen, Keeps, Store, row, chunks_of, one_less};
ghost use Rattle.list_words.specs.declared.leaf_lists.Answer.{Answer};
ghost use Rattle.item_moves.specs.Aimed.{AreAimed};
ghost use Rattle.item_moves.specs.Homes.{AreHomed, IsAlone, OnlyHome, OnlyPlaced};
ghost use Rattle.item_moves.specs.Late.{AreBack, is_fair, is_late};
ghost use Rattle.item_moves.specs.Settled.{AreSettled, AreSwept, IsKept, StandsIn};

use crate::aims::Aims;
use crate::placing::place_once;
use crate::sweeping::sweep_all;
use list_words::{Answer, Filed, Filings, LeafLists};

/// Whether an answer may be one of these lists.
fn is_fair<A: Aims>(aims: &A, answer: &Answer) -> bool
    ensures { result ≡ is_fair (A.leaf aims.now) (A.covers aims.now) (A.guest aims.now) answer.now }
{
    let Some(list) = aims.aim(answer.list, answer.item) else {
        return false;
    };
    match answer.filed {
        Filed::At { .. } => true,
        Filed::Late { .. } => aims.is_guest(list, answer.item),
    }
}

/// Whether these answers may be ones of these lists: each list covers its item, and an item that came late has a slot in the list
/// of its leaf.
pub fn are_fair<A: Aims>(aims: &A, answers: &[Answer]) -> bool
    ensures { IsTrue result ↔ All (λ (a : Answer). IsTrue (is_fair (A.leaf aims.now) (A.covers aims.now) (A.guest aims.now) a)) answers.now }
{
    answers.iter().all(|answer| is_fair(aims, answer))
}

/// Places the item of an answer in the list of its leaf, if it came late.
pub fn place_answer<L: LeafLists, A: Aims>(
    lists: &mut L,
    aims: &A,
    homes: &mut [u32],
    answer: &Answer,
)
    requires homed { AreHomed (L.store lists.old) (L.knows lists.old) (A.guest aims.now) homes.old }
    requires aimed { AreAimed (L.store lists.old) (A.leaf aims.now) (A.covers aims.now) (A.guest aims.now) homes.old [] }
    requires fair { IsTrue (is_fair (A.leaf aims.now) (A.covers aims.now) (A.guest aims.now) answer.now) }
    ensures homed { AreHomed (L.store lists.new) (L.knows lists.new) (A.guest aims.now) homes.new }
    ensures home { OnlyHome (A.leaf aims.now) homes.old homes.new }
    ensures back { IsTrue (is_late answer.now.filed) → slice_index homes.new answer.now.item ≡ A.leaf aims.now answer.now.item }
    ensures placed { OnlyPlaced (L.store lists.old) (L.store lists.new) }
    ensures known { Keeps (L.knows lists.old) (L.knows lists.new) }
    ensures borne { (f : L.Filer) → L.borne_out lists.old f → L.borne_out lists.new f }
{
    let Filed::Late { .. } = answer.filed else {
        return;
    };
    let Some(list) = aims.aim(answer.list, answer.item) else {
        return;
    };
    place_once(lists, aims, homes, list, answer.item);
}

/// Places the items that came late in the lists of their leaves.
pub fn place_late<L: LeafLists, A: Aims>(
    lists: &mut L,
    aims: &A,
    homes: &mut [u32],
    answers: &[Answer],
)
    requires homed { AreHomed (L.store lists.old) (L.knows lists.old) (A.guest aims.now) homes.old }
    requires aimed { AreAimed (L.store lists.old) (A.leaf aims.now) (A.covers aims.now) (A.guest aims.now) homes.old [] }
    requires fair { All (λ (a : Answer). IsTrue (is_fair (A.leaf aims.now) (A.covers aims.now) (A.guest aims.now) a)) answers.now }
    ensures homed { AreHomed (L.store lists.new) (L.knows lists.new) (A.guest aims.now) homes.new }
    ensures home { OnlyHome (A.leaf aims.now) homes.old homes.new }
    ensures back { AreBack (A.leaf aims.now) homes.new answers.now }
    ensures placed { OnlyPlaced (L.store lists.old) (L.store lists.new) }
    ensures known { Keeps (L.knows lists.old) (L.knows lists.new) }
    ensures borne { (f : L.Filer) → L.borne_out lists.old f → L.borne_out lists.new f }
{
    for answer in answers {
        place_answer(lists, aims, homes, answer);
    }
}

/// Sweeps these lists, places what was found and what came late where it belongs, and takes the filer back. Then each item that
/// was kept, and each item of the filer, stands in the list of its leaf.
pub fn bring_home<L: LeafLists, A: Aims>(
    lists: &mut L,
    aims: &A,
    homes: &mut [u32],
    filer: L::Filer,
    splits: &[u32],
    found: &mut Vec<u32>,
)
    requires homed { AreHomed (L.store lists.old) (L.knows lists.old) (A.guest aims.now) homes.old }
    requires apart { AllPairs (λ (a b : ℕ). a ≢ b) splits.now }
    requires takes { (l : ℕ) → Contains splits.now l → IsOpen (L.store lists.old) l }
    requires aimed { AreAimed (L.store lists.old) (A.leaf aims.now) (A.covers aims.now) (A.guest aims.now) homes.old splits.now }
    requires room { (l : ℕ) → Contains splits.now l → 256 * length (chunks_of (row (L.store lists.old) l)) ≤ vec_capacity found.old }
    requires settled { AreSettled (L.store lists.old) (A.leaf aims.now) (A.covers aims.now) homes.old splits.now }
    requires name { (L.Filer.filing filer).name ≡ (L.store lists.old).name }
    requires borne_out { L.borne_out lists.old filer }
    requires fair { All (λ (a : Answer). IsTrue (is_fair (A.leaf aims.now) (A.covers aims.now) (A.guest aims.now) a)) (L.Filer.filing filer).answers }
    ensures homed { AreHomed (L.store lists.new) (L.knows lists.new) (A.guest aims.now) homes.new }
    ensures home { OnlyHome (A.leaf aims.now) homes.old homes.new }
    ensures store { (t : Store) × AreSwept (L.store lists.old) t splits.now × (L.store lists.new ≡ one_less t (L.Filer.filing filer).birth) }
    ensures settled { AreSettled (L.store lists.new) (A.leaf aims.now) (A.covers aims.now) homes.new [] }
    ensures kept { (x : ℕ) → IsKept (L.knows lists.old) (A.leaf aims.now) (A.covers aims.now) splits.now x
        → StandsIn (L.store lists.new) (L.knows lists.new) (A.leaf aims.now x) x }
    ensures filed { (a : Answer) → Contains (L.Filer.filing filer).answers a
        → StandsIn (L.store lists.new) (L.knows lists.new) (A.leaf aims.now a.item) a.item }
    ensures capacity { vec_capacity found.old ≤ vec_capacity found.new }
    ensures known { Keeps (L.knows lists.old) (L.knows lists.new) }
{
    sweep_all(lists, aims, homes, splits, found);
    place_late(lists, aims, homes, filer.answers());
    lists.take_back(filer);
    lists.slots_agree();
}
