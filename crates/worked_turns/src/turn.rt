//! Turns in which one event is added, or none.
ghost use Rattle.std.specs.Prelude.{◌≡◌, ◌↔◌, [], ◌∷◌, ◌++◌, length, IsNone, IsTrue, None, if◌then◌else◌};
ghost use Rattle.record_model.specs.Records.{IsPrefix, event_of};
ghost use Rattle.batch_front.specs.Passes.{IsHome, IsPenOf, added};
ghost use Rattle.record_model.specs.declared.event.Act.TheVariants.{Looked};
ghost use Rattle.record_model.specs.declared.event.Event.TheVariants.{Look, Publication};

use crate::log::Log;
use batch_front::{Act, Front, Pass, Turn};
use cube_math::Batch;
use std::snapshot::Snapshot;
use std::sync::Wait;

/// Adds an event and its row in a turn, and says whether it did: not where memory is short, or where the log has
/// 2 ^ 32 - 1 publications.
pub fn add_row(
    front: &Front<Log>,
    pass: &mut Pass<Log>,
    turn: &mut Turn<Log>,
    act: Act,
    batch: Option<Batch>,
) -> bool
    requires front { pass.old.front ≡ front.now }
    requires pen { IsPenOf pass.old turn.old.pen }
    requires unused { IsTrue turn.old.pen.unused }
    requires value { turn.old.value.events ≡ pass.old.seen }
    requires batch { IsNone batch ↔ (act ≡ Looked) }
    ensures pass { pass.new ≡ (if result then added pass.old (event_of act batch) else pass.old) }
    ensures value { turn.new.value.events ≡ pass.new.seen }
    ensures name { turn.new.value.name ≡ turn.old.value.name }
    ensures pen { turn.new.pen ≡ record turn.old.pen { unused = turn.new.pen.unused } }
{
    if !turn.value.reserve() {
        return false;
    }
    front.append(pass, turn, act, batch.as_ref());
    turn.value.add(act, batch, pass.number());
    true
}

/// Publishes a batch in a turn, the row first: the log has taken the batch by the time at which the event is added. Says
/// whether it did, as `add_row`.
pub fn publish_row(
    front: &Front<Log>,
    pass: &mut Pass<Log>,
    turn: &mut Turn<Log>,
    batch: Batch,
) -> bool
    requires front { pass.old.front ≡ front.now }
    requires pen { IsPenOf pass.old turn.old.pen }
    requires unused { IsTrue turn.old.pen.unused }
    requires value { turn.old.value.events ≡ pass.old.seen }
    ensures pass { pass.new ≡ (if result then added pass.old (Publication batch.input batch.points) else pass.old) }
    ensures value { turn.new.value.events ≡ pass.new.seen }
    ensures name { turn.new.value.name ≡ turn.old.value.name }
    ensures pen { turn.new.pen ≡ record turn.old.pen { unused = turn.new.pen.unused } }
{
    if !turn.value.reserve() {
        return false;
    }
    let told = Snapshot::of(&batch);
    turn.value.add(Act::Published, Some(batch), pass.number());
    front.append_told(pass, turn, Act::Published, Some(told));
    true
}

/// Takes a turn and adds one event in it, and says whether it did, as `add_row`.
pub fn add_event<R: Wait>(
    rt: &R,
    front: &Front<Log>,
    pass: &mut Pass<Log>,
    act: Act,
    batch: Option<Batch>,
) -> bool
    requires front { pass.old.front ≡ front.now }
    requires away { pass.old.turn ≡ None }
    requires batch { IsNone batch ↔ (act ≡ Looked) }
    ensures pass { pass.new ≡ record pass.old { seen = pass.new.seen; mine = pass.new.mine } }
    ensures seen { IsPrefix pass.old.seen pass.new.seen }
    ensures mine { pass.new.mine ≡ (if result then pass.old.mine ++ event_of act batch ∷ [] else pass.old.mine) }
{
    let mut turn = front.enter(rt, pass);
    let did = add_row(front, pass, &mut turn, act, batch);
    front.leave(pass, turn);
    did
}

/// Takes a turn, adds nothing in it, and gives the number of rows that stand there.
pub fn count_rows<R: Wait>(rt: &R, front: &Front<Log>, pass: &mut Pass<Log>) -> usize
    requires front { pass.old.front ≡ front.now }
    requires away { pass.old.turn ≡ None }
    ensures pass { pass.new ≡ record pass.old { seen = pass.new.seen } }
    ensures seen { IsPrefix pass.old.seen pass.new.seen }
    ensures count { result ≡ length pass.new.seen }
{
    let turn = front.enter(rt, pass);
    let count = turn.value.rows().len();
    front.leave(pass, turn);
    count
}

/// Takes a turn with the first pass and looks in it, and tells the second pass of all that the first has seen then. Says
/// whether it looked, as `add_row`.
pub fn look_and_tell<R: Wait>(
    rt: &R,
    front: &Front<Log>,
    first: &mut Pass<Log>,
    second: &mut Pass<Log>,
) -> bool
    requires first { IsHome front.now first.old }
    requires second { IsHome front.now second.old }
    ensures first { first.new ≡ record first.old { seen = first.new.seen; mine = first.new.mine } }
    ensures mine { first.new.mine ≡ (if result then first.old.mine ++ Look ∷ [] else first.old.mine) }
    ensures second { second.new ≡ record second.old { seen = second.new.seen } }
    ensures told { IsPrefix first.new.seen second.new.seen }
    ensures seen { IsPrefix second.old.seen second.new.seen }
{
    let mut turn = front.enter(rt, first);
    let looked = add_row(front, first, &mut turn, Act::Looked, None);
    front.leave(first, turn);
    let news = front.tell(first);
    front.hear(second, news);
    looked
}
