//! Passes that take turns in threads of their own, by a plan that is the same in each.
ghost use Rattle.std.specs.Prelude.{◌≡◌, [], ◌∷◌, IfOk, IfSome, All, vec_len};
ghost use Rattle.record_model.specs.Records.{IsPrefix};
ghost use Rattle.batch_front.specs.Passes.{IsHome};
ghost use Rattle.worked_turns.specs.Plans.{planned, white_point};

use crate::log::Log;
use crate::turn::add_event;
use batch_front::{Act, Front, Pass};
use cube_math::{Batch, Cube, Point};
use std::alloc::{AllocError, Global};
use std::sync::Wait;
use std::thread;
use std::thread::Threads;

/// What the plan has in the turn of this number: an even turn admits a batch, publishes one or looks, and an odd one does nothing.
pub fn planned(turn: u32) -> Option<Act>
    ensures { result ≡ planned turn }
{
    match turn % 6 {
        0 => Some(Act::Admitted),
        2 => Some(Act::Published),
        4 => Some(Act::Looked),
        _ => None,
    }
}

/// A batch of one white point, with the number of a turn as that of its input. None where memory is short.
pub fn batch_of(alloc: Global, turn: u32) -> Option<Batch>
    ensures input { IfSome result (λ b. b.input ≡ turn) }
    ensures points { IfSome result (λ b. b.points ≡ white_point ∷ []) }
{
    let cube = Cube::new(0, 0, 0, 7)?;
    let points = vec![in alloc; Point::new(1, 2, 3, 255, 255, 255)].ok()?;
    Batch::new(turn, points, &cube, 1).ok()
}

/// Takes a turn, does nothing in it, and lets other threads run meanwhile.
fn hold_turn<R: Wait>(rt: &R, front: &Front<Log>, pass: &mut Pass<Log>)
    requires home { IsHome front.now pass.old }
    ensures pass { pass.new ≡ record pass.old { seen = pass.new.seen } }
    ensures seen { IsPrefix pass.old.seen pass.new.seen }
{
    let turn = front.enter(rt, pass);
    thread::yield_now();
    front.leave(pass, turn);
}

/// Takes one turn by the plan, and says whether it did what is planned: not where memory is short.
fn take_turn<R: Wait>(
    rt: &R,
    alloc: Global,
    front: &Front<Log>,
    pass: &mut Pass<Log>,
    turn: u32,
) -> bool
    requires home { IsHome front.now pass.old }
    ensures home { IsHome front.now pass.new }
    ensures number { pass.new.number ≡ pass.old.number }
{
    match planned(turn) {
        None => {
            hold_turn(rt, front, pass);
            true
        }
        Some(Act::Looked) => add_event(rt, front, pass, Act::Looked, None),
        Some(act) => match batch_of(alloc, turn) {
            Some(batch) => add_event(rt, front, pass, act, Some(batch)),
            None => false,
        },
    }
}

/// Takes so many turns by the plan, or fewer where memory is short.
pub fn take_turns<R: Wait>(
    rt: &R,
    alloc: Global,
    front: &Front<Log>,
    mut pass: Pass<Log>,
    turns: u32,
) -> Pass<Log>
    requires { IsHome front.now pass }
    ensures home { IsHome front.now result }
    ensures number { result.number ≡ pass.number }
{
    for turn in 0..turns {
        if !take_turn(rt, alloc, front, &mut pass, turn) {
            break;
        }
    }
    pass
}

/// Has each pass take its turns in a thread of its own, and gives the passes back, in their order.
pub fn take_turns_at_once<R: Threads + Wait + Sync>(
    rt: &R,
    alloc: Global,
    front: &Front<Log>,
    passes: Vec<Pass<Log>>,
    turns: u32,
) -> Result<Vec<Pass<Log>>, AllocError>
    requires { All (IsHome front.now) passes.items }
    ensures home { IfOk result (λ v. All (IsHome front.now) v.items) }
    ensures all { IfOk result (λ v. vec_len v ≡ vec_len passes) }
{
    thread::map_vec(
        rt,
        passes,
        &|pass: Pass<Log>|
            requires { IsHome front.now pass }
            ensures { IsHome front.entry.now result }
        { take_turns(rt, alloc, front, pass, turns) },
    )
}
