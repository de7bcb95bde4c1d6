//! Many passes in many threads.
ghost use Rattle.std.specs.Prelude.{◌≡◌, ◌≤◌, IfOk};

use crate::crowd::{planned, take_turns_at_once};
use crate::log::{Log, Row};
use batch_front::{Act, Front};
use std::alloc::{AllocError, Global};
use std::sync::Wait;
use std::test::Fail;
use std::thread::Threads;

/// The log of so many passes at once that each took so many turns.
fn log_of_crowd<R: Threads + Wait + Sync>(
    rt: &R,
    alloc: Global,
    passes: u32,
    turns: u32,
) -> Result<Log, AllocError>
    requires some { 1 ≤ passes }
    requires few { passes ≤ 64 }
    ensures { IfOk result (λ l. l.name ≡ 3) }
{
    let (front, given) = Front::new(alloc, Log::new(alloc, 3), passes)?;
    let back = take_turns_at_once(rt, alloc, &front, given, turns)?;
    Ok(front.close(back))
}

/// Whether the rows of a pass are what the plan has in so many turns, each once and in order.
fn has_planned_rows(rows: &[Row], pass: u32, turns: u32) -> bool {
    let mut turn = 0u32;
    for row in rows {
        if row.pass != pass {
            continue;
        }
        if turn >= turns || !is_planned(row, turn) {
            return false;
        }
        turn = turn.saturating_add(2);
    }
    turn >= turns
}

// Whether the row is what the plan has in this turn.
fn is_planned(row: &Row, turn: u32) -> bool {
    let input = match &row.batch {
        Some(batch) => batch.input() == turn,
        None => row.act == Act::Looked,
    };
    planned(turn) == Some(row.act) && input
}

#[test]
fn each_of_four_threads_has_its_events_once_and_in_order(rt: HostRuntime) -> Result<(), Fail> {
    let log = log_of_crowd(&rt, rt.alloc(), 4, 1000)?;
    assert_eq!(rt; log.rows().len(), 2000);
    for pass in 0..4 {
        assert!(rt; has_planned_rows(log.rows(), pass, 1000), "pass {pass}");
    }
    Ok(())
}

#[test]
fn sixty_four_passes_take_turns_at_once(rt: HostRuntime) -> Result<(), Fail> {
    let log = log_of_crowd(&rt, rt.alloc(), 64, 20)?;
    assert_eq!(rt; log.rows().len(), 640);
    for pass in 0..64 {
        assert!(rt; has_planned_rows(log.rows(), pass, 20), "pass {pass}");
    }
    Ok(())
}
