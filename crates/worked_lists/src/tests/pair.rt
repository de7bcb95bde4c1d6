//! Two filers in two threads, with a place each in one chunk.
use super::hiring::hired;
use crate::{Crew, file_at_once, note_standing};
use list_words::{Answer, Filed};
use std::test::Fail;

/// The items 7 and 8.
const PAIR: Crew = Crew {
    lists: 1,
    places: 1,
    workers: 2,
    first: 7,
    share: 1,
    seed: 0,
};

/// The slot of the first answer, if that is that this item stands in the chunk 0.
fn slot_of(answers: &[Answer], wanted: u32) -> Option<u32> {
    let Answer { item, filed, .. } = answers.first().copied()?;
    match filed {
        Filed::At { chunk: 0, slot } if item == wanted => Some(slot),
        _ => None,
    }
}

#[test]
fn two_filers_at_once_get_a_slot_each_and_a_reader_finds_both(rt: HostRuntime) -> Result<(), Fail> {
    let (lists, mut owner, workers) = hired(rt.alloc(), PAIR, 1, 9)?;
    let workers = file_at_once(&rt, &lists, workers)?;
    let first = workers
        .first()
        .and_then(|worker| slot_of(worker.answers(), 7));
    let second = workers
        .get(1)
        .and_then(|worker| slot_of(worker.answers(), 8));
    let in_order = first == Some(0) && second == Some(1);
    let turned = first == Some(1) && second == Some(0);
    assert!(rt; in_order || turned, "7 at {first:?}, 8 at {second:?}");
    note_standing(&mut owner, &lists, 0, 1);
    assert_eq!(rt; owner.homes.lists.get(7), Some(&Some(0)));
    assert_eq!(rt; owner.homes.lists.get(8), Some(&Some(0)));
    assert_eq!(rt; owner.homes.count(), 2);
    Ok(())
}
