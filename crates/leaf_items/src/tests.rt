ghost use Rattle.std.specs.Prelude.{◌<◌, All, IsTrue};

use crate::LeafItems;
use dice::Dice;
use std::alloc::{AllocError, Global};
use std::test::Fail;

/// Whether each of some numbers is below a bound.
fn are_below(numbers: &[u32], bound: u32) -> bool
    ensures { IsTrue result → All (λ n. n < bound) numbers.now }
{
    numbers.iter().all(|n| *n < bound)
}

/// Takes memory to admit items in these lists.
fn reserve(items: &mut LeafItems, lists: &[u32]) -> Result<(), Fail> {
    if !are_below(lists, items.lists()) {
        return Err("no such list".into());
    }
    items.reserve(lists)?;
    Ok(())
}

/// Admits items in these lists.
fn admit(items: &mut LeafItems, lists: &[u32]) -> Result<(), Fail> {
    reserve(items, lists)?;
    items.admit_ready();
    Ok(())
}

/// Opens so many lists for the items of a list, which go where they aim.
fn split(
    alloc: Global,
    items: &mut LeafItems,
    list: u32,
    aims: &[u32],
    count: u32,
) -> Result<(), Fail> {
    items.reserve_lists(count)?;
    if list >= items.lists() || items.items(list).len() != aims.len() {
        return Err("not as many aims as items".into());
    }
    if !are_below(aims, count) {
        return Err("no such aim".into());
    }
    let parts = items.deal(alloc, list, aims, count)?;
    items.open_lists(parts);
    Ok(())
}

/// The items of a list.
fn items_of(items: &LeafItems, list: u32) -> Result<&[u32], Fail> {
    if list >= items.lists() {
        return Err("no such list".into());
    }
    Ok(items.items(list))
}

/// How many items a list owns, and how many were granted to it.
fn counts_of(items: &LeafItems, list: u32) -> Option<(u32, u32)> {
    if list < items.lists() {
        Some((items.owned(list), items.granted(list)))
    } else {
        None
    }
}

/// How many items of a list are below a bound.
fn before(items: &LeafItems, list: u32, bound: u32) -> Option<u32> {
    if list < items.lists() {
        Some(items.before(list, bound))
    } else {
        None
    }
}

#[test]
fn items_stand_in_the_lists_in_which_they_were_admitted(rt: HostRuntime) -> Result<(), Fail> {
    let mut items = LeafItems::new(rt.alloc())?;
    assert_eq!(rt; (items.admitted(), items.lists()), (0, 1));
    admit(&mut items, &[0, 0, 0])?;
    assert_eq!(rt; (items.admitted(), items.lists()), (3, 1));
    assert_eq!(rt; items_of(&items, 0)?, [0, 1, 2].as_slice());
    assert_eq!(rt; counts_of(&items, 0), Some((0, 3)));
    assert_eq!(rt; before(&items, 0, 2), Some(2));
    assert_eq!(rt; before(&items, 0, 0), Some(0));
    assert_eq!(rt; before(&items, 0, 9), Some(3));
    Ok(())
}

#[test]
fn a_split_list_gives_its_items_to_new_ones(rt: HostRuntime) -> Result<(), Fail> {
    let mut items = LeafItems::new(rt.alloc())?;
    admit(&mut items, &[0, 0, 0])?;
    split(rt.alloc(), &mut items, 0, &[1, 0, 1], 2)?;
    assert_eq!(rt; (items.admitted(), items.lists()), (3, 3));
    let none: &[u32] = &[];
    assert_eq!(rt; items_of(&items, 0)?, none);
    assert_eq!(rt; items_of(&items, 1)?, [1].as_slice());
    assert_eq!(rt; items_of(&items, 2)?, [0, 2].as_slice());
    admit(&mut items, &[2, 1, 2])?;
    assert_eq!(rt; items_of(&items, 1)?, [1, 4].as_slice());
    assert_eq!(rt; items_of(&items, 2)?, [0, 2, 3, 5].as_slice());
    assert_eq!(rt; counts_of(&items, 0), Some((0, 0)));
    assert_eq!(rt; counts_of(&items, 1), Some((1, 1)));
    assert_eq!(rt; counts_of(&items, 2), Some((2, 2)));
    assert_eq!(rt; before(&items, 2, 3), Some(2));
    Ok(())
}

#[test]
fn a_list_tells_when_it_was_opened(rt: HostRuntime) -> Result<(), Fail> {
    let mut items = LeafItems::new(rt.alloc())?;
    admit(&mut items, &[0, 0])?;
    split(rt.alloc(), &mut items, 0, &[0, 0], 1)?;
    if items.lists() != 2 || items.admitted() != 2 {
        return Err("not two lists and two items".into());
    }
    assert_eq!(rt; (items.born(0), items.born(1)), (0, 2));
    assert_eq!(rt; (items.leaf(0), items.leaf(1)), (1, 1));
    Ok(())
}

#[test]
fn what_is_ready_is_replaced_and_let_go(rt: HostRuntime) -> Result<(), Fail> {
    let mut items = LeafItems::new(rt.alloc())?;
    reserve(&mut items, &[0, 0, 0])?;
    reserve(&mut items, &[0])?;
    items.admit_ready();
    assert_eq!(rt; items.admitted(), 1);
    items.admit_ready();
    assert_eq!(rt; items.admitted(), 1);
    reserve(&mut items, &[0, 0])?;
    items.release();
    items.admit_ready();
    assert_eq!(rt; items.admitted(), 1);
    reserve(&mut items, &[0, 0])?;
    split(rt.alloc(), &mut items, 0, &[0], 1)?;
    items.admit_ready();
    assert_eq!(rt; items.admitted(), 1);
    Ok(())
}

/// So many numbers below a bound.
fn drawn(alloc: Global, dice: &mut Dice, count: usize, bound: u32) -> Result<Vec<u32>, AllocError> {
    let mut numbers = Vec::new(alloc);
    for _number in 0..count {
        numbers.push(dice.below(bound as usize) as u32)?;
    }
    Ok(numbers)
}

/// The items of a list, found by a look at the list of each.
fn slow_items(alloc: Global, leaf: &[u32], list: u32) -> Result<Vec<u32>, AllocError> {
    let mut items = Vec::new(alloc);
    for (item, place) in leaf.iter().enumerate() {
        if *place == list && item < 1_000_000 {
            items.push(item as u32)?;
        }
    }
    Ok(items)
}

/// Notes in `leaf` that items of a list went where they aim, from the first list on.
fn slow_split(leaf: &mut [u32], list: u32, aims: &[u32], first: u32) {
    let mut next = 0usize;
    for place in leaf.iter_mut() {
        if *place == list && next < aims.len() {
            *place = first.saturating_add(aims[next]);
            next += 1;
        }
    }
}

#[test]
fn lists_have_the_items_that_a_look_at_each_finds(rt: HostRuntime) -> Result<(), Fail> {
    let mut items = LeafItems::new(rt.alloc())?;
    let mut leaf = Vec::new(rt.alloc());
    let mut dice = Dice::new(2026);
    for _turn in 0..20usize {
        let count = dice.below(30);
        let lists = drawn(rt.alloc(), &mut dice, count, items.lists())?;
        admit(&mut items, &lists)?;
        leaf.extend_from_slice(&lists)?;
        let first = items.lists();
        let list = dice.below(first as usize) as u32;
        let aims = drawn(rt.alloc(), &mut dice, items_of(&items, list)?.len(), 3)?;
        split(rt.alloc(), &mut items, list, &aims, 3)?;
        slow_split(&mut leaf, list, &aims, first);
        for list in 0..items.lists() {
            let slow = slow_items(rt.alloc(), &leaf, list)?;
            assert_eq!(rt; items.items(list), slow.as_slice());
        }
    }
    assert_eq!(rt; items.lists(), 61);
    Ok(())
}
