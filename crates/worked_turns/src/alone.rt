//! Two passes in one thread.
use crate::crowd::batch_of;
use crate::pair::{close_two, front_of_two, has_one_publication};
use crate::turn::{add_event, count_rows, look_and_tell, publish_row};
use batch_front::Act;
use std::test::Fail;

#[test]
fn a_pass_knows_a_publication_that_it_was_told_of(rt: HostRuntime) -> Result<(), Fail> {
    let (front, mut first, mut second) = front_of_two(rt.alloc(), 7)?;
    let batch = batch_of(rt.alloc(), 5).ok_or("memory")?;
    assert!(rt; add_event(&rt, &front, &mut first, Act::Published, Some(batch)));
    let news = front.tell(&mut first);
    assert_eq!(rt; second.known(), 0);
    front.hear(&mut second, news);
    assert_eq!(rt; second.known(), 1);
    assert_eq!(rt; count_rows(&rt, &front, &mut second), 1);
    assert_eq!(rt; second.known(), 1);
    let log = close_two(rt.alloc(), front, first, second)?;
    assert!(rt; has_one_publication(&log));
    assert_eq!(rt; log.name(), 7);
    Ok(())
}

#[test]
fn a_pass_that_was_told_nothing_knows_it_after_it_entered(rt: HostRuntime) -> Result<(), Fail> {
    let (front, mut first, mut second) = front_of_two(rt.alloc(), 7)?;
    let batch = batch_of(rt.alloc(), 5).ok_or("memory")?;
    assert!(rt; add_event(&rt, &front, &mut first, Act::Published, Some(batch)));
    assert_eq!(rt; second.known(), 0);
    assert_eq!(rt; count_rows(&rt, &front, &mut second), 1);
    assert_eq!(rt; second.known(), 1);
    let log = close_two(rt.alloc(), front, first, second)?;
    assert!(rt; has_one_publication(&log));
    Ok(())
}

#[test]
fn a_pass_that_hears_old_news_knows_as_much_as_before(rt: HostRuntime) -> Result<(), Fail> {
    let (front, mut first, mut second) = front_of_two(rt.alloc(), 7)?;
    let old = front.tell(&mut second);
    let batch = batch_of(rt.alloc(), 5).ok_or("memory")?;
    assert!(rt; add_event(&rt, &front, &mut first, Act::Published, Some(batch)));
    front.hear(&mut first, old);
    assert_eq!(rt; first.known(), 1);
    close_two(rt.alloc(), front, first, second)?;
    Ok(())
}

#[test]
fn only_publications_are_counted(rt: HostRuntime) -> Result<(), Fail> {
    let (front, mut first, second) = front_of_two(rt.alloc(), 7)?;
    let admitted = batch_of(rt.alloc(), 5).ok_or("memory")?;
    assert!(rt; add_event(&rt, &front, &mut first, Act::Admitted, Some(admitted)));
    assert!(rt; add_event(&rt, &front, &mut first, Act::Looked, None));
    assert_eq!(rt; first.known(), 0);
    let published = batch_of(rt.alloc(), 5).ok_or("memory")?;
    assert!(rt; add_event(&rt, &front, &mut first, Act::Published, Some(published)));
    assert_eq!(rt; first.known(), 1);
    let log = close_two(rt.alloc(), front, first, second)?;
    assert_eq!(rt; log.rows().len(), 3);
    Ok(())
}

#[test]
fn passes_have_the_numbers_from_0(rt: HostRuntime) -> Result<(), Fail> {
    let (front, first, second) = front_of_two(rt.alloc(), 7)?;
    assert_eq!(rt; (first.number(), second.number()), (0, 1));
    close_two(rt.alloc(), front, first, second)?;
    Ok(())
}

#[test]
fn a_pass_is_told_of_a_look(rt: HostRuntime) -> Result<(), Fail> {
    let (front, mut first, mut second) = front_of_two(rt.alloc(), 7)?;
    assert!(rt; look_and_tell(&rt, &front, &mut first, &mut second));
    assert!(rt; look_and_tell(&rt, &front, &mut second, &mut first));
    assert_eq!(rt; (first.known(), second.known()), (0, 0));
    let log = close_two(rt.alloc(), front, first, second)?;
    assert_eq!(rt; log.rows().len(), 2);
    Ok(())
}

#[test]
fn a_batch_that_the_log_has_taken_is_published(rt: HostRuntime) -> Result<(), Fail> {
    let (front, mut first, second) = front_of_two(rt.alloc(), 7)?;
    let batch = batch_of(rt.alloc(), 5).ok_or("memory")?;
    let mut turn = front.enter(&rt, &mut first);
    assert!(rt; publish_row(&front, &mut first, &mut turn, batch));
    front.leave(&mut first, turn);
    assert_eq!(rt; first.known(), 1);
    let log = close_two(rt.alloc(), front, first, second)?;
    assert!(rt; has_one_publication(&log));
    Ok(())
}
