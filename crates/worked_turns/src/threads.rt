//! Two passes in two threads.
ghost use Rattle.std.specs.Prelude.{◌≡◌};
ghost use Rattle.batch_front.specs.Passes.{IsHome};

use crate::crowd::batch_of;
use crate::log::Log;
use crate::pair::{close_two, front_of_two, has_one_publication};
use crate::turn::{add_event, count_rows};
use batch_front::{Act, Front, News, Pass};
use cube_math::Batch;
use std::sync::Wait;
use std::test::Fail;
use std::thread;
use std::thread::Threads;

/// Publishes the batch and tells of it. Says whether it was published.
fn publish_and_tell<R: Wait>(
    rt: &R,
    front: &Front<Log>,
    mut pass: Pass<Log>,
    batch: Batch,
) -> (bool, Pass<Log>, News<Log>)
    requires { IsHome front.now pass }
    ensures pass { IsHome front.now result.1 }
    ensures news { result.2.front ≡ front.now }
{
    let published = add_event(rt, front, &mut pass, Act::Published, Some(batch));
    let news = front.tell(&mut pass);
    (published, pass, news)
}

/// What a pass finds that is told of something.
#[derive(Clone, Copy, Debug, PartialEq, Eq)]
struct Heard {
    /// The number of publications that it knows once it was told.
    told: u32,
    /// The number that it knows once it entered.
    entered: u32,
    /// The number of rows that it found then.
    rows: usize,
}

/// Hears the news, and takes a turn.
fn hear_and_count<R: Wait>(
    rt: &R,
    front: &Front<Log>,
    mut pass: Pass<Log>,
    news: News<Log>,
) -> (Heard, Pass<Log>)
    requires pass { IsHome front.now pass }
    requires news { news.front ≡ front.now }
    ensures { IsHome front.now result.1 }
{
    front.hear(&mut pass, news);
    let told = pass.known();
    let rows = count_rows(rt, front, &mut pass);
    let entered = pass.known();
    (
        Heard {
            told,
            entered,
            rows,
        },
        pass,
    )
}

/// One thread publishes the batch with the first pass and tells of it. Another asks the second what it knows.
fn publish_at_once<R: Threads + Wait + Sync>(
    rt: &R,
    front: &Front<Log>,
    first: Pass<Log>,
    second: Pass<Log>,
    batch: Batch,
) -> ((bool, Pass<Log>, News<Log>), (u32, Pass<Log>))
    requires first { IsHome front.now first }
    requires second { IsHome front.now second }
    ensures first { IsHome front.now result.0.1 }
    ensures news { result.0.2.front ≡ front.now }
    ensures second { result.1.1 ≡ second }
{
    thread::join(
        rt,
        move ||
            requires { IsHome front.now first }
            ensures { IsHome front.entry.now result.1 × (result.2.front ≡ front.entry.now) }
        { publish_and_tell(rt, front, first, batch) },
        move ||
            ensures { result.1 ≡ second }
        { (second.known(), second) },
    )
}

/// One thread takes a turn with the first pass. Another hears the news with the second, and takes a turn too.
fn hear_at_once<R: Threads + Wait + Sync>(
    rt: &R,
    front: &Front<Log>,
    mut first: Pass<Log>,
    second: Pass<Log>,
    news: News<Log>,
) -> ((Heard, Pass<Log>), Pass<Log>)
    requires first { IsHome front.now first }
    requires second { IsHome front.now second }
    requires news { news.front ≡ front.now }
    ensures second { IsHome front.now result.0.1 }
    ensures first { IsHome front.now result.1 }
{
    thread::join(
        rt,
        move ||
            requires { IsHome front.now second × (news.front ≡ front.now) }
            ensures { IsHome front.entry.now result.1 }
        { hear_and_count(rt, front, second, news) },
        move ||
            requires { IsHome front.now first }
            ensures { IsHome front.entry.now result }
        {
            count_rows(rt, front, &mut first);
            first
        },
    )
}

#[test]
fn a_pass_in_another_thread_knows_what_it_was_told_of(rt: HostRuntime) -> Result<(), Fail> {
    let (front, first, second) = front_of_two(rt.alloc(), 7)?;
    let batch = batch_of(rt.alloc(), 5).ok_or("memory")?;
    let ((published, first, news), (before, second)) = publish_at_once(
        &rt, &front, first, second, batch,
    );
    assert!(rt; published);
    assert_eq!(rt; before, 0);
    let ((heard, second), first) = hear_at_once(&rt, &front, first, second, news);
    let wanted = Heard {
        told: 1,
        entered: 1,
        rows: 1,
    };
    assert_eq!(rt; heard, wanted);
    let log = close_two(rt.alloc(), front, first, second)?;
    assert!(rt; has_one_publication(&log));
    Ok(())
}
