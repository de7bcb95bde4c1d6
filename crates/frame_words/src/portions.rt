//! Portions of what is drawn, each drawn by one of several threads.
ghost use Rattle.std.specs.Prelude.{◌≡◌, ◌<◌, ◌≤◌, ◌^◌, ◌∷◌, [], length};
ghost use Rattle.std.specs.Thread.{IsSync};
ghost use Rattle.frame_words.specs.Hands.{HasDrawn, IsFor, IsPainter, giver, taker, united};
ghost use Rattle.frame_words.specs.Parts.{CanDraw, all_items, portion};

use crate::parts::Part;
use crate::rule::{Chair, Desk, Halve, Unite};
use camera_cut::Camera;
use rayon::join_mut;
use std::thread::Threads;

/// How many items the parts have.
pub fn count_items(parts: &[Part]) -> usize
    requires { length (all_items parts.now) < 2 ^ 64 }
    ensures { result ≡ length (all_items parts.now) }
{
    let mut count = 0;
    for part in parts {
        count += part.len();
    }
    count
}

/// Draws the items from the first one on, before the end, by so many threads. Their portions have equally many
/// items, whatever the parts are, but for fewer than `workers` items.
#[cycle(portions)]
pub fn draw_portion<R: Threads + Sync>(
    rt: &R,
    desk: &Desk,
    camera: &Camera,
    seat: &mut Chair,
    parts: &[Part],
    first: usize,
    end: usize,
    workers: u32,
)
    requires parts { CanDraw parts.now first end }
    requires seat { IsPainter camera.now desk.now.shared.key seat.old.me.0.shares desk.now.shared.table_id seat.old.table_id seat.old.me }
    requires some { 1 ≤ workers }
    requires shares { workers ≤ seat.old.me.0.shares }
    ensures { HasDrawn camera.now desk.now.shared.key (portion first end (all_items parts.now)) seat.old.table_id seat.old.me seat.new.table_id seat.new.me }
{
    if workers == 1 {
        draw_alone(desk, camera, seat, parts, first, end);
        return;
    }
    let half = workers / 2;
    let rest = workers - half;
    let middle = first + share_of(end - first, workers, rest);
    let mut other = split(desk, seat);
    draw_both(
        rt, desk, camera, parts, seat, first, middle, rest, &mut other, end, half,
    );
    unite(desk, seat, other);
}

/// Draws the items before the middle by one seat, and those after it by another, at the same time.
#[cycle(portions)]
fn draw_both<R: Threads + Sync>(
    rt: &R,
    desk: &Desk,
    camera: &Camera,
    parts: &[Part],
    seat: &mut Chair,
    first: usize,
    middle: usize,
    rest: u32,
    other: &mut Chair,
    end: usize,
    half: u32,
)
    requires front { CanDraw parts.now first middle
        × IsPainter camera.now desk.now.shared.key seat.old.me.0.shares desk.now.shared.table_id seat.old.table_id seat.old.me
        × (1 ≤ rest) × (rest ≤ seat.old.me.0.shares) }
    requires back { CanDraw parts.now middle end
        × IsPainter camera.now desk.now.shared.key other.old.me.0.shares desk.now.shared.table_id other.old.table_id other.old.me
        × (1 ≤ half) × (half ≤ other.old.me.0.shares) }
    ensures front { HasDrawn camera.now desk.now.shared.key (portion first middle (all_items parts.now))
        seat.old.table_id seat.old.me seat.new.table_id seat.new.me }
    ensures back { HasDrawn camera.now desk.now.shared.key (portion middle end (all_items parts.now))
        other.old.table_id other.old.me other.new.table_id other.new.me }
{
    let mut front = ||
        requires { IsSync R.row × CanDraw parts.now first middle
            × IsPainter camera.now desk.now.shared.key seat.now.me.0.shares desk.now.shared.table_id seat.now.table_id seat.now.me
            × (1 ≤ rest) × (rest ≤ seat.now.me.0.shares) }
        ensures { HasDrawn camera.entry.now desk.entry.now.shared.key (portion first middle (all_items parts.entry.now))
            seat.entry.now.table_id seat.entry.now.me seat.exit.now.table_id seat.exit.now.me }
    { draw_portion(rt, desk, camera, seat, parts, first, middle, rest) };
    let mut back = ||
        requires { IsSync R.row × CanDraw parts.now middle end
            × IsPainter camera.now desk.now.shared.key other.now.me.0.shares desk.now.shared.table_id other.now.table_id other.now.me
            × (1 ≤ half) × (half ≤ other.now.me.0.shares) }
        ensures { HasDrawn camera.entry.now desk.entry.now.shared.key (portion middle end (all_items parts.entry.now))
            other.entry.now.table_id other.entry.now.me other.exit.now.table_id other.exit.now.me }
    { draw_portion(rt, desk, camera, other, parts, middle, end, half) };
    join_mut(rt, &mut front, &mut back);
}

/// The part of a count that so many of the workers have.
fn share_of(count: usize, workers: u32, some: u32) -> usize
    requires workers { 0 < workers }
    requires some { some ≤ workers }
    ensures { result ≤ count }
{
    count / workers as usize * some as usize
}

/// Draws the items from the first one on, before the end, by one seat.
fn draw_alone(
    desk: &Desk,
    camera: &Camera,
    seat: &mut Chair,
    parts: &[Part],
    first: usize,
    end: usize,
)
    requires parts { CanDraw parts.now first end }
    requires seat { IsPainter camera.now desk.now.shared.key seat.old.me.0.shares desk.now.shared.table_id seat.old.table_id seat.old.me }
    requires some { 0 < seat.old.me.0.shares }
    ensures { HasDrawn camera.now desk.now.shared.key (portion first end (all_items parts.now)) seat.old.table_id seat.old.me seat.new.table_id seat.new.me }
{
    let mut start = 0;
    for part in parts {
        let len = part.len();
        let from = first.saturating_sub(start).min(len);
        let to = end.saturating_sub(start).min(len);
        part.draw(desk, camera, seat, from, to);
        start += len;
    }
}

/// Cuts a seat in two, for two threads.
fn split(desk: &Desk, seat: &mut Chair) -> Chair
    requires table { seat.old.table_id ≡ desk.now.shared.table_id }
    requires some { 0 < desk.now.shared.table_id.words }
    ensures giver { (seat.new.table_id ≡ seat.old.table_id) × (seat.new.me ≡ (giver seat.old.me.0, seat.old.me.1)) }
    ensures taker { (result.table_id ≡ seat.old.table_id) × (result.me ≡ (taker seat.old.me.0, [])) }
{
    desk.shared.split_seat::<Halve>(seat)
}

/// Makes two seats one.
fn unite(desk: &Desk, seat: &mut Chair, other: Chair)
    requires table { seat.old.table_id ≡ desk.now.shared.table_id }
    requires other { (other.table_id ≡ desk.now.shared.table_id) × (other.me.1 ≡ []) }
    requires some { 0 < desk.now.shared.table_id.words }
    requires long { length seat.old.me.0.keys ≡ desk.now.shared.key }
    ensures { (seat.new.table_id ≡ seat.old.table_id) × (seat.new.me ≡ (united seat.old.me.0 other.me.0, seat.old.me.1)) }
{
    desk.shared.join_seat::<Unite>(seat, other);
}
