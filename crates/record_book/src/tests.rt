use crate::{RecordBook, Standing};
use cube_math::{Batch, Cube, Entry, Point};
use dice::Dice;
use std::alloc::Global;
use std::test::Fail;
use version_rows::BatchRow;

/// A point without colour on the x axis.
fn at(x: i32) -> Point {
    Point::new(x, 0, 0, 0, 0, 0)
}

/// A batch of this input with the points at these places on the x axis.
fn batch(alloc: Global, input: u32, places: &[i32]) -> Result<Batch, Fail> {
    let cube = Cube::new(0, 0, 0, 12).ok_or("fits")?;
    let mut points = Vec::new(alloc);
    for x in places {
        points.push(at(*x))?;
    }
    match Batch::new(input, points, &cube, 100) {
        Ok(batch) => Ok(batch),
        Err(_) => Err("no batch".into()),
    }
}

/// Admits a batch and answers its place.
fn admit(alloc: Global, book: &mut RecordBook, batch: &Batch, loader: u32) -> Result<u32, Fail> {
    let more = batch.points().len() as u64;
    if u64::from(book.admitted()) + more > u64::from(u32::MAX) {
        return Err("too many points".into());
    }
    let kept = book.keep(alloc, batch, loader)?;
    book.reserve()?;
    Ok(book.admit(kept))
}

/// Publishes a batch that is out, and answers the number of its publication.
fn publish(book: &mut RecordBook, batch: &Batch, loader: u32, first: u32) -> Result<u32, Fail> {
    let place = book.find(batch, loader, first).ok_or("not out")?;
    book.reserve()?;
    Ok(book.publish(place))
}

/// Abandons a batch that is out.
fn abandon(book: &mut RecordBook, batch: &Batch, loader: u32, first: u32) -> Result<(), Fail> {
    let place = book.find(batch, loader, first).ok_or("not out")?;
    book.abandon(place);
    Ok(())
}

/// The x coordinates of all items.
fn items(alloc: Global, book: &RecordBook) -> Result<Vec<i32>, Fail> {
    let mut places = Vec::new(alloc);
    for item in 0..book.admitted() {
        places.push(book.point(item).x)?;
    }
    Ok(places)
}

/// The x coordinates of the published points.
fn published(alloc: Global, book: &RecordBook) -> Result<Vec<i32>, Fail> {
    let mut places = Vec::new(alloc);
    for point in &book.published_points(alloc)? {
        places.push(point.x)?;
    }
    Ok(places)
}

#[test]
fn second_batch_is_published_first(rt: HostRuntime) -> Result<(), Fail> {
    let one = batch(rt.alloc(), 4, &[1, 2])?;
    let two = batch(rt.alloc(), 7, &[3])?;
    let mut book = RecordBook::new(rt.alloc());
    assert_eq!(rt; admit(rt.alloc(), &mut book, &one, 0)?, 0);
    assert_eq!(rt; admit(rt.alloc(), &mut book, &two, 1)?, 1);
    assert_eq!(rt; publish(&mut book, &two, 1, 2)?, 1);
    assert_eq!(rt; publish(&mut book, &one, 0, 0)?, 2);
    let first = Entry {
        input: 7,
        loader: 1,
        len: 1,
    };
    let second = Entry {
        input: 4,
        loader: 0,
        len: 2,
    };
    assert_eq!(rt; book.journal(), [first, second].as_slice());
    let first = BatchRow {
        number: 1,
        input: 7,
        loader: 1,
        first: 2,
        len: 1,
    };
    let second = BatchRow {
        number: 2,
        input: 4,
        loader: 0,
        first: 0,
        len: 2,
    };
    assert_eq!(rt; book.batches(), [first, second].as_slice());
    assert_eq!(rt;
        published(rt.alloc(), &book)?.as_slice(),
        [3, 1, 2].as_slice()
    );
    assert_eq!(rt; items(rt.alloc(), &book)?.as_slice(), [1, 2, 3].as_slice());
    Ok(())
}

#[test]
fn abandoned_points_stay_admitted(rt: HostRuntime) -> Result<(), Fail> {
    let one = batch(rt.alloc(), 0, &[1, 2])?;
    let two = batch(rt.alloc(), 1, &[3])?;
    let mut book = RecordBook::new(rt.alloc());
    admit(rt.alloc(), &mut book, &one, 0)?;
    abandon(&mut book, &one, 0, 0)?;
    assert_eq!(rt; book.admitted(), 2);
    admit(rt.alloc(), &mut book, &two, 0)?;
    publish(&mut book, &two, 0, 2)?;
    assert_eq!(rt;
        book.standings(),
        [Standing::Abandoned, Standing::Published].as_slice()
    );
    assert_eq!(rt; published(rt.alloc(), &book)?.as_slice(), [3].as_slice());
    assert_eq!(rt; items(rt.alloc(), &book)?.as_slice(), [1, 2, 3].as_slice());
    Ok(())
}

#[test]
fn only_the_same_batch_is_found(rt: HostRuntime) -> Result<(), Fail> {
    let one = batch(rt.alloc(), 3, &[1, 2])?;
    let other_points = batch(rt.alloc(), 3, &[1, 3])?;
    let other_input = batch(rt.alloc(), 4, &[1, 2])?;
    let mut book = RecordBook::new(rt.alloc());
    assert_eq!(rt; book.find(&one, 0, 0), None);
    admit(rt.alloc(), &mut book, &one, 5)?;
    assert_eq!(rt; book.find(&one, 5, 0), Some(0));
    assert_eq!(rt; book.find(&one, 6, 0), None);
    assert_eq!(rt; book.find(&one, 5, 1), None);
    assert_eq!(rt; book.find(&one, 5, 2), None);
    assert_eq!(rt; book.find(&other_points, 5, 0), None);
    assert_eq!(rt; book.find(&other_input, 5, 0), None);
    publish(&mut book, &one, 5, 0)?;
    assert_eq!(rt; book.find(&one, 5, 0), None);
    Ok(())
}

#[test]
fn a_look_is_no_publication(rt: HostRuntime) -> Result<(), Fail> {
    let one = batch(rt.alloc(), 0, &[1])?;
    let mut book = RecordBook::new(rt.alloc());
    book.reserve()?;
    book.look(3);
    admit(rt.alloc(), &mut book, &one, 0)?;
    book.reserve()?;
    book.look(3);
    assert_eq!(rt; book.published(), 0);
    publish(&mut book, &one, 0, 0)?;
    book.reserve()?;
    book.look(3);
    assert_eq!(rt; book.published(), 1);
    assert_eq!(rt; published(rt.alloc(), &book)?.as_slice(), [1].as_slice());
    Ok(())
}

#[test]
fn kept_batches_share_their_points(rt: HostRuntime) -> Result<(), Fail> {
    let one = batch(rt.alloc(), 6, &[8, 9])?;
    let mut book = RecordBook::new(rt.alloc());
    admit(rt.alloc(), &mut book, &one, 2)?;
    let kept = book.kept().first().ok_or("no batch")?;
    assert_eq!(rt; (kept.input(), kept.loader(), kept.first()), (6, 2, 0));
    let shared = std::sync::Arc::try_clone(kept.points())?;
    assert_eq!(rt; shared.as_slice(), one.points());
    Ok(())
}

#[test]
fn each_item_has_its_point(rt: HostRuntime) -> Result<(), Fail> {
    let mut book = RecordBook::new(rt.alloc());
    let mut slow = Vec::new(rt.alloc());
    let mut dice = Dice::new(6);
    for input in 0..40u32 {
        let mut places = Vec::new(rt.alloc());
        for _point in 0..dice.below(5) + 1 {
            places.push(dice.below(4096) as i32)?;
        }
        let batch = batch(rt.alloc(), input, &places)?;
        let first = book.admitted();
        let place = admit(rt.alloc(), &mut book, &batch, 0)?;
        for item in first..book.admitted() {
            assert_eq!(rt; book.place_of(item), place);
        }
        slow.extend_from_slice(&places)?;
        assert_eq!(rt; items(rt.alloc(), &book)?.as_slice(), slow.as_slice());
    }
    Ok(())
}

/// The x coordinates of the published ones of some items.
fn published_of(alloc: Global, book: &RecordBook, items: &[u32]) -> Result<Vec<i32>, Fail> {
    let admitted = book.admitted();
    if !items.iter().all(|item| *item < admitted) {
        return Err("not admitted".into());
    }
    let mut places = Vec::new(alloc);
    for point in &book.published_among(alloc, items)? {
        places.push(point.x)?;
    }
    Ok(places)
}

#[test]
fn items_are_published_with_their_batch(rt: HostRuntime) -> Result<(), Fail> {
    let one = batch(rt.alloc(), 0, &[11, 12])?;
    let two = batch(rt.alloc(), 1, &[13])?;
    let three = batch(rt.alloc(), 2, &[14, 15])?;
    let four = batch(rt.alloc(), 3, &[16])?;
    let mut book = RecordBook::new(rt.alloc());
    for it in [&one, &two, &three, &four] {
        admit(rt.alloc(), &mut book, it, 0)?;
    }
    publish(&mut book, &three, 0, 3)?;
    abandon(&mut book, &two, 0, 2)?;
    publish(&mut book, &one, 0, 0)?;
    assert_eq!(rt; book.admitted(), 6);
    let wanted = [true, true, false, true, true, false];
    for (item, is_published) in wanted.iter().enumerate() {
        assert_eq!(rt; book.is_published_item(item as u32), *is_published);
    }
    let all = published_of(rt.alloc(), &book, &[0, 1, 2, 3, 4, 5])?;
    assert_eq!(rt; all.as_slice(), [11, 12, 14, 15].as_slice());
    let some = published_of(rt.alloc(), &book, &[1, 2, 4, 5])?;
    assert_eq!(rt; some.as_slice(), [12, 15].as_slice());
    let none = published_of(rt.alloc(), &book, &[])?;
    assert_eq!(rt; none.as_slice(), [].as_slice());
    let back = published_of(rt.alloc(), &book, &[4, 0, 4])?;
    assert_eq!(rt; back.as_slice(), [15, 11, 15].as_slice());
    Ok(())
}

#[test]
fn published_items_have_the_published_points(rt: HostRuntime) -> Result<(), Fail> {
    let mut book = RecordBook::new(rt.alloc());
    let mut dice = Dice::new(9);
    let mut out = Vec::new(rt.alloc());
    for input in 0..30u32 {
        let mut places = Vec::new(rt.alloc());
        for _point in 0..dice.below(4) + 1 {
            places.push(dice.below(4096) as i32)?;
        }
        let batch = batch(rt.alloc(), input, &places)?;
        let first = book.admitted();
        admit(rt.alloc(), &mut book, &batch, 0)?;
        out.push((batch, first))?;
        if dice.below(2) == 0 {
            let (batch, first) = out.swap_remove(dice.below(out.len()));
            publish(&mut book, &batch, 0, first)?;
        }
        let mut items = Vec::new(rt.alloc());
        for item in 0..book.admitted() {
            items.push(item)?;
        }
        let mut by_items = published_of(rt.alloc(), &book, &items)?;
        let mut by_publications = published(rt.alloc(), &book)?;
        by_items.sort_unstable();
        by_publications.sort_unstable();
        assert_eq!(rt; by_items.as_slice(), by_publications.as_slice());
    }
    assert!(rt; book.published() > 5);
    Ok(())
}
