use crate::Book;
use crate::tests::slow_book::SlowBook;
use dice::Dice;
use list_words::Grant;
use std::alloc::{AllocError, Global};
use std::process::Abort;
use std::test::Fail;

const LISTS: u32 = 300;

const CHUNKS: u32 = 600;

const STEPS: u32 = 12_000;

/// The most lists that are open at once, and the most chunks, slots and places of a grant that one step draws.
const MOST_OPEN: usize = 16;

const MOST_CHUNKS: usize = 12;

const MOST_SLOTS: usize = 300;

const MOST_PLACES: usize = 1000;

/// A book beside a slow one, the lists that are open, and how often what is rare was met.
#[derive(Drop)]
struct Walk {
    book: Book,
    slow: SlowBook,
    alloc: Global,
    opened: u32,
    open: Vec<u32>,
    dice: Dice,
    grants: usize,
    cleared: usize,
    waited: usize,
    fewest_free: u32,
}

impl Walk {
    fn new(alloc: Global, seed: u64) -> Result<Walk, AllocError> {
        Ok(Walk {
            book: Book::new(alloc, LISTS, CHUNKS)?,
            slow: SlowBook::new(alloc, LISTS as usize, CHUNKS as usize)?,
            alloc,
            opened: 0,
            open: Vec::new(alloc),
            dice: Dice::new(seed),
            grants: 0,
            cleared: 0,
            waited: 0,
            fewest_free: CHUNKS,
        })
    }

    /// One of the open lists, if there is one.
    fn some_open(&mut self) -> Option<u32> {
        let place = self.dice.below(self.open.len());
        self.open.get(place).copied()
    }

    fn open_next(&mut self, rt: &impl Abort) -> Result<(), Fail> {
        if self.opened < LISTS && self.open.len() < MOST_OPEN {
            assert!(rt; self.book.may_open(self.opened));
            self.book.open_list(self.opened);
            self.open.push(self.opened)?;
            self.opened += 1;
        }
        Ok(())
    }

    /// Puts chunks at the end of a list's chain, as far as there are free ones.
    fn extend(&mut self, rt: &impl Abort, owned: bool) -> Result<(), Fail> {
        let Some(list) = self.some_open() else {
            return Ok(());
        };
        for _chunk in 0..self.dice.below(MOST_CHUNKS) {
            if self.book.free() == 0 {
                return Ok(());
            }
            let chunk = if owned {
                self.extend_owned(rt, list)?
            } else {
                self.extend_claimed(rt, list)?
            };
            assert_eq!(rt; chunk, self.slow.extend(self.alloc, list, owned)?);
        }
        Ok(())
    }

    fn extend_claimed(&mut self, rt: &impl Abort, list: u32) -> Result<u32, AllocError> {
        assert!(rt; self.book.has_list(list));
        self.book.reserve(list, 1, 0)?;
        assert!(rt; self.book.may_extend_claimed(list));
        Ok(self.book.extend_claimed(list))
    }

    fn extend_owned(&mut self, rt: &impl Abort, list: u32) -> Result<u32, AllocError> {
        assert!(rt; self.book.has_list(list));
        self.book.reserve(list, 0, 1)?;
        assert!(rt; self.book.may_extend_owned(list));
        Ok(self.book.extend_owned(list))
    }

    fn use_slots(&mut self, rt: &impl Abort) -> Result<(), Fail> {
        let Some(list) = self.some_open() else {
            return Ok(());
        };
        for _slot in 0..self.dice.below(MOST_SLOTS) {
            if !self.book.may_use_slot(list) {
                return Ok(());
            }
            let slot = self.book.use_slot(list);
            assert_eq!(rt; slot, self.slow.use_slot(list)?);
        }
        Ok(())
    }

    /// Grants slots of two lists to one more seat, if they have so many.
    fn grant(&mut self) -> Result<(), Fail> {
        let (Some(one), Some(two)) = (self.some_open(), self.some_open()) else {
            return Ok(());
        };
        let first = Grant {
            list: one,
            n: self.dice.below(MOST_PLACES) as u32,
        };
        let second = Grant {
            list: two,
            n: self.dice.below(MOST_PLACES) as u32,
        };
        if self.book.may_grant(first, second) {
            self.book.grant(&[first, second]);
            self.slow.grant(one, first.n)?;
            self.slow.grant(two, second.n)?;
            self.slow.count_in(self.book.birth())?;
            self.grants = self.grants.wrapping_add(1);
        }
        Ok(())
    }

    fn count_in(&mut self, rt: &impl Abort) -> Result<(), Fail> {
        assert!(rt; self.book.may_count_in());
        self.book.count_in();
        self.slow.count_in(self.book.birth())?;
        Ok(())
    }

    /// Counts off one of the seats that are out, or one of a birth of which sometimes nobody is out.
    fn count_off(&mut self) {
        let place = self.dice.below(self.slow.seats_out());
        let birth = match self.slow.births.get(place) {
            Some(birth) if self.dice.below(8) != 0 => *birth,
            _ => self.dice.below(LISTS as usize + 1) as u32,
        };
        self.book.count_off(birth);
        self.slow.count_off(birth);
    }

    fn shut(&mut self, rt: &impl Abort) -> Result<(), Fail> {
        let place = self.dice.below(self.open.len());
        if place < self.open.len() {
            let list = self.open.swap_remove(place);
            assert!(rt; self.book.takes_items(list));
            self.book.shut(list);
            self.slow.shut(list)?;
        }
        Ok(())
    }

    /// Clears the lists that may be cleared, and those only.
    fn clear(&mut self, rt: &impl Abort) -> Result<(), Fail> {
        for _list in 0..LISTS {
            let next = self.book.may_clear();
            assert_eq!(rt; next, self.slow.may_clear());
            let Some(list) = next else {
                self.waited = self.waited.wrapping_add(1);
                return Ok(());
            };
            self.book.clear_next();
            self.slow.clear(list)?;
            self.cleared = self.cleared.wrapping_add(1);
            self.compare(rt, list)?;
        }
        Ok(())
    }

    /// Whether both books say the same of a list.
    fn compare(&self, rt: &impl Abort, list: u32) -> Result<(), Fail> {
        assert!(rt; self.book.has_list(list));
        let Some(row) = self.slow.lists.get(list as usize) else {
            return Err("no such list".into());
        };
        assert_eq!(rt; self.book.claimed(list), row.claimed.as_slice());
        assert_eq!(rt; self.book.owned(list), row.owned.as_slice());
        assert_eq!(rt; self.book.used(list) as usize, row.used);
        assert_eq!(rt; self.book.granted(list) as usize, row.granted);
        Ok(())
    }

    fn compare_counts(&mut self, rt: &impl Abort) {
        assert_eq!(rt; self.book.free() as usize, self.slow.free());
        assert_eq!(rt; self.book.held() as usize, self.slow.held());
        assert_eq!(rt; self.book.seats_out(), self.slow.seats_out() as u64);
        assert_eq!(rt; self.book.birth() as usize, self.slow.birth());
        self.fewest_free = self.fewest_free.min(self.book.free());
    }

    fn step(&mut self, rt: &impl Abort) -> Result<(), Fail> {
        match self.dice.below(24) {
            0..=1 => self.open_next(rt)?,
            2..=5 => self.extend(rt, false)?,
            6..=8 => self.extend(rt, true)?,
            9..=12 => self.use_slots(rt)?,
            13..=15 => self.grant()?,
            16 => self.count_in(rt)?,
            17..=21 => self.count_off(),
            22 => self.shut(rt)?,
            _ => self.clear(rt)?,
        }
        let list = self.dice.below(LISTS as usize) as u32;
        self.compare(rt, list)?;
        self.compare_counts(rt);
        Ok(())
    }
}

#[test]
fn calls_in_a_random_order_answer_as_a_slow_book(rt: HostRuntime) -> Result<(), Fail> {
    let mut walk = Walk::new(rt.alloc(), 20_261_201)?;
    for _step in 0..STEPS {
        walk.step(&rt)?;
    }
    for list in 0..LISTS {
        walk.compare(&rt, list)?;
    }
    assert!(rt; 100 < walk.grants);
    assert!(rt; 100 < walk.cleared);
    assert!(rt; 10 < walk.waited);
    assert_eq!(rt; walk.fewest_free, 0);
    Ok(())
}
