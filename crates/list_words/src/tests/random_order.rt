use crate::plain_filer::PlainReader;
use crate::tests::conditions::Conditions;
use crate::tests::held::Held;
use crate::tests::slow_lists::SlowLists;
use crate::{Filed, Grant, LeafLists, PlainLists, Seen};
use dice::Dice;
use std::alloc::{AllocError, Global};
use std::process::Abort;
use std::test::Fail;

const LISTS: u32 = 400;

const CHUNKS: u32 = 1000;

const STEPS: u32 = 20_000;

/// The most chunks, items, places of a grant and answers of a filer that one step draws.
const MOST_CHUNKS: usize = 12;

const MOST_ITEMS: usize = 300;

const MOST_PLACES: usize = 1000;

const ANSWERS: u32 = 2000;

/// Lists over vectors beside slow ones, and who is out.
#[derive(Drop)]
struct Walk {
    lists: PlainLists,
    slow: SlowLists,
    opened: u32,
    open: Vec<u32>,
    filers: Vec<Held>,
    readers: Vec<PlainReader>,
    dice: Dice,
    swept: usize,
    late: usize,
    fewest_free: u32,
}

impl Walk {
    fn new(alloc: Global, seed: u64) -> Result<Walk, AllocError> {
        Ok(Walk {
            lists: PlainLists::new(alloc, LISTS, CHUNKS)?,
            slow: SlowLists::new(alloc, LISTS as usize, CHUNKS as usize)?,
            opened: 0,
            open: Vec::new(alloc),
            filers: Vec::new(alloc),
            readers: Vec::new(alloc),
            dice: Dice::new(seed),
            swept: 0,
            late: 0,
            fewest_free: CHUNKS,
        })
    }

    /// One of the open lists, if there is one.
    fn some_open(&mut self) -> Option<u32> {
        let place = self.dice.below(self.open.len());
        self.open.get(place).copied()
    }

    fn open_next(&mut self, rt: &impl Abort) -> Result<(), Fail> {
        if self.opened < LISTS && self.open.len() < 16 {
            assert!(rt; self.lists.may_open(self.opened));
            self.lists.open_list(self.opened);
            self.open.push(self.opened)?;
            self.opened += 1;
        }
        Ok(())
    }

    /// Puts chunks at the end of a list's chain, as far as there are free ones.
    fn extend(&mut self, rt: &impl Abort, owned: bool) -> Result<(), Fail> {
        let Some(list) = self.some_open() else {
            return Ok(());
        };
        for _chunk in 0..self.dice.below(MOST_CHUNKS) {
            if self.lists.free() == 0 {
                return Ok(());
            }
            let chunk = if owned {
                self.extend_owned(rt, list)?
            } else {
                self.extend_claimed(rt, list)?
            };
            self.slow.link(list, owned, chunk.ok_or("no chunk")?)?;
        }
        Ok(())
    }

    fn extend_claimed(&mut self, rt: &impl Abort, list: u32) -> Result<Option<u32>, AllocError> {
        assert!(rt; self.lists.has_list(list));
        self.lists.reserve(list, 1, 0)?;
        assert!(rt; self.lists.may_extend_claimed(list));
        self.lists.extend_claimed(list);
        assert!(rt; self.lists.has_list(list));
        Ok(self.lists.claimed(list).last().copied())
    }

    fn extend_owned(&mut self, rt: &impl Abort, list: u32) -> Result<Option<u32>, AllocError> {
        assert!(rt; self.lists.has_list(list));
        self.lists.reserve(list, 0, 1)?;
        assert!(rt; self.lists.may_extend_owned(list));
        self.lists.extend_owned(list);
        assert!(rt; self.lists.has_list(list));
        Ok(self.lists.owned(list).last().copied())
    }

    fn place(&mut self, rt: &impl Abort) {
        let Some(list) = self.some_open() else {
            return;
        };
        for _item in 0..self.dice.below(MOST_ITEMS) {
            if !self.lists.may_place(list) {
                return;
            }
            let item = self.dice.roll();
            let placed = self.lists.place(list, item);
            assert_eq!(rt; Some(placed), self.slow.fill(list, true, item));
        }
    }

    fn admit(&mut self, rt: &impl Abort) -> Result<(), Fail> {
        let (Some(one), Some(other)) = (self.some_open(), self.some_open()) else {
            return Ok(());
        };
        let first = Grant {
            list: one,
            n: self.dice.below(MOST_PLACES) as u32,
        };
        let second = Grant {
            list: other,
            n: self.dice.below(MOST_PLACES) as u32,
        };
        self.lists.reserve_filer(2, ANSWERS)?;
        if !self.lists.may_admit(first, second) {
            return Ok(());
        }
        assert_ne!(rt; first.list, second.list);
        self.filers.push(Held::new(&mut self.lists, first, second))?;
        self.slow.admit()?;
        Ok(())
    }

    /// Files some items by both grants of a filer.
    fn file(&mut self, rt: &impl Abort) {
        let place = self.dice.below(self.filers.len());
        for _item in 0..self.dice.below(MOST_ITEMS) {
            let item = self.dice.roll();
            let Some(filer) = self.filers.get_mut(place) else {
                return;
            };
            if let Some((list, filed)) = filer.file_first(&mut self.lists, item) {
                self.expect_filed(rt, list, item, filed);
            }
            let item = self.dice.roll();
            let Some(filer) = self.filers.get_mut(place) else {
                return;
            };
            if let Some((list, filed)) = filer.file_second(&mut self.lists, item) {
                self.expect_filed(rt, list, item, filed);
            }
        }
    }

    fn expect_filed(&mut self, rt: &impl Abort, list: u32, item: u32, filed: Filed) {
        if self.slow.is_shut(list) {
            assert_eq!(rt; filed, Filed::Late { seen: Seen::Shut });
            self.late = self.late.wrapping_add(1);
            return;
        }
        let wanted = self.slow.fill(list, false, item);
        let wanted = wanted.map(|(chunk, slot)| Filed::At { chunk, slot });
        assert_eq!(rt; Some(filed), wanted);
    }

    /// Shuts a list, and looks at what its sweep appends to what stood there.
    fn shut(&mut self, rt: &impl Abort, alloc: Global) -> Result<(), Fail> {
        let place = self.dice.below(self.open.len());
        if place >= self.open.len() {
            return Ok(());
        }
        let list = self.open.swap_remove(place);
        let mut out = Vec::with_capacity(alloc, 256 * CHUNKS as usize + 1)?;
        out.push(5)?;
        let mut wanted = vec![in alloc; 5; 1]?;
        self.slow.shut(list, &mut wanted)?;
        assert!(rt; self.lists.may_sweep(list, &out));
        self.lists.shut_and_sweep(list, &mut out);
        assert_eq!(rt; out.as_slice(), wanted.as_slice());
        self.swept = self.swept.wrapping_add(out.len());
        Ok(())
    }

    fn note(&mut self, rt: &impl Abort) -> Result<(), Fail> {
        assert!(rt; self.lists.may_note());
        self.readers.push(self.lists.note())?;
        self.slow.admit()?;
        Ok(())
    }

    fn unpin(&mut self) -> Result<(), Fail> {
        let place = self.dice.below(self.readers.len());
        if place >= self.readers.len() {
            return Ok(());
        }
        let reader = self.readers.swap_remove(place);
        self.slow.take_back(reader.birth)?;
        self.lists.unpin(reader);
        Ok(())
    }

    fn take_back(&mut self, rt: &impl Abort) -> Result<(), Fail> {
        let place = self.dice.below(self.filers.len());
        if place >= self.filers.len() {
            return Ok(());
        }
        let filer = self.filers.swap_remove(place);
        self.slow.take_back(filer.birth())?;
        assert!(rt;
            filer.take_back(&mut self.lists),
            "the lists vouch for their filer"
        );
        Ok(())
    }

    fn reclaim(&mut self, alloc: Global) {
        self.lists.reclaim();
        self.slow.reclaim(alloc);
    }

    /// One call, or some filings or placings, drawn by chance.
    fn step(&mut self, rt: &impl Abort, alloc: Global) -> Result<(), Fail> {
        match self.dice.below(32) {
            0 | 1 => self.open_next(rt)?,
            2..=6 => self.extend(rt, false)?,
            7..=9 => self.extend(rt, true)?,
            10..=13 => self.place(rt),
            14..=17 => self.admit(rt)?,
            18..=24 => self.file(rt),
            25 => self.note(rt)?,
            26 => self.unpin()?,
            27 | 28 => self.take_back(rt)?,
            29 | 30 => self.reclaim(alloc),
            _ => self.shut(rt, alloc)?,
        }
        Ok(())
    }

    /// Compares all that the lists show with the slow ones, of the slots those of one chunk.
    fn compare(&mut self, rt: &impl Abort) -> Result<(), Fail> {
        let free = self.lists.free();
        self.fewest_free = self.fewest_free.min(free);
        assert_eq!(rt; free as usize, self.slow.free());
        assert_eq!(rt; self.lists.held() as usize, self.slow.held());
        assert_eq!(rt; self.lists.seats_out(), self.slow.seats_out() as u64);
        for list in 0..self.opened {
            assert!(rt; self.lists.has_list(list));
            let Some(slow) = self.slow.lists.get(list as usize) else {
                return Err("no such list".into());
            };
            assert_eq!(rt;
                self.lists.claimed(list),
                slow.claimed.chunks.as_slice(),
                "list {list}"
            );
            assert_eq!(rt;
                self.lists.owned(list),
                slow.owned.chunks.as_slice(),
                "list {list}"
            );
        }
        let chunk = self.dice.below(CHUNKS as usize) as u32;
        self.compare_slots(rt, chunk);
        Ok(())
    }

    fn compare_slots(&self, rt: &impl Abort, chunk: u32) {
        assert!(rt; self.lists.has_chunk(chunk));
        let words = self.slow.words(chunk);
        for slot in 0..256u32 {
            let word = match words {
                Some(words) => words.get(slot as usize).copied(),
                None => Some(0),
            };
            assert_eq!(rt;
                Some(self.lists.slot(chunk, slot)),
                word,
                "slot {slot} of {chunk}"
            );
        }
    }

    /// Gives everybody back, so that all shut lists may be cleared.
    fn finish(&mut self, rt: &impl Abort, alloc: Global) -> Result<(), Fail> {
        for _filer in 0..self.filers.len() {
            self.take_back(rt)?;
        }
        for _reader in 0..self.readers.len() {
            self.unpin()?;
        }
        self.reclaim(alloc);
        self.compare(rt)?;
        assert_eq!(rt; self.lists.seats_out(), 0);
        assert_eq!(rt; self.lists.held(), 0);
        Ok(())
    }
}

#[test]
fn calls_in_random_order_answer_as_slow_lists_do(rt: HostRuntime) -> Result<(), Fail> {
    let alloc = rt.alloc();
    let mut walk = Walk::new(alloc, 24)?;
    for step in 0..STEPS {
        walk.step(&rt, alloc)?;
        walk.compare(&rt)?;
        if step % 200 == 0 {
            for chunk in 0..CHUNKS {
                walk.compare_slots(&rt, chunk);
            }
        }
    }
    walk.finish(&rt, alloc)?;
    assert_eq!(rt; walk.opened, LISTS);
    assert_eq!(rt; walk.fewest_free, 0, "all chunks were in use at some time");
    assert_eq!(rt; walk.slow.cleared(), LISTS as usize);
    assert!(rt; walk.swept > 200_000, "items that were swept");
    assert!(rt; walk.late > 10_000, "items that came late");
    Ok(())
}
