use std::alloc::{AllocError, Global};
use std::test::Fail;

/// How many slots a chunk has.
const SLOTS: usize = 256;

/// The top bit of a slot that is marked as moved.
const MOVED: u64 = 1 << 63;

/// One chain: its chunks, a word for each of their slots, and how many slots are used.
#[derive(Drop)]
pub struct Chain {
    pub chunks: Vec<u32>,
    words: Vec<u64>,
    used: usize,
}

impl Chain {
    fn new(alloc: Global) -> Chain {
        Chain {
            chunks: Vec::new(alloc),
            words: Vec::new(alloc),
            used: 0,
        }
    }

    fn lengthen(&mut self, chunk: u32) -> Result<(), AllocError> {
        self.chunks.push(chunk)?;
        for _slot in 0..SLOTS {
            self.words.push(0)?;
        }
        Ok(())
    }

    /// Writes an item into the next slot, and answers its chunk and slot. None where no slot is left.
    fn fill(&mut self, item: u32) -> Option<(u32, u32)> {
        let chunk = *self.chunks.get(self.used / SLOTS)?;
        let word = self.words.get_mut(self.used)?;
        *word = u64::from(item) + 1;
        let slot = (self.used % SLOTS) as u32;
        self.used = self.used.wrapping_add(1);
        Some((chunk, slot))
    }

    /// Marks each slot that has an item, and appends the items.
    fn mark(&mut self, out: &mut Vec<u32>) -> Result<(), AllocError> {
        for word in self.words.iter_mut() {
            if *word != 0 {
                out.push(((*word - 1) % (1 << 32)) as u32)?;
                *word |= MOVED;
            }
        }
        Ok(())
    }

    fn has(&self, chunk: u32) -> bool {
        self.chunks.iter().any(|c| *c == chunk)
    }

    /// The words of a chunk's slots, if it is one of the chain.
    fn words_of(&self, chunk: u32) -> Option<&[u64]> {
        let rank = self.chunks.iter().position(|c| *c == chunk)?;
        let start = rank.checked_mul(SLOTS)?;
        self.words.get(start..start.checked_add(SLOTS)?)
    }
}

/// One list: whether it was shut, and its two chains.
#[derive(Drop)]
pub struct SlowList {
    pub shut: bool,
    pub claimed: Chain,
    pub owned: Chain,
}

/// Lists that are kept plainly and slowly: each slot is a word, and what is counted is counted afresh.
#[derive(Drop)]
pub struct SlowLists {
    pub lists: Vec<SlowList>,
    chunks: usize,
    order: Vec<u32>,
    cleared: usize,
    births: Vec<usize>,
}

impl SlowLists {
    pub fn new(alloc: Global, lists: usize, chunks: usize) -> Result<SlowLists, AllocError> {
        let mut all = Vec::new(alloc);
        for _list in 0..lists {
            all.push(SlowList {
                shut: false,
                claimed: Chain::new(alloc),
                owned: Chain::new(alloc),
            })?;
        }
        Ok(SlowLists {
            lists: all,
            chunks,
            order: Vec::new(alloc),
            cleared: 0,
            births: Vec::new(alloc),
        })
    }

    fn chain(&mut self, list: u32, owned: bool) -> Option<&mut Chain> {
        let row = self.lists.get_mut(list as usize)?;
        if owned {
            Some(&mut row.owned)
        } else {
            Some(&mut row.claimed)
        }
    }

    /// Puts a chunk at the end of a chain.
    pub fn link(&mut self, list: u32, owned: bool, chunk: u32) -> Result<(), Fail> {
        if self
            .lists
            .iter()
            .any(|l| l.claimed.has(chunk) || l.owned.has(chunk))
        {
            return Err("the chunk was in a chain".into());
        }
        let Some(chain) = self.chain(list, owned) else {
            return Err("no such list".into());
        };
        chain.lengthen(chunk)?;
        Ok(())
    }

    pub fn fill(&mut self, list: u32, owned: bool, item: u32) -> Option<(u32, u32)> {
        self.chain(list, owned)?.fill(item)
    }

    pub fn is_shut(&self, list: u32) -> bool {
        match self.lists.get(list as usize) {
            Some(row) => row.shut,
            None => false,
        }
    }

    /// Shuts a list and marks its slots, and appends the items that are found.
    pub fn shut(&mut self, list: u32, out: &mut Vec<u32>) -> Result<(), Fail> {
        let Some(row) = self.lists.get_mut(list as usize) else {
            return Err("no such list".into());
        };
        row.shut = true;
        row.claimed.mark(out)?;
        row.owned.mark(out)?;
        self.order.push(list)?;
        Ok(())
    }

    /// Somebody is made.
    pub fn admit(&mut self) -> Result<(), AllocError> {
        self.births.push(self.order.len())?;
        Ok(())
    }

    /// Somebody of this birth is given back.
    pub fn take_back(&mut self, birth: u32) -> Result<(), Fail> {
        let Some(place) = self.births.iter().position(|b| *b == birth as usize) else {
            return Err("nobody of this birth is out".into());
        };
        self.births.swap_remove(place);
        Ok(())
    }

    /// Clears the lists that nobody reaches, in the order in which they were shut.
    pub fn reclaim(&mut self, alloc: Global) {
        for (place, list) in self.order.iter().enumerate().skip(self.cleared) {
            if self.births.iter().any(|b| *b <= place) {
                return;
            }
            if let Some(row) = self.lists.get_mut(*list as usize) {
                row.claimed = Chain::new(alloc);
                row.owned = Chain::new(alloc);
            }
            self.cleared = self.cleared.wrapping_add(1);
        }
    }

    pub fn seats_out(&self) -> usize {
        self.births.len()
    }

    pub fn cleared(&self) -> usize {
        self.cleared
    }

    pub fn free(&self) -> usize {
        self.lists.iter().fold(self.chunks, |n, l| {
            n.wrapping_sub(l.claimed.chunks.len())
                .wrapping_sub(l.owned.chunks.len())
        })
    }

    pub fn held(&self) -> usize {
        self.lists.iter().filter(|l| l.shut).fold(0, |n: usize, l| {
            n.wrapping_add(l.claimed.chunks.len())
                .wrapping_add(l.owned.chunks.len())
        })
    }

    /// The words of a chunk's slots, where it is in a chain.
    pub fn words(&self, chunk: u32) -> Option<&[u64]> {
        for row in &self.lists {
            if let Some(words) = row.claimed.words_of(chunk) {
                return Some(words);
            }
            if let Some(words) = row.owned.words_of(chunk) {
                return Some(words);
            }
        }
        None
    }
}
