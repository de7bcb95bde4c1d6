use std::alloc::{AllocError, Global};
use std::test::Fail;

/// How many slots a chunk has.
const SLOTS: usize = 256;

/// One list: its two chains, how many slots of the first were granted, how many of the second are used, and
/// whether it was shut.
#[derive(Drop)]
pub struct SlowList {
    pub claimed: Vec<u32>,
    pub owned: Vec<u32>,
    pub granted: usize,
    pub used: usize,
    pub shut: bool,
}

/// A book that is kept plainly and slowly: what is counted is counted afresh.
#[derive(Drop)]
pub struct SlowBook {
    pub lists: Vec<SlowList>,
    chunks: usize,
    order: Vec<u32>,
    cleared: usize,
    pub births: Vec<u32>,
}

impl SlowBook {
    pub fn new(alloc: Global, lists: usize, chunks: usize) -> Result<SlowBook, AllocError> {
        let mut all = Vec::new(alloc);
        for _list in 0..lists {
            all.push(SlowList {
                claimed: Vec::new(alloc),
                owned: Vec::new(alloc),
                granted: 0,
                used: 0,
                shut: false,
            })?;
        }
        Ok(SlowBook {
            lists: all,
            chunks,
            order: Vec::new(alloc),
            cleared: 0,
            births: Vec::new(alloc),
        })
    }

    fn list(&mut self, list: u32) -> Result<&mut SlowList, Fail> {
        match self.lists.get_mut(list as usize) {
            Some(row) => Ok(row),
            None => Err("no such list".into()),
        }
    }

    /// For each chunk whether it is in a chain.
    fn taken(&self, alloc: Global) -> Result<Vec<bool>, AllocError> {
        let mut taken = vec![in alloc; false; self.chunks]?;
        for row in &self.lists {
            for chunk in row.claimed.iter().chain(row.owned.iter()) {
                if let Some(found) = taken.get_mut(*chunk as usize) {
                    *found = true;
                }
            }
        }
        Ok(taken)
    }

    /// Puts the least chunk that is in no chain at the end of a chain.
    pub fn extend(&mut self, alloc: Global, list: u32, owned: bool) -> Result<u32, Fail> {
        let taken = self.taken(alloc)?;
        let Some(place) = taken.iter().position(|t| !*t) else {
            return Err("all chunks are in chains".into());
        };
        let Ok(chunk) = u32::try_from(place) else {
            return Err("too many chunks".into());
        };
        let row = self.list(list)?;
        if owned {
            row.owned.push(chunk)?;
        } else {
            row.claimed.push(chunk)?;
        }
        Ok(chunk)
    }

    /// The chunk and number of the next slot of the owned chain, which is then used.
    pub fn use_slot(&mut self, list: u32) -> Result<(u32, u32), Fail> {
        let row = self.list(list)?;
        let Some(chunk) = row.owned.get(row.used / SLOTS) else {
            return Err("all slots are used".into());
        };
        let slot = (*chunk, (row.used % SLOTS) as u32);
        row.used = row.used.wrapping_add(1);
        Ok(slot)
    }

    pub fn grant(&mut self, list: u32, n: u32) -> Result<(), Fail> {
        let row = self.list(list)?;
        row.granted = row.granted.wrapping_add(n as usize);
        Ok(())
    }

    pub fn shut(&mut self, list: u32) -> Result<(), Fail> {
        let row = self.list(list)?;
        row.shut = true;
        self.order.push(list)?;
        Ok(())
    }

    /// One more seat of this birth is out.
    pub fn count_in(&mut self, birth: u32) -> Result<(), AllocError> {
        self.births.push(birth)?;
        Ok(())
    }

    /// One seat of a birth is no longer out, if there is one.
    pub fn count_off(&mut self, birth: u32) {
        if let Some(place) = self.births.iter().position(|b| *b == birth) {
            self.births.swap_remove(place);
        }
    }

    /// The first list of the order that is not cleared, if nobody is out who was born before it was shut.
    pub fn may_clear(&self) -> Option<u32> {
        let list = self.order.get(self.cleared)?;
        if self.births.iter().any(|b| *b as usize <= self.cleared) {
            return None;
        }
        Some(*list)
    }

    pub fn clear(&mut self, list: u32) -> Result<(), Fail> {
        let row = self.list(list)?;
        row.claimed.clear();
        row.owned.clear();
        row.used = 0;
        self.cleared = self.cleared.wrapping_add(1);
        Ok(())
    }

    pub fn birth(&self) -> usize {
        self.order.len()
    }

    pub fn seats_out(&self) -> usize {
        self.births.len()
    }

    pub fn free(&self) -> usize {
        self.lists.iter().fold(self.chunks, |n, l| {
            n.wrapping_sub(l.claimed.len()).wrapping_sub(l.owned.len())
        })
    }

    pub fn held(&self) -> usize {
        self.lists.iter().filter(|l| l.shut).fold(0, |n: usize, l| {
            n.wrapping_add(l.claimed.len()).wrapping_add(l.owned.len())
        })
    }
}
