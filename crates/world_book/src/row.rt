ghost use Rattle.std.specs.Prelude.{◌≡◌, ℕ, suc, ◌+◌, ◌-◌, ◌*◌, ◌/◌, ◌%◌, ◌^◌, ◌<◌, ◌≤◌, ◌++◌, IsTrue, ◌↔◌, Some, length, slice_get, slice_index, OnOk, OnErr};
ghost use Rattle.list_machine.specs.Facts.{is_shut};
ghost use Rattle.list_machine.specs.Moves.{chunk_at, chunk_count, is_clearing_at, next_mark};
ghost use Rattle.list_machine.specs.Steps.{opening_leaf, with_claimed, with_grant, with_one_used, with_owned, with_stage, without_chains};
ghost use Rattle.list_machine.specs.declared.views.Stage.TheVariants.{Swept, Cleared};
ghost use Rattle.world_book.specs.Owners.{HasMark, HasWord, last_chunk};

use std::alloc::{AllocError, Global};
use std::marker::Model;

#[cfg(test)]
mod parts;

/// How many slots a chunk has.
const SLOTS: u64 = 256;

/// How many words a chunk has: its slots and its link.
const WORDS: u64 = 257;

/// How far a list has come: it is open, or shut with so many marks made, or its clearing has begun.
#[derive(Clone, Copy)]
enum Phase {
    Opened,
    Shut { place: u64, found: u64, marks: u64 },
    Clearing { place: u64, words: u64 },
}

/// What the owner keeps of one list.
#[derive(Drop)]
pub struct Row {
    claimed: Vec<u32>,
    owned: Vec<u32>,
    granted: u32,
    used: u64,
    phase: Phase,
}

impl Model for Row {
    ghost use Rattle.list_machine.specs.declared.views.Leaf.{Leaf};

    ghost Value = { Leaf };

    ghost use Rattle.world_book.specs.ListRows.{leaf_of, HasShortChains};

    ghost view = { leaf_of };

    ghost invariant = { HasShortChains };
}

impl Row {
    /// A list that nothing was done with.
    pub fn new(alloc: Global) -> Row
        ensures { result ≡ opening_leaf }
    {
        Row {
            claimed: Vec::new(alloc),
            owned: Vec::new(alloc),
            granted: 0,
            used: 0,
            phase: Phase::Opened,
        }
    }

    pub fn claimed(&self) -> &[u32]
        ensures { result.now ≡ self.now.claimed }
    {
        &self.claimed
    }

    /// The last chunk of the claimed chain.
    pub fn last_claimed(&self) -> Option<u32>
        ensures { result ≡ last_chunk self.now.claimed (length self.now.claimed) }
    {
        let last = self.claimed.len().checked_sub(1)?;
        Some(self.claimed[last])
    }

    pub fn owned(&self) -> &[u32]
        ensures { result.now ≡ self.now.owned }
    {
        &self.owned
    }

    /// How many places of the claimed chain were granted.
    pub fn granted(&self) -> u32
        ensures { result ≡ self.now.granted }
    {
        self.granted
    }

    /// How many slots of the owned chain are used.
    pub fn used(&self) -> u64
        ensures { result ≡ self.now.used }
    {
        self.used
    }

    /// How many chunks stand in both chains.
    pub fn chunks(&self) -> u64
        ensures { result ≡ chunk_count self.now }
    {
        self.claimed.len() as u64 + self.owned.len() as u64
    }

    pub fn is_shut(&self) -> bool
        ensures { result ≡ is_shut self.now.stage }
    {
        !matches!(self.phase, Phase::Opened)
    }

    /// Whether the clearing has begun and words are left to be cleared.
    pub fn is_clearing(&self) -> bool
        ensures { result ≡ is_clearing_at self.now.stage (chunk_count self.now) }
    {
        matches!(self.phase, Phase::Clearing { .. }) && self.chunks() > 0
    }

    /// Whether the list was shut and swept so far that the slot which is marked next has its chunk.
    pub fn has_mark(&self) -> bool
        ensures { IsTrue result ↔ HasMark self.now }
    {
        let Phase::Shut { found, marks, .. } = self.phase else {
            return false;
        };
        let has_chunk = if marks < found {
            marks / SLOTS < self.claimed.len() as u64
        } else {
            (marks - found) / SLOTS < self.owned.len() as u64
        };
        has_chunk && marks < 1 << 63
    }

    /// Whether the clearing has begun, and words of chunks are left to be cleared.
    pub fn has_word(&self) -> bool
        ensures { IsTrue result ↔ HasWord self.now }
    {
        let Phase::Clearing { words, .. } = self.phase else {
            return false;
        };
        words > 0 && (words - 1) / WORDS < self.chunks()
    }

    /// Puts a chunk at the end of the claimed chain.
    pub fn link(&mut self, chunk: u32) -> Result<(), AllocError>
        requires { length self.old.claimed < 2 ^ 32 }
        ensures ok { OnOk result (self.new ≡ with_claimed self.old chunk) }
        ensures err { OnErr result (self.new ≡ self.old) }
    {
        self.claimed.push(chunk)?;
        Ok(())
    }

    /// Puts a chunk at the end of the owned chain.
    pub fn adopt(&mut self, chunk: u32) -> Result<(), AllocError>
        requires { length self.old.owned < 2 ^ 32 }
        ensures ok { OnOk result (self.new ≡ with_owned self.old chunk) }
        ensures err { OnErr result (self.new ≡ self.old) }
    {
        self.owned.push(chunk)?;
        Ok(())
    }

    /// Lets n more places of the claimed chain be claimed.
    pub fn grant(&mut self, n: u32)
        requires { self.old.granted + n < 2 ^ 32 }
        ensures { self.new ≡ with_grant self.old n }
    {
        self.granted += n;
    }

    /// Uses the next slot of the owned chain. Answers its chunk and its number there.
    pub fn use_slot(&mut self) -> (u32, u32)
        requires { self.old.used < 256 * length self.old.owned }
        ensures used { self.new ≡ with_one_used self.old }
        ensures chunk { result.0 ≡ chunk_at self.old.owned self.old.used }
        ensures slot { result.1 ≡ self.old.used % 256 }
    {
        let index = self.used;
        self.used += 1;
        place_of(&self.owned, index)
    }

    /// Shuts the list, which gets this place in the order of shut lists, and in which so many places were claimed.
    pub fn shut(&mut self, place: u64, found: u64)
        ensures { self.new ≡ with_stage self.old (Swept place found 0) }
    {
        self.phase = Phase::Shut {
            place,
            found,
            marks: 0,
        };
    }

    /// Counts one more mark. Answers the chunk and the number of the slot that is marked with it.
    pub fn mark_next(&mut self) -> (u32, u32)
        requires { HasMark self.old }
        ensures row { (p f m : ℕ) → self.old.stage ≡ Swept p f m → self.new ≡ with_stage self.old (Swept p f (suc m)) }
        ensures chunk { (p f m : ℕ) → self.old.stage ≡ Swept p f m → result.0 ≡ (next_mark self.old f m).0 }
        ensures slot { (p f m : ℕ) → self.old.stage ≡ Swept p f m → result.1 ≡ (next_mark self.old f m).1 }
    {
        let Phase::Shut {
            place,
            found,
            marks,
        } = self.phase
        else {
            unreachable!()
        };
        self.phase = Phase::Shut {
            place,
            found,
            marks: marks + 1,
        };
        if marks < found {
            place_of(&self.claimed, marks)
        } else {
            place_of(&self.owned, marks - found)
        }
    }

    /// Counts one more cleared word. Answers the chunk that has it, and its number there: that of a slot, or 256 for the link.
    pub fn clear_next(&mut self) -> (u32, u32)
        requires { HasWord self.old }
        ensures row { (p n : ℕ) → self.old.stage ≡ Cleared p n → self.new ≡ with_stage self.old (Cleared p (suc n)) }
        ensures chunk { (p n : ℕ) → self.old.stage ≡ Cleared p n → result.0 ≡ slice_index (self.old.claimed ++ self.old.owned) ((n - 1) / 257) }
        ensures word { (p n : ℕ) → self.old.stage ≡ Cleared p n → result.1 ≡ (n - 1) % 257 }
    {
        let Phase::Clearing { place, words } = self.phase else {
            unreachable!()
        };
        self.phase = Phase::Clearing {
            place,
            words: words + 1,
        };
        let rank = ((words - 1) / WORDS) as usize;
        (self.chunk_at(rank), ((words - 1) % WORDS) as u32)
    }

    /// The chunk of this rank in both chains, one behind the other.
    fn chunk_at(&self, rank: usize) -> u32
        requires { rank < chunk_count self.now }
        ensures { result ≡ slice_index (self.now.claimed ++ self.now.owned) rank }
    {
        let claimed = self.claimed.len();
        if rank < claimed {
            self.claimed[rank]
        } else {
            self.owned[rank - claimed]
        }
    }

    /// Begins the clearing, with one word.
    pub fn begin_clear(&mut self, place: u64)
        ensures { self.new ≡ with_stage self.old (Cleared place 1) }
    {
        self.phase = Phase::Clearing { place, words: 1 };
    }

    /// Lets go of the chunks.
    pub fn release(&mut self, alloc: Global)
        ensures { self.new ≡ without_chains self.old }
    {
        self.claimed = Vec::new(alloc);
        self.owned = Vec::new(alloc);
    }
}

/// The chunk and the slot of a chain that have this place.
fn place_of(chain: &[u32], index: u64) -> (u32, u32)
    requires { index / 256 < length chain.now }
    ensures chunk { result.0 ≡ chunk_at chain.now index }
    ensures slot { result.1 ≡ index % 256 }
{
    (chain[(index / SLOTS) as usize], (index % SLOTS) as u32)
}
