ghost use Rattle.std.specs.Prelude.{◌≡◌, ℕ, ◌+◌, ◌<◌, ◌≤◌, Some, length, slice_get, IfOk, MatchOption};
ghost use Rattle.std.specs.FinSet as set;
ghost use Rattle.chunk_pool.specs.Numbers.{IsFree, IsLeastFree, all_free, with_all_free, with_free, without};

use std::alloc::{AllocError, Global};
use std::cmp::Reverse;
use std::collections::BinaryHeap;
use std::marker::Model;

/// The chunk numbers below a bound that are free. Contracts see the bound and the finite set.
///
/// The free numbers lie in a heap with the least on top. Its room for all of them is taken at the start, so
/// taking a number and giving it back take no memory, and about as many steps as the count has binary digits.
#[derive(Drop)]
pub struct Pool {
    free: BinaryHeap<Reverse<u32>>,
    size: u32,
}

impl Model for Pool {
    ghost use Rattle.chunk_pool.specs.Numbers.{Numbers, numbers_code};

    ghost Value = { Numbers };

    ghost coded = { numbers_code };

    ghost use Rattle.chunk_pool.specs.Heaps.{numbers_of, IsKept};

    ghost view = { numbers_of };

    ghost invariant = { IsKept };
}

impl Pool {
    /// All numbers below n are free.
    pub fn new(alloc: Global, n: u32) -> Result<Pool, AllocError>
        ensures { IfOk result (λ pool. pool ≡ all_free n) }
    {
        let mut free = BinaryHeap::with_capacity(alloc, n as usize)?;
        for number in 0..n {
            free.push(Reverse(number))?;
        }
        Ok(Pool { free, size: n })
    }

    /// How many numbers are free.
    pub fn free(&self) -> u32
        ensures count { result ≡ set.len self.now.free }
        ensures few { result ≤ self.now.size }
    {
        self.free.len() as u32
    }

    /// The least free number, which is then no longer free. None where none is free.
    pub fn take(&mut self) -> Option<u32>
        ensures least { MatchOption result (self.old.free ≡ set.empty) (IsLeastFree self.old) }
        ensures after { MatchOption result (self.new ≡ self.old) (λ k. self.new ≡ without self.old k) }
        ensures below { MatchOption result (set.len self.old.free ≡ 0) (λ k. k < self.old.size) }
    {
        let Reverse(number) = self.free.pop()?;
        Some(number)
    }

    /// Makes a number free again.
    pub fn give(&mut self, id: u32)
        requires below { id < self.old.size }
        requires taken { ¬ (IsFree self.old id) }
        ensures { self.new ≡ with_free self.old id }
    {
        let Ok(()) = self.free.push(Reverse(id)) else {
            unreachable!()
        };
    }

    /// Makes numbers free again that were taken, each once.
    pub fn give_all(&mut self, ids: &[u32])
        requires below { (i k : ℕ) → slice_get ids.now i ≡ Some k → k < self.old.size }
        requires taken { (i k : ℕ) → slice_get ids.now i ≡ Some k → ¬ (IsFree self.old k) }
        requires apart { (i j k : ℕ) → slice_get ids.now i ≡ Some k → slice_get ids.now j ≡ Some k → i ≡ j }
        ensures after { self.new ≡ with_all_free self.old ids.now }
        ensures count { set.len self.new.free ≡ set.len self.old.free + length ids.now }
    {
        for id in ids {
            self.give(*id);
        }
    }
}
