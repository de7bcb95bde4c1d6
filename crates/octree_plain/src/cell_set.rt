ghost use Rattle.std.specs.Prelude.{◌≡◌, ◌+◌, ◌*◌, ◌<◌, ◌≤◌, ◌^◌, [], ◌++◌, map, not, length, slice_index, EachIndex, IfOk, OnOk};
ghost use Rattle.octree_model.specs.Numbers.{has, with_number};
ghost use Rattle.octree_plain.specs.CellSets.{marked_cells, set_bits};

use std::alloc::{AllocError, Global};
use std::marker::Model;

/// How many words have a bit for each of the 2^21 cells of a node.
const WORDS: usize = 32768;

/// A set of cells of a node, seen as the ascending list of their numbers.
#[derive(Drop)]
pub struct CellSet {
    words: Vec<u64>,
}

impl Model for CellSet {
    ghost use Rattle.std.specs.Prelude.{◌≡◌, List, ℕ, length};
    ghost use Rattle.octree_plain.specs.CellSets.{marked_cells};

    ghost Value = { List ℕ };

    ghost view = { λ s. marked_cells s.words.items };

    ghost invariant = { λ s. length s.words.items ≡ 32768 };
}

impl CellSet {
    /// The empty set.
    pub fn new(alloc: Global) -> Result<CellSet, AllocError>
        ensures { IfOk result (λ set. set ≡ []) }
    {
        Ok(CellSet {
            words: vec![in alloc; 0; WORDS]?,
        })
    }

    /// Puts a cell into the set. Answers whether it was not there before. No set has more than 2^21 cells.
    pub fn insert(&mut self, cell: u32) -> bool
        requires { cell < 2 ^ 21 }
        ensures new { result ≡ not (has cell self.old) }
        ensures cells { self.new ≡ with_number cell self.old }
        ensures few { length self.old ≤ 2 ^ 21 }
    {
        let word = &mut self.words[cell as usize / 64];
        let bit = 1u64 << (cell % 64);
        let is_new = *word & bit == 0;
        *word |= bit;
        is_new
    }

    /// The cells, ascending. Where this succeeds the set is empty afterwards.
    pub fn take(&mut self, alloc: Global) -> Result<Vec<u32>, AllocError>
        ensures cells { IfOk result (λ cells. cells.items ≡ self.old) }
        ensures emptied { OnOk result (self.new ≡ []) }
    {
        let mut cells = Vec::new(alloc);
        push_marked_cells(&mut cells, 0, &self.words)?;
        clear(&mut self.words);
        Ok(cells)
    }
}

fn clear(words: &mut [u64])
    ensures { EachIndex words.new (λ k. slice_index words.new k ≡ 0) }
{
    for word in words.iter_mut() {
        *word = 0;
    }
}

/// Appends the cells whose bits are set in the words, ascending, counted from `first`.
pub fn push_marked_cells(cells: &mut Vec<u32>, first: u32, words: &[u64]) -> Result<(), AllocError>
    requires { first + 64 * length words.now ≤ 2 ^ 32 }
    ensures { OnOk result (cells.new.items ≡ cells.old.items ++ map (λ z. first + z) (marked_cells words.now)) }
{
    for (k, word) in words.iter().enumerate() {
        push_set_bits(cells, first + 64 * k as u32, *word)?;
    }
    Ok(())
}

/// Appends the places of the bits that are set in a word, ascending, counted from `first`.
fn push_set_bits(places: &mut Vec<u32>, first: u32, word: u64) -> Result<(), AllocError>
    requires { first + 64 ≤ 2 ^ 32 }
    ensures { OnOk result (places.new.items ≡ places.old.items ++ map (λ b. first + b) (set_bits word)) }
{
    let mut rest = word;
    while rest != 0 {
        let bit = rest.trailing_zeros();
        rest &= !(1u64 << bit);
        places.push(first + bit)?;
    }
    Ok(())
}
