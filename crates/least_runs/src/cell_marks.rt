ghost use Rattle.std.specs.Prelude.{◌≡◌, ◌≢◌, ◌<◌, ◌≤◌, ◌^◌, ◌*◌, ◌/◌, ◌+◌, ◌⊎◌, ℕ, [], All, IfOk, length, slice_index};
ghost use Rattle.octree_model.specs.Numbers.{has, with_number};
ghost use Rattle.least_runs.specs.Marks.{cells_of_words};

use octree_plain::push_marked_cells;
use std::alloc::{AllocError, Global};
use std::marker::Model;

/// How many words have a bit for each of the 2^21 cells of a node.
const WORDS: usize = 32768;
/// How many words have a bit for each of these words.
const UPPER_WORDS: usize = 512;

/// A set of cells of a node, seen as the ascending list of their numbers. To list few cells it looks at few
/// words.
#[derive(Drop)]
pub struct CellMarks {
    /// A bit for each cell.
    words: Vec<u64>,
    /// A bit for each of these words, set where that word is not 0.
    upper: Vec<u64>,
}

impl Model for CellMarks {
    ghost use Rattle.std.specs.Prelude.{List, ℕ};
    ghost use Rattle.octree_plain.specs.CellSets.{marked_cells};
    ghost use Rattle.least_runs.specs.Marks.{AreMarks};

    ghost Value = { List ℕ };

    ghost view = { λ m. marked_cells m.words.items };

    ghost invariant = { λ m. AreMarks m.words.items m.upper.items };
}

impl CellMarks {
    /// The empty set.
    pub fn new(alloc: Global) -> Result<CellMarks, AllocError>
        ensures { IfOk result (λ marks. marks ≡ []) }
    {
        Ok(CellMarks {
            words: vec![in alloc; 0; WORDS]?,
            upper: vec![in alloc; 0; UPPER_WORDS]?,
        })
    }

    /// Whether the cell is in the set. No set has more than 2^21 cells.
    pub fn has(&self, cell: u32) -> bool
        requires { cell < 2 ^ 21 }
        ensures value { result ≡ has cell self.now }
        ensures few { length self.now ≤ 2 ^ 21 }
    {
        self.words[cell as usize / 64] & (1u64 << (cell % 64)) != 0
    }

    /// Puts a cell into the set.
    pub fn insert(&mut self, cell: u32)
        requires { cell < 2 ^ 21 }
        ensures { self.new ≡ with_number cell self.old }
    {
        let at = cell as usize / 64;
        let word = &mut self.words[at];
        *word |= 1u64 << (cell % 64);
        let above = &mut self.upper[at / 64];
        *above |= 1u64 << (at % 64);
    }

    /// The cells, ascending, in a list with room for so many.
    pub fn list(&self, alloc: Global, room: usize) -> Result<Vec<u32>, AllocError>
        ensures { IfOk result (λ cells. cells.items ≡ self.now) }
    {
        let mut touched = Vec::new(alloc);
        push_marked_cells(&mut touched, 0, &self.upper)?;
        cells_in(alloc, &self.words, &touched, room)
    }

    /// Empties the set. It takes no memory, and looks at few words where the set has few cells.
    pub fn empty(&mut self)
        ensures { self.new ≡ [] }
    {
        clear_below(&mut self.words, &self.upper);
        for word in self.upper.iter_mut() {
            *word = 0;
        }
    }
}

/// The cells whose bits are set in these of the words, one word after the other.
fn cells_in(
    alloc: Global,
    words: &[u64],
    touched: &[u32],
    room: usize,
) -> Result<Vec<u32>, AllocError>
    requires within { All (λ w. w < length words.now) touched.now }
    requires few { length words.now ≤ 2 ^ 26 }
    ensures { IfOk result (λ cells. cells.items ≡ cells_of_words words.now touched.now) }
{
    let mut cells = Vec::with_capacity(alloc, room)?;
    for word in touched {
        let at = *word as usize;
        push_marked_cells(&mut cells, 64 * *word, &words[at..at + 1])?;
    }
    Ok(cells)
}

/// Sets all words to 0, of which those under an upper word that is 0 are 0 already.
fn clear_below(words: &mut [u64], upper: &[u64])
    requires long { length words.old ≡ 64 * length upper.now }
    requires few { length upper.now ≤ 2 ^ 26 }
    requires known { (w : ℕ) → slice_index words.old w ≢ 0 → slice_index upper.now (w / 64) ≢ 0 }
    ensures { (w : ℕ) → slice_index words.new w ≡ 0 }
{
    for (k, above) in upper.iter().enumerate() {
        if *above != 0 {
            clear_block(words, 64 * k);
        }
    }
}

/// Sets 64 words to 0.
fn clear_block(words: &mut [u64], first: usize)
    requires { first + 64 ≤ length words.old }
    ensures block { (w : ℕ) → first ≤ w → w < first + 64 → slice_index words.new w ≡ 0 }
    ensures rest { (w : ℕ) → (slice_index words.new w ≡ 0) ⊎ (slice_index words.new w ≡ slice_index words.old w) }
{
    for w in first..first + 64 {
        words[w] = 0;
    }
}
