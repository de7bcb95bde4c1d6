ghost use Rattle.std.specs.Prelude.{◌≡◌, ◌<◌, ◌^◌, [], ◌++◌, All, IsTrue, IfOk, OnOk, OnErr, not, map, length, vec_items};
ghost use Rattle.octree_model.specs.Numbers.{has, with_number, ascending};
ghost use Rattle.occupancy_grid.specs.Pages.{page_of, marked_cells, made_pages, HasNoPages, IsMadeOf};
ghost use Rattle.occupancy_grid.specs.Grids.{AddsSomePages};

use octree_plain::push_marked_cells;
use std::alloc::{AllocError, Global};
use std::marker::Model;

/// How many pages a grid has.
const PAGES: usize = 64;
/// How many cells stand in a page.
const PAGE_CELLS: usize = 32768;
/// How many words a page has.
const PAGE_WORDS: usize = 512;

/// A set of the 2^21 cells of an inner node. A cell is put in only where its page is made. Page `p` is
/// that of the 32,768 cells from `32768 * p` on.
#[derive(Drop)]
pub struct Grid {
    /// The words of each page, none where the page is not made.
    pages: Vec<Vec<u64>>,
    /// How many cells the set has.
    count: u32,
}

impl Model for Grid {
    ghost use Rattle.std.specs.Prelude.{map, vec_items};
    ghost use Rattle.occupancy_grid.specs.Grids.{GridValue};
    ghost use Rattle.occupancy_grid.specs.Pages.{marked_cells, made_pages, IsPaged};

    ghost Value = { GridValue };

    ghost view = { λ g. record { cells = marked_cells (map vec_items g.pages.items); pages = made_pages (map vec_items g.pages.items) } };

    ghost invariant = { λ g. IsPaged (map vec_items g.pages.items) g.count };
}

impl Grid {
    /// The empty set, with no page made.
    pub fn new(alloc: Global) -> Result<Grid, AllocError>
        ensures { IfOk result (λ grid. grid ≡ record { cells = []; pages = [] }) }
    {
        Ok(Grid {
            pages: unmade_pages(alloc)?,
            count: 0,
        })
    }

    /// Makes the pages of the cells, so that they can be put in. Where memory is wanting, some of these
    /// pages may be there.
    pub fn reserve(&mut self, cells: &[u32]) -> Result<(), AllocError>
        requires { All (λ z. z < 2 ^ 21) cells.now }
        ensures cells { self.new.cells ≡ self.old.cells }
        ensures pages { OnOk result (self.new.pages ≡ ascending (self.old.pages ++ map page_of cells.now)) }
        ensures refused { OnErr result (AddsSomePages self.old self.new cells.now) }
    {
        for cell in cells {
            make_page(&mut self.pages[*cell as usize / PAGE_CELLS])?;
        }
        Ok(())
    }

    /// Whether the page of a cell is made.
    pub fn has_page(&self, cell: u32) -> bool
        requires { cell < 2 ^ 21 }
        ensures { result ≡ has (page_of cell) self.now.pages }
    {
        !self.pages[cell as usize / PAGE_CELLS].is_empty()
    }

    /// Puts a cell into the set. Answers whether it was not there before.
    pub fn set(&mut self, cell: u32) -> bool
        requires below { cell < 2 ^ 21 }
        requires page { IsTrue (has (page_of cell) self.old.pages) }
        ensures new { result ≡ not (has cell self.old.cells) }
        ensures set { self.new ≡ record self.old { cells = with_number cell self.old.cells } }
    {
        let page = &mut self.pages[cell as usize / PAGE_CELLS];
        let word = &mut page[cell as usize / 64 % PAGE_WORDS];
        let bit = 1u64 << (cell % 64);
        let is_new = *word & bit == 0;
        *word |= bit;
        self.count += u32::from(is_new);
        is_new
    }

    /// Whether a cell is in the set.
    pub fn test(&self, cell: u32) -> bool
        requires { cell < 2 ^ 21 }
        ensures { result ≡ has cell self.now.cells }
    {
        let page = &self.pages[cell as usize / PAGE_CELLS];
        if page.is_empty() {
            return false;
        }
        page[cell as usize / 64 % PAGE_WORDS] & (1u64 << (cell % 64)) != 0
    }

    /// How many cells the set has.
    pub fn count(&self) -> u32
        ensures { result ≡ length self.now.cells }
    {
        self.count
    }

    /// The cells, ascending.
    pub fn cells(&self) -> Result<Vec<u32>, AllocError>
        ensures { IfOk result (λ cells. cells.items ≡ self.now.cells) }
    {
        let mut cells = Vec::with_capacity(*self.pages.allocator(), self.count as usize)?;
        for (p, page) in self.pages.iter().enumerate() {
            push_marked_cells(&mut cells, (PAGE_CELLS * p) as u32, page)?;
        }
        Ok(cells)
    }
}

/// The pages of a grid, none of them made.
fn unmade_pages(alloc: Global) -> Result<Vec<Vec<u64>>, AllocError>
    ensures { IfOk result (λ pages. HasNoPages (map vec_items pages.items)) }
{
    let mut pages = Vec::with_capacity(alloc, PAGES)?;
    for _page in 0..PAGES {
        pages.push(Vec::new(alloc))?;
    }
    Ok(pages)
}

/// Gives a page its words, where it has none yet.
fn make_page(words: &mut Vec<u64>) -> Result<(), AllocError>
    ensures made { OnOk result (IsMadeOf words.old.items words.new.items) }
    ensures refused { OnErr result (words.new.items ≡ words.old.items) }
{
    if words.is_empty() {
        words.resize(PAGE_WORDS, 0)?;
    }
    Ok(())
}
