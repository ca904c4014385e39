ghost use Rattle.std.specs.Prelude.{◌≡◌, ◌==◌, ◌<◌, slice_index_or, [], ◌∷◌, ◌++◌, false, true, length, map, All, Some, IfOk, OnOk, OnErr};
ghost use Rattle.std.specs.Option.{option_copied, option_map};
ghost use Rattle.col_blocks.specs.Pages.{rows_by, rows_of_page, columns_of, blocks_of, with_column, found_by, has_column, restricted, IsEven};

use crate::block::Block;
use esql_types::{ColId, Seq};
use std::alloc::{AllocError, Global};
use std::rc::Rc;

/// Rows that are kept by columns: a block, which other pages may share, for each column number.
#[derive(Debug, Drop)]
pub struct Page {
    pub rows: usize,
    pub columns: Seq<ColId>,
    pub blocks: Seq<Rc<Block>>,
}

impl Page {
    /// A page of as many rows without a column. Takes no memory.
    pub fn new(alloc: Global, rows: usize) -> Page
        ensures rows { result.rows ≡ rows }
        ensures columns { result.columns ≡ [] }
        ensures even { IsEven result }
    {
        Page {
            rows,
            columns: Seq::new(alloc),
            blocks: Seq::new(alloc),
        }
    }

    /// Adds a column: a block for a number that has none yet. Where memory is refused the page may no longer be used.
    pub fn put(&mut self, id: ColId, block: Rc<Block>) -> Result<(), AllocError>
        requires even { IsEven self.old }
        requires fits { length block.value.cells ≡ self.old.rows }
        requires new { has_column self.old.columns id.0 ≡ false }
        ensures even { OnOk result (IsEven self.new) }
        ensures size { self.new.rows ≡ self.old.rows }
        ensures columns { OnOk result (self.new.columns ≡ self.old.columns ++ id ∷ []) }
        ensures rows { OnOk result (rows_of_page self.new ≡ rows_by self.old.rows (with_column (columns_of self.old) id.0 block.value.cells)) }
    {
        self.columns.push(id)?;
        self.blocks.push(block)?;
        Ok(())
    }

    /// The block of a column number, or `None` exactly where the page has no such column. Takes no memory.
    pub fn block(&self, id: ColId) -> Option<&Rc<Block>>
        requires { IsEven self.now }
        ensures { option_map (λ rc. rc.value) (option_copied result) ≡ found_by self.now.columns (blocks_of self.now) id.0 }
    {
        for place in 0..self.columns.len() {
            if is_column(self.columns.as_slice(), place, id) {
                return self.blocks.at(place);
            }
        }
        None
    }

    /// The block of a column that the page has.
    fn block_there(&self, id: ColId) -> &Rc<Block>
        requires even { IsEven self.now }
        requires there { has_column self.now.columns id.0 ≡ true }
        ensures { Some result.now.value ≡ found_by self.now.columns (blocks_of self.now) id.0 }
    {
        match self.block(id) {
            Some(block) => block,
            None => unreachable!(),
        }
    }

    /// The page of the columns of some numbers, in their order. It shares the blocks.
    pub fn project(&self, alloc: Global, ids: &Seq<ColId>) -> Result<Page, AllocError>
        requires even { IsEven self.now }
        requires there { All (λ id. has_column self.now.columns id.0 ≡ true) ids.now }
        ensures even { IfOk result IsEven }
        ensures columns { IfOk result (λ page. page.columns ≡ ids.now) }
        ensures blocks { IfOk result (λ page. map Some (blocks_of page) ≡ map (λ id. found_by self.now.columns (blocks_of self.now) id.0) ids.now) }
        ensures rows { IfOk result (λ page. rows_of_page page ≡ map (restricted ids.now) (rows_of_page self.now)) }
    {
        let mut columns = Vec::new(alloc);
        let mut blocks = Vec::new(alloc);
        for id in ids.as_slice() {
            columns.push(*id)?;
            blocks.push(self.block_there(*id).clone()?)?;
        }
        Ok(Page {
            rows: self.rows,
            columns: Seq::from_vec(columns),
            blocks: Seq::from_vec(blocks),
        })
    }
}

fn is_column(columns: &[ColId], place: usize, id: ColId) -> bool
    requires { place < length columns.now }
    ensures { result ≡ ((slice_index_or columns.now place id).0 == id.0) }
{
    columns[place].0 == id.0
}
