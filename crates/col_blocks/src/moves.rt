// Blocks that are made of the rows of another.
ghost use Rattle.std.specs.Prelude.{true, ◌≡◌, ◌+◌, ◌<◌, ◌≤◌, [], ◌∷◌, ◌++◌, if◌then◌else◌, length, take, drop, count_by, map, IfOk, OnOk, slice_index_or};
ghost use Rattle.col_blocks.specs.Kept.{kept_by, scattered};

use crate::block::Block;
use crate::builder::Builder;
use crate::kept::{kept_values, part_of_values};
use crate::rows::Rows;
use bit_masks::Mask;
use std::alloc::{AllocError, Global};

impl Block {
    /// The rows at the set places of the mask.
    pub fn filter(&self, alloc: Global, keep: &Mask) -> Result<Block, AllocError>
        requires { length keep.now ≡ length self.now.cells }
        ensures kind { IfOk result (λ block. block.kind ≡ self.now.kind) }
        ensures cells { IfOk result (λ block. block.cells ≡ kept_by keep.now self.now.cells) }
    {
        let kind = self.kind();
        match self.rows() {
            Rows::Constant { cell, len: _ } => Ok(Block::constant(
                cell.copy()?,
                kind,
                keep.count(),
            )),
            Rows::Vector { values } => Ok(Block::of_rows(
                kind,
                Rows::Vector {
                    values: kept_values(alloc, values, keep)?,
                },
            )),
            _ => kept_rows(alloc, self, keep),
        }
    }

    /// The `len` rows from `start` on.
    pub fn slice(&self, alloc: Global, start: usize, len: usize) -> Result<Block, AllocError>
        requires { start + len ≤ length self.now.cells }
        ensures kind { IfOk result (λ block. block.kind ≡ self.now.kind) }
        ensures cells { IfOk result (λ block. block.cells ≡ take len (drop start self.now.cells)) }
    {
        let kind = self.kind();
        match self.rows() {
            Rows::Constant { cell, len: _ } => Ok(Block::constant(cell.copy()?, kind, len)),
            Rows::Vector { values } => Ok(Block::of_rows(
                kind,
                Rows::Vector {
                    values: part_of_values(alloc, values, start, len)?,
                },
            )),
            _ => part_of_rows(alloc, self, start, len),
        }
    }

    /// The rows at the set places of the mask in order, and nulls at the others.
    pub fn scatter(&self, alloc: Global, places: &Mask) -> Result<Block, AllocError>
        requires { count_by (λ x. x) places.now ≡ length self.now.cells }
        ensures kind { IfOk result (λ block. block.kind ≡ self.now.kind) }
        ensures cells { IfOk result (λ block. block.cells ≡ scattered places.now self.now.cells) }
    {
        let mut builder = Builder::new(alloc, self.kind());
        let mut taken = 0;
        for place in 0..places.len() {
            taken = push_scattered(&mut builder, self, places.get(place), taken)?;
        }
        builder.finish()
    }
}

/// Adds the next row of the block where the place is set, else a null; gives how many rows are taken then.
fn push_scattered(
    builder: &mut Builder,
    block: &Block,
    set: bool,
    taken: usize,
) -> Result<usize, AllocError>
    requires kind { block.now.kind ≡ builder.old.kind }
    requires row { set ≡ true → taken < length block.now.cells }
    requires closed { builder.old.row ≡ [] }
    ensures taken { IfOk result (λ count. count ≡ taken + (if set then 1 else 0)) }
    ensures builder { OnOk result (builder.new ≡ record builder.old {
      cells = builder.old.cells ++ (if set then slice_index_or block.now.cells taken [] else []) ∷ [];
    }) }
{
    if set {
        // What bounds `taken + 1`.
        let _rows = block.len();
        builder.push_row(block, taken)?;
        return Ok(taken + 1);
    }
    builder.push_null()?;
    Ok(taken)
}

fn kept_rows(alloc: Global, block: &Block, keep: &Mask) -> Result<Block, AllocError>
    requires { length keep.now ≡ length block.now.cells }
    ensures kind { IfOk result (λ new. new.kind ≡ block.now.kind) }
    ensures cells { IfOk result (λ new. new.cells ≡ kept_by keep.now block.now.cells) }
{
    let mut builder = Builder::new(alloc, block.kind());
    for row in 0..keep.len() {
        push_row_if(&mut builder, keep.get(row), block, row)?;
    }
    builder.finish()
}

fn push_row_if(
    builder: &mut Builder,
    keep: bool,
    block: &Block,
    row: usize,
) -> Result<(), AllocError>
    requires kind { block.now.kind ≡ builder.old.kind }
    requires row { row < length block.now.cells }
    requires closed { builder.old.row ≡ [] }
    ensures { OnOk result (builder.new ≡ record builder.old {
      cells = builder.old.cells ++ (if keep then slice_index_or block.now.cells row [] ∷ [] else []);
    }) }
{
    if keep {
        builder.push_row(block, row)?;
    }
    Ok(())
}

fn part_of_rows(alloc: Global, block: &Block, start: usize, len: usize) -> Result<Block, AllocError>
    requires { start + len ≤ length block.now.cells }
    ensures kind { IfOk result (λ new. new.kind ≡ block.now.kind) }
    ensures cells { IfOk result (λ new. new.cells ≡ take len (drop start block.now.cells)) }
{
    let mut builder = Builder::new(alloc, block.kind());
    // What bounds `start + row`.
    let _rows = block.len();
    for row in 0..len {
        builder.push_row(block, start + row)?;
    }
    builder.finish()
}
