ghost use Rattle.std.specs.Prelude.{◌≡◌, ◌≢◌, ℕ, Some, None, slice_get, IfOk, IfSome};
ghost use Rattle.table_columns.specs.Held.{IsHeld, held, held_cell};
ghost use Rattle.table_columns.specs.Sparse.{RiseBetween};

use col_blocks::Block;
use esql_types::{Cell, Seq};
use std::alloc::{AllocError, Global};

/// A column of a table.
#[derive(Debug, Drop)]
pub struct HeldColumn {
    /// The numbers of the rows whose cells are kept.
    pub numbers: Seq<u32>,
    pub cells: Block,
}

impl HeldColumn {
    /// A copy of the cell of a row.
    pub fn cell(&self, alloc: Global, row: u32) -> Result<Cell, AllocError>
        requires { (count : ℕ) × IsHeld count (held self.now) }
        ensures { IfOk result (λ cell. cell ≡ held_cell row (held self.now)) }
    {
        match place_of(self.numbers.as_slice(), row) {
            Some(place) => self.cells.cell_at(alloc, place),
            None => Ok(Cell::null(alloc)),
        }
    }
}

/// The place of a number among numbers that rise. It takes no search where all numbers up to it are there.
fn place_of(numbers: &[u32], number: u32) -> Option<usize>
    requires { (to : ℕ) × RiseBetween 0 numbers.now to }
    ensures found { IfSome result (λ place. slice_get numbers.now place ≡ Some number) }
    ensures absent { result ≡ None → (place : ℕ) → slice_get numbers.now place ≢ Some number }
{
    let place = number as usize;
    if place < numbers.len() && numbers[place] == number {
        return Some(place);
    }
    numbers.binary_search(&number).ok()
}
