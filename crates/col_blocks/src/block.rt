ghost use Rattle.std.specs.Prelude.{◌≡◌, [], ◌<◌, length, replicate, IfOk, IfSome, option_map, slice_get, slice_index_or};
ghost use Rattle.std.specs.Option.{option_copied};
ghost use Rattle.esql_types.specs.Values.{kind_of_value};
ghost use Rattle.col_blocks.specs.Cells.{IsOfKind, AreOfKind};
ghost use Rattle.col_blocks.specs.Rows.{cells_of, form_of, RowsFit};
ghost use Rattle.col_blocks.specs.Seen.{ints_seen, longs_seen, valid_seen};
ghost use Rattle.col_blocks.specs.Stored.{value_read};

use crate::ends::begin_of;
use crate::form::BlockForm;
use crate::rows::Rows;
use crate::values::{owned, read_at};
use bit_masks::Mask;
use esql_types::{Cell, Kind, ValueRef};
use std::alloc::{AllocError, Global};
use std::marker::Model;

/// A column of a page: a kind, and for each row a cell whose values have that kind.
///
/// Contracts see it as its kind, its form and the list of its cells. Only `form`, `ints`, `longs` and `valid` tell one
/// form of the same cells from another.
#[derive(Debug, Drop)]
pub struct Block {
    kind: Kind,
    rows: Rows,
}

impl Model for Block {
    ghost use Rattle.col_blocks.specs.Seen.{BlockSeen};

    ghost Value = { BlockSeen };

    ghost use Rattle.col_blocks.specs.Rows.{cells_of, form_of, RowsFit};

    ghost view = { λ b. record { kind = b.kind; form = form_of b.rows; cells = cells_of b.rows } };

    ghost invariant = { λ b. RowsFit b.kind b.rows };
}

impl Block {
    /// The block of these rows.
    pub(crate) fn of_rows(kind: Kind, rows: Rows) -> Block
        requires { RowsFit kind rows }
        ensures { result ≡ record { kind = kind; form = form_of rows; cells = cells_of rows } }
    {
        Block { kind, rows }
    }

    /// The block of as many rows, each of which has the cell. Takes no memory.
    pub fn constant(cell: Cell, kind: Kind, len: usize) -> Block
        requires { IsOfKind kind cell }
        ensures kind { result.kind ≡ kind }
        ensures form { result.form ≡ BlockForm.Constant }
        ensures cells { result.cells ≡ replicate len cell }
    {
        Block {
            kind,
            rows: Rows::Constant { cell, len },
        }
    }

    pub(crate) fn rows(&self) -> &Rows
        ensures fit { RowsFit self.now.kind result.now }
        ensures cells { cells_of result.now ≡ self.now.cells }
    {
        &self.rows
    }

    /// How many rows there are.
    pub fn len(&self) -> usize
        ensures { result ≡ length self.now.cells }
    {
        match &self.rows {
            Rows::Constant { cell: _, len } => *len,
            Rows::Vector { values } => values.len(),
            Rows::Nullable { values, valid: _ } => values.len(),
            Rows::Multi { values: _, ends } => ends.len(),
        }
    }

    /// The kind, which each value of the cells has.
    pub fn kind(&self) -> Kind
        ensures value { result ≡ self.now.kind }
        ensures of_kind { AreOfKind result self.now.cells }
    {
        let _rows = &self.rows;
        self.kind
    }

    pub fn form(&self) -> BlockForm
        ensures { result ≡ self.now.form }
    {
        match &self.rows {
            Rows::Constant { cell: _, len: _ } => BlockForm::Constant,
            Rows::Vector { values: _ } => BlockForm::Vector,
            Rows::Nullable {
                values: _,
                valid: _,
            } => BlockForm::Nullable,
            Rows::Multi { values: _, ends: _ } => BlockForm::Multi,
        }
    }

    /// How many values the cell of a row has. Takes no memory.
    pub fn count_at(&self, row: usize) -> usize
        requires { row < length self.now.cells }
        ensures { result ≡ length (slice_index_or self.now.cells row []) }
    {
        match &self.rows {
            Rows::Constant { cell, len: _ } => cell.len(),
            Rows::Vector { values: _ } => 1,
            Rows::Nullable { values: _, valid } => usize::from(valid.get(row)),
            Rows::Multi { values: _, ends } => ends[row] - begin_of(ends.as_slice(), row),
        }
    }

    /// The value at a place of the cell of a row, or `None` exactly where the cell has no such place. Takes no memory.
    pub fn value_at(&self, row: usize, place: usize) -> Option<ValueRef<'_>>
        requires { row < length self.now.cells }
        ensures value { option_map value_read result ≡ slice_get (slice_index_or self.now.cells row []) place }
        ensures kind { IfSome result (λ value. kind_of_value (value_read value) ≡ self.now.kind) }
    {
        match &self.rows {
            Rows::Constant { cell, len: _ } => read_at(cell, place),
            Rows::Vector { values } => {
                if place == 0 {
                    Some(values.at(row))
                } else {
                    None
                }
            }
            Rows::Nullable { values, valid } => {
                if place == 0 && valid.get(row) {
                    Some(values.at(row))
                } else {
                    None
                }
            }
            Rows::Multi { values, ends } => {
                let begin = begin_of(ends.as_slice(), row);
                if place < ends[row] - begin {
                    Some(values.at(begin + place))
                } else {
                    None
                }
            }
        }
    }

    /// A copy of the cell of a row.
    pub fn cell_at(&self, alloc: Global, row: usize) -> Result<Cell, AllocError>
        requires { row < length self.now.cells }
        ensures { IfOk result (λ cell. cell ≡ slice_index_or self.now.cells row []) }
    {
        let mut cell = Cell::null(alloc);
        for place in 0..self.count_at(row) {
            if let Some(value) = self.value_at(row, place) {
                cell.push(owned(alloc, value)?)?;
            }
        }
        Ok(cell)
    }

    /// The numbers of a block of integers in the form Vector or Nullable, one for each row and 0 at a null; `None`
    /// exactly for another kind or form. Takes no memory.
    pub fn ints(&self) -> Option<&[i32]>
        ensures { option_copied result ≡ ints_seen self.now }
    {
        match &self.rows {
            Rows::Vector { values } => values.ints(),
            Rows::Nullable { values, valid: _ } => values.ints(),
            _ => None,
        }
    }

    /// The numbers of a block of longs, as `ints`.
    pub fn longs(&self) -> Option<&[i64]>
        ensures { option_copied result ≡ longs_seen self.now }
    {
        match &self.rows {
            Rows::Vector { values } => values.longs(),
            Rows::Nullable { values, valid: _ } => values.longs(),
            _ => None,
        }
    }

    /// Which rows of a block in the form Nullable have a value; `None` exactly for another form. Takes no memory.
    pub fn valid(&self) -> Option<&Mask>
        ensures { option_copied result ≡ valid_seen self.now }
    {
        match &self.rows {
            Rows::Nullable { values: _, valid } => Some(valid),
            _ => None,
        }
    }
}
