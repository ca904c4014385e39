ghost use Rattle.std.specs.Prelude.{◌≡◌, ◌≤◌, Some, length, All, IfOk, IsSome};
ghost use Rattle.table_columns.specs.Held.{AreHeld, all_held, table_of};
ghost use Rattle.table_columns.specs.Tables.{AreCells, cell_in};

use crate::builder::{MAX_ROWS, TableBuilder};
use crate::held::HeldColumn;
use esql_types::{Cell, Kind, Seq};
use std::alloc::{AllocError, Global};
use std::marker::Model;

/// The rows of a table, kept in columns.
///
/// Contracts see it as the kinds of its columns and the list of its rows, each with a cell for each column.
#[derive(Debug, Drop)]
pub struct TableColumns {
    alloc: Global,
    count: u32,
    columns: Vec<HeldColumn>,
}

impl Model for TableColumns {
    ghost use Rattle.table_columns.specs.Tables.{TableSeen};

    ghost Value = { TableSeen };

    ghost use Rattle.table_columns.specs.Held.{AreHeld, all_held, table_of};

    ghost view = { λ t. table_of t.count (all_held t.columns.items) };

    ghost invariant = { λ t. AreHeld t.count (all_held t.columns.items) };
}

impl TableColumns {
    /// The table of columns with as many rows.
    pub(crate) fn of_columns(alloc: Global, count: u32, columns: Vec<HeldColumn>) -> TableColumns
        requires { AreHeld count (all_held columns.items) }
        ensures { result ≡ table_of count (all_held columns.items) }
    {
        TableColumns {
            alloc,
            count,
            columns,
        }
    }

    /// The table of these rows, each with a cell for each kind. Copies the cells.
    pub fn from_rows(
        alloc: Global,
        kinds: &[Kind],
        rows: &[Seq<Cell>],
    ) -> Result<TableColumns, AllocError>
        requires few { length rows.now ≤ MAX_ROWS }
        requires cells { All (AreCells kinds.now) rows.now }
        ensures { IfOk result (λ table. table ≡ record { kinds = kinds.now; rows = rows.now }) }
    {
        let mut table = TableBuilder::new(alloc, kinds)?;
        for row in rows {
            table = table.push_cells(row.as_slice())?;
        }
        table.finish()
    }

    /// How many rows there are.
    pub fn rows(&self) -> u64
        ensures { result ≡ length self.now.rows }
    {
        u64::from(self.count)
    }

    /// How many columns there are.
    pub fn width(&self) -> usize
        ensures { result ≡ length self.now.kinds }
    {
        self.columns.len()
    }

    /// A copy of the cell at a row and a column. It takes no search where each row has a cell in the column.
    pub fn cell(&self, row: u64, column: u32) -> Result<Cell, AllocError>
        requires { IsSome (cell_in self.now.rows row column) }
        ensures { IfOk result (λ cell. cell_in self.now.rows row column ≡ Some cell) }
    {
        let _count = self.count;
        self.columns[column as usize].cell(self.alloc, row as u32)
    }
}
