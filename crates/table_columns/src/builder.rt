ghost use Rattle.std.specs.Prelude.{◌≡◌, [], ◌∷◌, ◌++◌, ◌<◌, length, map, IfOk};
ghost use Rattle.table_columns.specs.Held.{AreClosed, all_grown, all_held};
ghost use Rattle.table_columns.specs.Placing.{filled, placed};
ghost use Rattle.table_columns.specs.Tables.{AreCells, ArePresent, row_of};

use crate::growing::GrowingColumn;
use crate::held::HeldColumn;
use crate::present::PresentCell;
use crate::table::TableColumns;
use esql_types::{Cell, Kind};
use std::alloc::{AllocError, Global};
use std::marker::Model;

/// How many rows a table has at most.
pub const MAX_ROWS: u32 = 4_294_967_295;

/// A table that is being built, row by row.
///
/// Contracts see it as the kinds of its columns and the list of its rows so far.
#[derive(Debug, Drop)]
pub struct TableBuilder {
    alloc: Global,
    count: u32,
    columns: Vec<GrowingColumn>,
}

impl Model for TableBuilder {
    ghost use Rattle.table_columns.specs.Tables.{TableSeen};

    ghost Value = { TableSeen };

    ghost use Rattle.table_columns.specs.Held.{AreClosed, AreHeld, all_grown, table_of};

    ghost view = { λ t. table_of t.count (all_grown t.columns.items) };

    ghost invariant = { λ t. AreClosed t.columns.items × AreHeld t.count (all_grown t.columns.items) };
}

impl TableBuilder {
    /// A table without a row, with a column for each kind.
    pub fn new(alloc: Global, kinds: &[Kind]) -> Result<TableBuilder, AllocError>
        ensures { IfOk result (λ table. table ≡ record { kinds = kinds.now; rows = [] }) }
    {
        let mut columns = Vec::with_capacity(alloc, kinds.len())?;
        for kind in kinds {
            columns.push(GrowingColumn::new(alloc, *kind))?;
        }
        Ok(TableBuilder {
            alloc,
            count: 0,
            columns,
        })
    }

    /// Adds a row, which is given by the cells that it has in rising columns; the others are null. Takes no time for those.
    pub fn push_row(self, present: &[PresentCell]) -> Result<TableBuilder, AllocError>
        requires room { length self.rows < MAX_ROWS }
        requires present { ArePresent self.kinds present.now }
        ensures { IfOk result (λ table. table ≡ record self { rows = self.rows ++ row_of (length self.kinds) present.now ∷ [] }) }
    {
        let TableBuilder {
            alloc,
            count,
            columns,
        } = self;
        Ok(TableBuilder {
            alloc,
            count: count + 1,
            columns: place_cells(columns, count, present)?,
        })
    }

    /// Adds a row, which is given by all of its cells. Those that are null take no memory.
    pub fn push_cells(self, cells: &[Cell]) -> Result<TableBuilder, AllocError>
        requires room { length self.rows < MAX_ROWS }
        requires cells { AreCells self.kinds cells.now }
        ensures { IfOk result (λ table. table ≡ record self { rows = self.rows ++ cells.now ∷ [] }) }
    {
        let TableBuilder {
            alloc,
            count,
            columns,
        } = self;
        Ok(TableBuilder {
            alloc,
            count: count + 1,
            columns: fill_cells(columns, count, cells)?,
        })
    }

    /// The table of the rows.
    pub fn finish(self) -> Result<TableColumns, AllocError>
        ensures { IfOk result (λ table. table ≡ self) }
    {
        let TableBuilder {
            alloc,
            count,
            columns,
        } = self;
        Ok(TableColumns::of_columns(alloc, count, finished(alloc, columns)?))
    }
}

/// The columns with the present cells of one row more.
fn place_cells(
    mut columns: Vec<GrowingColumn>,
    number: u32,
    present: &[PresentCell],
) -> Result<Vec<GrowingColumn>, AllocError>
    requires closed { AreClosed columns.items }
    requires present { ArePresent (map (λ column. column.kind) (all_grown columns.items)) present.now }
    ensures { IfOk result (λ after. after.items ≡ placed number present.now columns.items) }
{
    for cell in present {
        columns[cell.column as usize].push(number, &cell.cell)?;
    }
    Ok(columns)
}

/// The columns with the cells of one row more.
fn fill_cells(
    mut columns: Vec<GrowingColumn>,
    number: u32,
    cells: &[Cell],
) -> Result<Vec<GrowingColumn>, AllocError>
    requires closed { AreClosed columns.items }
    requires cells { AreCells (map (λ column. column.kind) (all_grown columns.items)) cells.now }
    ensures { IfOk result (λ after. after.items ≡ filled number cells.now columns.items) }
{
    for place in 0..cells.len() {
        columns[place].push_filled(number, &cells[place])?;
    }
    Ok(columns)
}

/// The columns, each as it is kept from then on.
fn finished(alloc: Global, columns: Vec<GrowingColumn>) -> Result<Vec<HeldColumn>, AllocError>
    requires { AreClosed columns.items }
    ensures { IfOk result (λ kept. all_held kept.items ≡ all_grown columns.items) }
{
    let mut kept = Vec::with_capacity(alloc, columns.len())?;
    for column in columns {
        kept.push(column.finish()?)?;
    }
    Ok(kept)
}
