//! Cells that are put into rows, which have them in the order of the column numbers.
ghost use Rattle.std.specs.Prelude.{◌≡◌, ◌<◌, ◌≤◌, ◌∷◌, [], All, drop, OnOk};
ghost use Rattle.stats_groups.specs.Cells.{put_cell, put_cells};

use esql_types::{Cell, ColId, Seq};
use std::alloc::{AllocError, Global};

/// Puts a cell at a place of a row, and null at each place before it that the row does not have yet.
///
/// # Errors
/// Want of memory; some of the nulls may be there then.
#[inline(always)]
pub fn put_cell(
    alloc: Global,
    row: &mut Seq<Cell>,
    place: usize,
    cell: Cell,
) -> Result<(), AllocError>
    ensures { OnOk result (row.new ≡ put_cell row.old place cell) }
{
    if place < row.len() {
        row.replace(place, cell);
        return Ok(());
    }
    for _ in row.len()..place {
        row.push(Cell::null(alloc))?;
    }
    row.push(cell)
}

/// Puts cells at columns, one after another, as far as there are columns.
pub(crate) fn put_cells(
    alloc: Global,
    row: &mut Seq<Cell>,
    columns: &[ColId],
    cells: Vec<Cell>,
) -> Result<(), AllocError>
    ensures { OnOk result (row.new ≡ put_cells row.old columns.now cells.items) }
{
    let mut left = columns;
    for cell in cells {
        put_first(alloc, row, left, cell)?;
        left = behind(left, 1);
    }
    Ok(())
}

/// Puts a cell at the first of columns, if there is one.
#[inline(always)]
pub(crate) fn put_first(
    alloc: Global,
    row: &mut Seq<Cell>,
    columns: &[ColId],
    cell: Cell,
) -> Result<(), AllocError>
    ensures { OnOk result (row.new ≡ put_cells row.old columns.now (cell ∷ [])) }
{
    match columns.first() {
        Some(to) => put_cell(alloc, row, to.0 as usize, cell),
        None => Ok(()),
    }
}

/// The columns behind the first ones.
#[inline(always)]
pub(crate) fn behind(columns: &[ColId], count: usize) -> &[ColId]
    ensures { result.now ≡ drop count columns.now }
{
    if count < columns.len() {
        return &columns[count..];
    }
    &[]
}

/// How many cells a row has at least that has one at each of the columns.
pub(crate) fn width_of(columns: &[ColId]) -> usize
    ensures { All (λ to. to.0 < result) columns.now }
{
    let mut width = 0;
    for to in columns {
        width = width_with(width, *to);
    }
    width
}

/// The least width from one on with which a row has a cell at a column too.
pub fn width_with(width: usize, to: ColId) -> usize
    ensures keeps { width ≤ result }
    ensures has { to.0 < result }
{
    if width <= to.0 as usize {
        return to.0 as usize + 1;
    }
    width
}
