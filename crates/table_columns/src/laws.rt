//! Laws of tables that are kept in columns.

ghost use Rattle.table_columns.specs.Laws.{RowsAreWide, PresentCellsStand, OthersAreNull};

/// A law: a row has a cell for each column.
pub fn rows_are_wide()
    ensures { RowsAreWide }
{}

/// A law: each present cell of a row stands in its column.
pub fn present_cells_stand()
    ensures { PresentCellsStand }
{}

/// A law: a column of a row in which no cell is present is null.
pub fn others_are_null()
    ensures { OthersAreNull }
{}
