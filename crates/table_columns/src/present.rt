use esql_types::Cell;

/// A cell of a row, with the number of its column.
#[derive(Debug, Drop)]
pub struct PresentCell {
    pub column: u32,
    pub cell: Cell,
}
