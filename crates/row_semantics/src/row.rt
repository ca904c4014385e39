use esql_types::{Cell, Text};

/// A cell of a row, with the name of its column.
#[derive(Debug, Drop)]
pub struct NamedCell {
    pub name: Text,
    pub cell: Cell,
}
