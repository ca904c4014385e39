use esql_types::{Cell, Column, Seq};
use warn_log::Log;

/// What a query answers: its columns, its rows with a cell for each of them, and the log of what failed on the way.
#[derive(Drop)]
pub struct Answer {
    pub columns: Seq<Column>,
    pub rows: Seq<Seq<Cell>>,
    pub log: Log,
}
