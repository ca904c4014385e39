use esql_types::{Seq, Text};

/// What is known of the cells of a column.
#[derive(Clone, Copy, Debug, PartialEq, Eq)]
pub struct Facts {
    /// Each cell has at most so many values; `None` is no bound.
    pub at_most: Option<u32>,
    /// A cell may be null.
    pub nullable: bool,
    /// No number in it is below this; 0 where there are no numbers.
    pub low: i64,
    /// No number in it is above this; 0 where there are no numbers.
    pub high: i64,
}

/// The facts of a column of a table.
#[derive(Drop)]
pub struct NamedFacts {
    pub name: Text,
    pub facts: Facts,
}

/// How many rows a table has, and the facts of its columns in their order.
#[derive(Drop)]
pub struct TableStats {
    pub rows: u64,
    pub columns: Seq<NamedFacts>,
}

/// The statistics of the tables of a catalog, in its order.
#[derive(Drop)]
pub struct Statistics {
    pub tables: Seq<TableStats>,
}
