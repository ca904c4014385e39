use esql_types::{Kind, Text};

/// A named place of a pattern: the name of the column that gets its text, and the column's kind.
#[derive(Debug, Drop)]
pub struct Place {
    pub name: Text,
    pub kind: Kind,
}
