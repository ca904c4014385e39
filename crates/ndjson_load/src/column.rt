//! A column with what its mapping says of bad values.

use esql_types::{Column, Value};

/// A column of a table with the parameters of its mapping.
#[derive(Debug, Drop)]
pub struct MappedColumn {
    pub column: Column,
    /// A value that the kind does not accept gives nothing, and is not bad.
    pub ignore_malformed: bool,
    /// The value that a null in the document gives, of the column's kind.
    pub null_value: Option<Value>,
}
