use esql_types::{Cause, Cell, Value};

/// What a function gives of the values of its arguments.
#[derive(Drop)]
pub(crate) enum Outcome {
    /// Null.
    Nothing,
    One(Value),
    Several(Cell),
    /// Null, for a cause.
    Fails(Cause),
}
