use crate::values::Values;
use bit_masks::Mask;
use esql_types::Cell;

/// The rows of a block.
#[derive(Debug, Drop)]
pub enum Rows {
    Constant { cell: Cell, len: usize },
    Vector { values: Values },
    Nullable { values: Values, valid: Mask },
    // The values of a row end where its end says, and begin where those of the row before it end.
    Multi { values: Values, ends: Vec<usize> },
}
