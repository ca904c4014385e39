use crate::{NodeId, Text};

/// Why a value became null.
#[derive(Debug, Drop)]
pub enum Cause {
    /// An argument that is taken as one value has several.
    Multi,
    /// A result lies outside the integers of 32 bits.
    IntegerOverflow,
    /// A result lies outside the longs of 64 bits.
    LongOverflow,
    /// The divisor is 0.
    ByZero,
    /// The text spells no number in range.
    CannotParse { text: Text },
    /// The long lies outside the integers.
    OutOfInteger { value: i64 },
    /// The length that was asked for is negative.
    NegativeLength { value: i64 },
    /// The delimiter of a split is empty.
    EmptyDelimiter,
}

/// A failure of a query: the node that failed, and why.
#[derive(Debug, Drop)]
pub struct Failure {
    pub node: NodeId,
    pub cause: Cause,
}

/// A failure at a row of a page, of a node that is known from elsewhere.
#[derive(Debug, Drop)]
pub struct RowFailure {
    pub row: u32,
    pub cause: Cause,
}
