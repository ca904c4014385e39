use crate::{FreeRegex, WholeRegex};
use esql_types::Seq;

/// The regular expressions of a query, which contracts see as two lists of texts.
#[derive(Drop)]
pub struct Patterns {
    /// Those of RLIKE.
    pub whole: Seq<WholeRegex>,
    /// Those of REPLACE.
    pub free: Seq<FreeRegex>,
}
