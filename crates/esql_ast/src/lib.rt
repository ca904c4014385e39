//! The tree of a query, as it was written: commands, fields and expressions with their numbers and spans.
#![tactic(auto)]

mod expr;
mod laws;
mod nodes;
mod numbering;
mod query;
#[cfg(test)]
mod tests;
#[cfg(test)]
mod tests_uses;
mod uses;

pub use expr::{BinaryOp, Expr, Form};
pub use laws::{
    mentioned_are_used, numbering_keeps_all, numbering_keeps_depth, numbering_keeps_fit,
    numbering_keeps_spans, numbers_in_order, uses_are_first, uses_differ, warned_places_fit,
};
pub use nodes::{NodeAt, warned_nodes_of};
pub use numbering::numbered_query;
pub use query::{
    Command, CommandKind, Condition, EnrichItem, Field, NameAt, NamePattern, Query, RenamePair,
    SortKey, SourceCommand, StatsField, TextAt,
};
pub use uses::{SourceUse, source_names};
