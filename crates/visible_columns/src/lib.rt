//! The columns that can be seen at a place in a query, found by their names in logarithmic time.
//!
//! Read its specs in this order: `Columns`, `Slots`.
#![tactic(auto)]

mod columns;
mod names;
#[cfg(test)]
mod tests;

pub use columns::{Shown, VisibleColumns};
