//! The rows of a policy's tables, found by the values of their match field.
//!
//! Read its specs in this order: `Matches`, `Lookups`, `Places`.
#![tactic(auto)]

mod add;
mod added;
mod cells;
mod key;
mod laws;
mod lookup;
mod places;
#[cfg(test)]
mod tests;

pub use laws::{integers_match_longs, no_rows_give_null, null_matches_nothing, repeats_are_kept};
pub use lookup::Lookup;
