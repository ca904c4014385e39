//! The table that `--generate` answers over, and the query that it answers.
//!
//! Read its specs in this order: `Rows`, `Tables`, `Words`.
#![tactic(auto)]

mod laws;
mod rows;
mod shape;
#[cfg(test)]
mod tests;
mod words;

pub use laws::rows_have_their_kinds;
pub use rows::generated_rows;
pub use shape::generated_shape;
pub use words::{generated_line, generated_query};
