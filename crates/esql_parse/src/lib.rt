//! Queries as they are written: the grammar of queries, and a parser that refuses at exactly the first wrong token.
#![tactic(auto)]

mod error;
mod laws;
mod reading;
mod state;
mod step;
#[cfg(test)]
mod tests;
mod written;

pub use error::ParseError;
pub use laws::{deep_are_fronts, no_refusal, one_query, one_refusal};
pub use reading::parse;
pub use state::{Inside, Progress, State, Written};
