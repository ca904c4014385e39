//! The typed form of an expression over numbered columns, or the first rule that it breaks.
//!
//! Read its specs in this order: `Answers`, `Calls`, `Steps`.
#![tactic(auto)]

mod aggregates;
mod calls;
mod columns;
mod constants;
mod error;
mod expression;
mod parts;
mod patterns;
mod sight;
#[cfg(test)]
mod tests;

pub use error::AnalyzeError;
pub use expression::{typed_expr, typed_field};
