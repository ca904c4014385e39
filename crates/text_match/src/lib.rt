//! Texts against patterns: LIKE with wildcards, and regular expressions in the syntax of the crate `regex`.
#![tactic(auto)]

mod parts;
mod patterns;
mod regexes;
#[cfg(test)]
mod tests;
mod wildcards;

pub use patterns::Patterns;
pub use regexes::{FreeRegex, WholeRegex};
pub use wildcards::like;
