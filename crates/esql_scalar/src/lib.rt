//! The value of a typed expression on a row.
//!
//! Read its specs in this order: `Rows`, `Turns`.
#![tactic(auto)]

mod expression;
#[cfg(test)]
mod rows;
#[cfg(test)]
mod tests_lists;
#[cfg(test)]
mod tests_logic;
#[cfg(test)]
mod tests_numbers;
#[cfg(test)]
mod tests_texts;
#[cfg(test)]
mod trees;

pub use expression::evaluate;
