//! The functions of the language on plain values: one body per function, on texts, numbers and lists of values, exact by its
//! rule. The evaluation of a row and the kernels over columns call them.
#![tactic(auto)]

pub mod conversions;
pub mod lists;
pub mod logic;
pub mod numbers;
pub mod pieces;
#[cfg(test)]
mod tests_lists;
#[cfg(test)]
mod tests_numbers;
#[cfg(test)]
mod tests_texts;
pub mod texts;
mod value_key;
