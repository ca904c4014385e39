//! Arithmetic and comparison over columns of numbers, by lanes, beside their sums and extremes.
#![tactic(auto)]

mod columns;
mod constants;
mod ints;
mod longs;
mod operand;
mod tables;
#[cfg(test)]
mod tests;

pub use constants::{ADD, DIV, EQ, GE, GT, LE, LT, MOD, MUL, NE, SUB};
pub use ints::{arith_ints, compare_ints};
pub use longs::{arith_longs, compare_longs};
pub use num_folds::{greatest_ints, greatest_longs, least_ints, least_longs, sum_ints, sum_longs};
