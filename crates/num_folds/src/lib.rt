//! Sums and extremes over columns of numbers, by lanes.
#![tactic(auto)]

mod extremes;
pub mod int_lanes;
pub mod long_lanes;
mod number;
mod sums;
#[cfg(test)]
mod tests;

pub use extremes::{greatest_ints, greatest_longs, least_ints, least_longs};
pub use sums::{sum_ints, sum_longs};
