//! Operators over the rows of pages: the order of rows by keys.
#![tactic(auto)]

mod cells;
mod laws;
mod places;
#[cfg(test)]
mod tests;

pub use cells::compare_cells;
pub use laws::{each_place_once, ties_stand_by_place};
pub use places::sort_order;
