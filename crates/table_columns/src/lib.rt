//! Tables kept in columns: of each column the cells that are not null, with the numbers of their rows.
//!
//! Read its specs in this order: `Sparse`, `Tables`, `Held`, `Placing`, `Laws`.
#![tactic(auto)]

mod builder;
mod growing;
mod held;
pub mod laws;
mod present;
mod table;
#[cfg(test)]
mod tests;

pub use builder::{MAX_ROWS, TableBuilder};
pub use present::PresentCell;
pub use table::TableColumns;
