//! Columns of a page, kept as blocks in one of four forms, and pages of shared blocks.
//!
//! Read its specs in this order: `Cells`, `Pieces`, `Stored`, `Rows`, `Seen`, `Building`, `Kept`, `Pages`, `Laws`.
#![tactic(auto)]

mod block;
mod builder;
mod ends;
mod form;
mod kept;
pub mod laws;
mod moves;
mod page;
mod rows;
mod spread;
#[cfg(test)]
mod tests;
mod texts;
mod values;

pub use block::Block;
pub use builder::Builder;
pub use form::BlockForm;
pub use page::Page;
