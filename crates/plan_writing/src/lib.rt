//! A plan that is being written, and what the writing of every command shares: its columns, what a step reads, and its fields.
//!
//! Read its specs in this order: `Contexts`, `Writings`, `Answers`, `Regulars`.
#![tactic(auto)]

mod columns;
mod fields;
mod inputs;
mod writing;

pub use columns::{
    Apart, columns_at, columns_renamed, names_apart, numbered, put_visible, scan_columns,
};
pub use fields::{name_of_field, write_condition, write_field, write_fields};
pub use inputs::{Input, column_of, make_input, write_input};
pub use writing::{Writing, begin, unless_empty, write_limit};
