//! Laws of table files: what the lines of a file are, which fault of a file is told, and which columns a mapping has.
//!
//! Read its specs in this order: `Lines`, `FirstFaults`, `Paths`.
#![tactic(auto)]

mod laws;

pub use laws::{
    columns_are_led, first_bad_column, first_bad_item, first_bad_line, led_are_columns,
    lines_are_joined, lines_have_no_ends,
};
