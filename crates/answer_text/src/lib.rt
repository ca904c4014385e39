//! The texts that a query is answered with: what tables show, warnings and refusals.
#![tactic(auto)]

mod cells;
mod laws;
mod messages;
mod printing;
mod refusals;
#[cfg(test)]
mod tests;
mod warning;

pub use cells::{push_cell, push_value};
pub use laws::{same_cause, shown_in_lines, told_once, warned_of_nothing};
pub use messages::{bad_data_line, cannot_read, out_of_memory, usage};
pub use printing::{push_printed, width};
pub use refusals::{Refusal, named_refusal_line, refusal_line};
pub use warning::{push_warnings, warnings};
