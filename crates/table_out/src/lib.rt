//! Tables as texts, in the layouts `txt`, `csv` and `json`.
#![tactic(auto)]

mod compact;
mod csv_text;
mod json_text;
mod lines;
mod printed;
mod records;
mod table;
#[cfg(test)]
mod tests;
mod widths;

pub use csv_text::csv;
pub use json_text::json;
pub use table::txt;
