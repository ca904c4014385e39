//! Table files: the mapping that gives a table its columns, and the rows, one JSON object a line.
#![tactic(auto)]

mod accept;
mod cause;
mod column;
mod document;
mod laws;
mod leaf;
mod lines;
mod mapping;
mod reach;
mod spread;
mod table;
mod take;
#[cfg(test)]
mod tests;
mod walk;
mod whole;

pub use cause::{LoadError, MappingCause, MappingError, RowCause};
pub use column::MappedColumn;
pub use document::read_document;
pub use laws::{no_mapping_fault, one_mapping, one_mapping_fault};
pub use mapping::read_mapping;
pub use table::{Table, load_table};
pub use whole::{MAX_FILE, ReadError, read_whole};
