//! The tables and policies of a query: `gather` finds them by their mappings and documents, `load` reads the rows.
#![tactic(auto)]

mod catalog;
mod fields;
mod findings;
mod gathering;
mod laws;
mod loading;
mod lookups;
mod messages;
mod once;
mod reading;
mod stop;
mod tables;
#[cfg(test)]
mod tests;

pub use gathering::gather;
pub use laws::{one_gathering, one_loading, some_gathering, some_halt, some_loading};
pub use loading::load;
pub use stop::Stop;
pub use tables::{FoundTable, Gathered, Loaded, TableSource};
