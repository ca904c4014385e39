//! What FROM takes from the tables that it names: their numbers in the catalog, and their columns.
//!
//! Read its specs in this order: `Index`, `Numbers`, `Gathered`, `Taken`, `Refusals`; what they give is said by `row_semantics.specs.Sources`.
#![tactic(auto)]

mod gathered;
mod index;
mod refusals;
mod sources;
#[cfg(test)]
mod tests;

pub use refusals::SourceError;
pub use sources::{columns_of_tables, tables_named};
