//! LOOKUP JOIN: what it means, the steps that it is written as over tables with the places of their rows, and the catalog that
//! has these tables.
//!
//! Read its specs in this order: `Placed`, `Joins`, `Laws`, `Extended`.
#![tactic(auto)]

mod extend;
mod index;
mod joins;
mod laws;
mod placed;
#[cfg(test)]
mod tests;

pub use extend::{extend_catalog, extend_tables};
pub use joins::JoinAt;
pub use laws::{
    extended_tables_have_their_shapes, join_fails_as_its_steps, join_means_its_steps,
    place_name_is_free,
};
