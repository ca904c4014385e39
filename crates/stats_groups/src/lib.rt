//! Groups of rows by their keys, and the running aggregates of each.
#![tactic(auto)]

mod cells;
mod distinct;
mod entries;
mod group_key;
mod group_states;
mod groups;
mod hashes;
mod key_value;
mod keys;
mod map;
mod row_key;
mod same;
mod state;
mod sum;
#[cfg(test)]
mod tests;

pub use cells::{put_cell, width_with};
pub use groups::Groups;
