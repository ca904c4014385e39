//! The bounded log of a query's failures: the first causes of each node, and the warnings that they make.
#![tactic(auto)]

mod first;
mod laws;
mod log;
#[cfg(test)]
mod tests;

pub use laws::{equal_at_each_node, one_list_after_another, stands_for_its_failures};
pub use log::Log;
