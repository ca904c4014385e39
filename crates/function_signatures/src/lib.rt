//! Which arguments the calls of each function take, by their kinds, and the kinds of such calls.
//!
//! Read its specs in this order: `Tables`.
#![tactic(auto)]

mod calls;
mod kinds;
mod table;
#[cfg(test)]
mod tests;

pub use calls::{kind_of_call, misfit};
