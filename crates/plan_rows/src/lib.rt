//! A plan run over rows: all rows of its tables put through its steps, one step after another.
//!
//! Read its specs in this order: `Held`, `Places`, `Kept`, `Runs`.
#![tactic(auto)]

mod cuts;
mod enrich;
mod order;
mod run;
mod source;
mod stats;
mod steps;
#[cfg(test)]
mod tests;

pub use run::run_plan;
