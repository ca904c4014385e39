//! STATS is judged and written as steps of a plan.
//!
//! Read its specs in this order: `CallsSeen`, `Parts`, `StatsRules`, `StatsSeen`, `Behind`.
#![tactic(auto)]

mod calls;
mod stats;
mod stats_inputs;
mod stats_rules;

pub use stats::write_stats;
