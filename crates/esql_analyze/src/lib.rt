//! A query is judged and written as a plan in one pass: names become numbers, and regular expressions are built.
//!
//! STATS is written by `stats_writing`, and what every command's writing shares stands in `plan_writing`. Read the specs in this order:
//! those of `plan_writing`; then `Names`, `Regulars`, `Plans`, and those of ENRICH, `Policies`.
#![tactic(auto)]

mod appended;
mod commands;
mod cuts;
mod enrich;
mod expand;
mod names;
mod policy_fields;
mod query;
mod sort;
mod source;

pub use expression_analysis::AnalyzeError;
pub use query::{Analyzed, analyze};
pub use row_semantics::NameRule;
