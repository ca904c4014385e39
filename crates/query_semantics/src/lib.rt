//! What a query means: the columns after each command, or the first rule that is broken; the rows of names and what fails on
//! the way; and the plan that it is written as.
//!
//! Read its specs in this order: `Shapes`, `Commands`, `Cuts`, `Meaning`, `Written`, `Named`, `Built`, `Catalogs`,
//! `Sizes`; STATS in `Calls`, `Stats`, `StatsShapes`, `WrittenStats`, DISSECT, GROK and ENRICH in `Appended`,
//! `AppendedShapes`, `WrittenAppended`.
#![tactic(auto)]

mod laws;

pub use laws::{broken_rules_have_places, broken_rules_of_expressions_have_places};
