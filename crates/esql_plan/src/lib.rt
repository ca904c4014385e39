//! Plans: a source, steps over numbered columns with typed expressions, and the columns that are left; the table of the
//! functions of the language; and what a function gives of its arguments, a typed expression of a row.
//!
//! Read its specs in this order: `Rules`, `Functions`, `Values`, `Exprs`, `Signatures`, `Names`, `Fits`.
#![tactic(auto)]

mod catalog;
mod facts;
mod function;
mod laws;
mod names;
mod plan;
mod step;
mod typed;

pub use catalog::{Catalog, PolicyShape, TableShape};
pub use facts::{Facts, NamedFacts, Statistics, TableStats};
pub use function::{AggFunction, Function};
pub use laws::{
    and_evaluates_both_sides, case_passes_the_false, case_takes_the_first_true, cells_alone_count,
    coalesce_takes_the_first, null_decides, results_have_their_kind, several_values_decide,
    single_arguments,
};
pub use names::{FunctionRow, cast_function, find_aggregate, find_function};
pub use plan::{OutColumn, Plan, PlanSource, ScanColumn};
pub use step::{Aggregate, GroupColumn, NewColumn, PlanKey, Step};
pub use typed::{TypedExpr, TypedForm};
