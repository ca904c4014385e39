//! The plan that a query is written as means what the query means; the rows of a query have the columns of its shape, whose
//! names differ; LIMIT drops no failure; and the plan is well formed and orderly.
//!
//! Read its specs: `Laws`.
#![tactic(auto)]

mod laws;

pub use laws::{
    columns_differ, limits_keep_failures, plans_are_orderly, plans_are_well_formed,
    plans_mean_queries, rows_have_their_columns,
};
