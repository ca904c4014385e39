//! The query of a text, its plan, and its answer over tables.
//!
//! Read its specs in this order: `Queries`, `Prepared`.
#![tactic(auto)]

mod answered;
mod answering;
mod catalogs;
mod prepared;
mod query;

pub use answered::Answer;
pub use answering::answer;
pub use catalogs::copy_catalog;
pub use esql_analyze::AnalyzeError;
pub use prepared::{Prepared, prepare};
pub use query::{QueryError, read_query};
pub use row_semantics::NameRule;
pub use table_files::{Gathered, Loaded, Stop, TableSource, gather, load};
pub use warn_log::Log;
