//! What an expression means on a row, by names: its value, its kind or the first rule that it breaks, and its typed form; and
//! the columns of FROM. Definitions alone.
//!
//! Read its specs in this order: `Forms`, `Rows`, `Meanings`, `Regulars`, `Scopes`, `Kinds`, `Fields`, `Columns`, `Sources`,
//! `Typed`.
#![tactic(auto)]

mod call;
mod row;
mod rule;

pub use call::CallColumn;
pub use row::NamedCell;
pub use rule::NameRule;
