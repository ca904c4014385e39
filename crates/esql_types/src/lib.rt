//! What every crate of the engine speaks of: lists, texts, values, cells, places in a query, failures of a row,
//! and the maker of regular expressions.
#![tactic(auto)]

mod boxed;
mod cause;
mod cell;
mod maker;
mod names;
mod noted;
mod ordering;
mod places;
mod seq;
#[cfg(test)]
mod tests;
mod text;
mod value;

pub use boxed::Boxed;
pub use cause::{Cause, Failure, RowFailure};
pub use cell::Cell;
pub use maker::{CrateMaker, Maker, PatternError};
pub use names::{ColId, Column, NodeId};
pub use noted::{Name, Noted};
pub use ordering::compare_values;
pub use places::{Place, Span, place_of, text_at};
pub use seq::Seq;
pub use text::Text;
pub use value::{Kind, Value, ValueRef};
