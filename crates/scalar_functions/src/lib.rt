//! Functions on the cells of their arguments, each by its rule.
//!
//! Read its specs in this order: `Taken`, `Calls`, `Patterns`, `Results`.
#![tactic(auto)]

mod application;
mod binary;
mod call;
mod cells;
mod conversions;
mod list;
mod logic;
mod matching;
mod numbers;
mod result;
mod single;
mod singles;
mod unary;
mod values;

pub use application::apply;
pub use call::{Branches, branches_of};
use call::{
    AloneFunction, Binary, Call, Connective, Conversion, ListFunction, Plain, SingleFunction,
    Unary, call_of,
};
pub use cells::{is_null, note_several, truth_in};
use result::Outcome;
use singles::Singles;
