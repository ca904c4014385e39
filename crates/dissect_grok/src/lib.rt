//! DISSECT: a text cut into columns by a pattern of keys and the delimiters between them. GROK: the texts of the named places
//! of a pattern, by the leftmost match of the regular expression that it stands for.
//!
//! Read the specs in this order: `Texts`, `Patterns`, `Cuts`, `Joined`, `Laws`, `Library`, `Groups`, `Groks`.
#![tactic(auto)]

mod columns;
mod cuts;
mod cutter;
mod dissect;
mod error;
mod expansion;
mod grok;
mod groups;
mod index;
mod keys;
mod laws;
mod library;
mod lists;
mod names;
mod place;
mod reference;
#[cfg(test)]
mod tests;
mod texts;
mod turns;

pub use cutter::{Cutter, Cutters};
pub use dissect::Dissect;
pub use error::{DissectError, GrokError};
pub use grok::Grok;
pub use laws::{
    as_many_lists_as_columns, cut_and_joined_is_a_front, no_reference_is_bad,
    one_key_takes_the_rest, places_have_the_kinds_of_their_columns,
};
pub use place::Place;
