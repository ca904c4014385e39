//! Names of columns: which columns KEEP, DROP and RENAME leave, in which order and under which names.
//!
//! Read its specs in this order: `NameRules`, `NameFronts`, `NamePlaces`, `Renames`, `NameLaws`.
#![tactic(auto)]

mod kept;
mod laws;
mod like;
mod names;
mod renames;
#[cfg(test)]
mod tests;

pub use kept::{NameError, drop_names, keep_order};
pub use laws::{kept_are_won, kept_differ, kept_once, renamed_differ};
pub use like::like_name;
pub use names::{RenameError, Renamed, rename_pairs};
