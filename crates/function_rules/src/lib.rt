//! What each function of the language does on numbers, texts and lists, in the sense of the ES|QL language reference. These
//! definitions name no cell of a table, so that the evaluation of a row, kernels over columns and the folding of
//! constants cite the same ones.
//!
//! Read its specs in this order: `Logic`, `Texts`, `Cuts`, `Wildcards`, `Found`, `Conversions`, `Lists`, `Laws`.
#![tactic(auto)]

mod laws;
pub mod lists;
pub mod logic;
pub mod texts;

pub use laws::{plain_pattern_is_itself, run_alone_is_any, run_between_cuts};
