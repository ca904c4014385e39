//! What the words of the command line ask for, by one simple command of `clap`.
//!
//! Read its specs in this order: `Command`, `Values`, `Words`.
#![tactic(auto)]

mod command;
mod laws;
mod options;
#[cfg(test)]
mod tests;
mod values;
mod words;

pub use laws::plain_word;
pub use options::{Format, Options, Request, WordsError};
pub use words::read_words;
