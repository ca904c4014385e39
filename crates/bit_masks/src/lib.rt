//! Masks: lists of booleans that are kept in words of 64 bits and combined by lanes.
#![tactic(auto)]

mod mask;
#[cfg(test)]
mod tests;
mod words;

pub use mask::Mask;
