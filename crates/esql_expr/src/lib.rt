//! A machine that reads expressions, one lexeme after another.
#![tactic(auto)]

mod feed;
mod laws;
mod limit;
mod lists;
mod literals;
mod machine;
mod operands;
mod stack;
mod step;
#[cfg(test)]
mod tests;

pub use laws::one_expression;
pub use machine::{Frame, Opener, Reader, Stepped, Top};
pub use stack::Stack;
