//! The top call: the words of the command line go in, and the bytes of an answer come out.
//!
//! Read its specs in this order: `Bytes`, `Built`, `Shown`, `Tables`, `Generated`, `Outcome`, `Rooms`, `Answers`.
#![tactic(auto)]

mod answer;
mod generated;
mod laws;
mod rendered;
mod status;
mod tables;
#[cfg(test)]
mod tests;
mod top;
mod unbuilt;
mod writing;

pub use laws::{none_unbuilt, one_outcome};
pub use status::Status;
pub use top::run;
