//! Commands as they are written: their grammar, what a lexeme makes of a command that is being read, and what it says.
//!
//! A command is read one lexeme after another. Where an expression has to come, the caller reads it, and continues at the
//! point where the expression ended.
#![tactic(auto)]

mod begin;
mod dissect;
mod enrich;
mod expand;
mod field;
mod from;
mod join;
mod laws;
mod lexemes;
mod limit;
mod pattern;
mod place;
mod point;
mod rename;
mod slot;
mod sort;
mod stats;
mod words;

pub use begin::{begin_command, begin_source};
pub use dissect::DissectPoint;
pub use enrich::EnrichPoint;
pub use field::Clause;
pub use from::FromPoint;
pub use join::JoinPoint;
pub use laws::{
    commands_are_read, commands_can_end, commands_fit, depth_of_command, what_ends_is_a_command,
};
pub use pattern::{PatternPoint, PatternUse};
pub use place::{CommandEnd, Move, Place, Point, Slot};
pub use point::{continue_command, finished_command};
pub use rename::RenamePoint;
pub use slot::line_in;
pub use sort::SortPoint;
pub use words::CommandWord;
