//! The outside of the engine: files that are read by name, sinks that take bytes, and what is known of their faults.
#![tactic(auto)]

mod dir_files;
mod files;
mod memory_files;
mod memory_sink;
mod sink;
mod std_sink;
#[cfg(test)]
mod tests;

pub use dir_files::DirFiles;
pub use files::{Failed, Files};
pub use memory_files::{HeldFile, MemoryFiles};
pub use memory_sink::MemorySink;
pub use sink::{Sink, write_whole};
pub use std_sink::StdSink;
