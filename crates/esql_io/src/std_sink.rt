ghost use Rattle.std.specs.Prelude.{◌≡◌};

use crate::{Failed, Sink};
use std::io::Write;

/// A sink over a stream of the system, which is flushed after each write. It does not tell what it took.
///
/// It counts each write that the stream refuses, and each that takes nothing of a piece that is not empty.
#[derive(Drop)]
pub struct StdSink<W: Write> {
    stream: W,
    faults: u64,
}

impl<W: Write> StdSink<W> {
    pub fn new(stream: W) -> StdSink<W>
        ensures { result.faults ≡ 0 }
    {
        StdSink { stream, faults: 0 }
    }
}

impl<W: Write> Sink for StdSink<W> {
    ghost use Rattle.std.specs.Prelude.{None};

    ghost taken = { λ _. None };

    ghost faults = { λ sink. sink.faults };

    fn write(&mut self, bytes: &[u8]) -> Result<usize, Failed> {
        if bytes.is_empty() {
            return Ok(0);
        }
        if let Ok(count) = self.stream.write(bytes) {
            if count != 0 && self.stream.flush().is_ok() {
                return Ok(count);
            }
        }
        self.faults = self.faults.saturating_add(1);
        Err(Failed)
    }
}
