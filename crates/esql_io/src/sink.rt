ghost use Rattle.std.specs.Prelude.{◌≡◌, ◌≤◌, ◌<◌, ℕ, List, Option, take, length, OnOk, OnErr, IfOk};
ghost use Rattle.esql_types.specs.Counts.{Rose};
ghost use Rattle.esql_io.specs.Sinks.{with_more, TookFront};

use crate::Failed;

/// What takes bytes, one piece after another.
pub trait Sink {
    /// The bytes that were taken so far, where the sink tells them.
    ghost taken: { Self → Option (List ℕ) };

    /// How many calls failed. It never falls.
    ghost faults: { Self → ℕ };

    /// Takes a front of the bytes, at least one of a piece that is not empty, and answers how many. A call that fails
    /// takes nothing.
    fn write(&mut self, bytes: &[u8]) -> Result<usize, Failed>
        ensures count { IfOk result (λ count. count ≤ length bytes.now) }
        ensures some { IfOk result (λ count. 0 < length bytes.now → 0 < count) }
        ensures took { IfOk result (λ count. taken self.new ≡ with_more (taken self.old) (take count bytes.now)) }
        ensures kept { OnErr result (taken self.new ≡ taken self.old) }
        ensures uncounted { OnOk result (faults self.new ≡ faults self.old) }
        ensures rose { OnErr result (Rose (faults self.old) (faults self.new)) }
        ensures faults { faults self.old ≤ faults self.new };
}

/// Writes all bytes, in as many pieces as the sink wants. Where a call fails, the sink took a front of them. Takes no
/// memory, and makes no call where there are no bytes.
pub fn write_whole<K: Sink>(sink: &mut K, bytes: &[u8]) -> Result<(), Failed>
    ensures took { OnOk result (K.taken sink.new ≡ with_more (K.taken sink.old) bytes.now) }
    ensures front { OnErr result (TookFront (K.taken sink.old) (K.taken sink.new) bytes.now) }
    ensures uncounted { OnOk result (K.faults sink.new ≡ K.faults sink.old) }
    ensures rose { OnErr result (Rose (K.faults sink.old) (K.faults sink.new)) }
    ensures faults { K.faults sink.old ≤ K.faults sink.new }
{
    let mut written = 0;
    while written < bytes.len() {
        let (_, rest) = bytes.split_at(written);
        match sink.write(rest) {
            Ok(count) => written += count,
            Err(failed) => return Err(failed),
        }
    }
    Ok(())
}
