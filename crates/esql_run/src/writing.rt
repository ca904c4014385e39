ghost use Rattle.std.specs.Prelude.{◌≡◌, ◌⊎◌};
ghost use Rattle.esql_types.specs.Counts.{Rose};
ghost use Rattle.esql_run.specs.Writing.{Writes};

use crate::Status;
use esql_io::{Sink, write_whole};

/// Writes the output whole, then the error stream. The status is the wanted one, or `WriteFault` where a write failed,
/// after which nothing more is written. Takes no memory.
pub(crate) fn write_both<K: Sink, E: Sink>(
    status: Status,
    output: &str,
    warnings: &str,
    out: &mut K,
    err: &mut E,
) -> Status
    ensures writes { Writes status result (output.now, warnings.now)
        (K.taken out.old) (K.taken out.new) (E.taken err.old) (E.taken err.new)
        (Rose (K.faults out.old) (K.faults out.new) ⊎ Rose (E.faults err.old) (E.faults err.new)) }
    ensures uncounted { (result ≡ Status.WriteFault → ⊥)
        → (K.faults out.new ≡ K.faults out.old) × (E.faults err.new ≡ E.faults err.old) }
{
    match write_whole(out, output.as_bytes()) {
        Ok(()) => match write_whole(err, warnings.as_bytes()) {
            Ok(()) => status,
            Err(_) => Status::WriteFault,
        },
        Err(_) => Status::WriteFault,
    }
}
