ghost use Rattle.std.specs.Prelude.{◌≡◌, ◌⊎◌, map};
ghost use Rattle.std.specs.String.{string_bytes};
ghost use Rattle.esql_types.specs.Counts.{Rose};
ghost use Rattle.answer_text.specs.Messages.{out_of_memory, cannot_read};
ghost use Rattle.esql_run.specs.Outcome.{AsksFile};
ghost use Rattle.esql_run.specs.Rooms.{IsRoomLine};
ghost use Rattle.esql_run.specs.Answers.{IsTold, Tells, IsComplete, TookFronts, TookLine, TookRoom};

use crate::Status;
use crate::answer::answer;
use crate::rendered::Unanswered;
use crate::writing::write_both;
use answer_text::{cannot_read, out_of_memory};
use esql_io::{Files, Sink};
use esql_types::Maker;
use std::alloc::Global;

/// Answers the words of the command line, without the program's name: what the query means goes to `out`, and warnings
/// and refusals go to `err`. Everything is rendered before the first write; then `out` is written whole, then `err`.
///
/// The words are `[--data DIR] [--page-size N] [--format txt|csv|json] (QUERY | --generate SEED,ROWS)`. The files of the tables and
/// policies that the query names are read in DIR, or in the working folder, and its regular expressions are built by `maker`; where
/// one is too large to build, the status is `PatternRoom`. The table is written in the format, `txt` where none is named; how many
/// rows a page has changes nothing. With `--generate` a query of the program's own is answered over a table that is made from the
/// seed, and no file is asked. Other words are `Usage`.
pub fn run<F: Files, M: Maker, K: Sink, E: Sink>(
    alloc: Global,
    words: &[String],
    files: &mut F,
    maker: &mut M,
    out: &mut K,
    err: &mut E,
) -> Status
    ensures soundness { IsTold result → Tells (map string_bytes words.now) (F.holds files.old) result
        (K.taken out.old) (K.taken out.new) (E.taken err.old) (E.taken err.new) }
    ensures completeness { IsComplete result (Rose (F.faults files.old) (F.faults files.new))
        (Rose (K.faults out.old) (K.faults out.new) ⊎ Rose (E.faults err.old) (E.faults err.new))
        (Rose (M.refused maker.old) (M.refused maker.new)) }
    ensures no_read_failed { IsTold result → F.faults files.new ≡ F.faults files.old }
    ensures no_write_failed { (result ≡ Status.WriteFault → ⊥)
        → (K.faults out.new ≡ K.faults out.old) × (E.faults err.new ≡ E.faults err.old) }
    ensures no_pattern_refused { IsTold result → M.refused maker.new ≡ M.refused maker.old }
    ensures faults { result ≡ Status.ReadFault → TookLine (cannot_read (F.failed files.new))
        (K.taken out.old) (K.taken out.new) (E.taken err.old) (E.taken err.new) }
    ensures asked { result ≡ Status.ReadFault → AsksFile (map string_bytes words.now) (F.holds files.old) (F.failed files.new) }
    ensures prefixes { result ≡ Status.WriteFault → TookFronts (map string_bytes words.now) (F.holds files.old)
        (Rose (F.faults files.old) (F.faults files.new)) (F.failed files.new)
        (IsRoomLine M.refused M.last (map string_bytes words.now) (F.holds files.old) maker.old maker.new)
        (K.taken out.old) (K.taken out.new) (E.taken err.old) (E.taken err.new) }
    ensures memory { result ≡ Status.NoMemory → TookLine out_of_memory
        (K.taken out.old) (K.taken out.new) (E.taken err.old) (E.taken err.new) }
    ensures patterns { result ≡ Status.PatternRoom
        → TookRoom (IsRoomLine M.refused M.last (map string_bytes words.now) (F.holds files.old) maker.old maker.new)
        (K.taken out.old) (K.taken out.new) (E.taken err.old) (E.taken err.new) }
{
    match answer(alloc, words, files, maker) {
        Ok(answer) => write_both(
            answer.status,
            answer.out.as_str(),
            answer.err.as_str(),
            out,
            err,
        ),
        Err(Unanswered::ReadFault { file }) => match cannot_read(alloc, file.as_str()) {
            Ok(line) => write_both(Status::ReadFault, "", line.as_str(), out, err),
            Err(_) => write_both(Status::NoMemory, "", out_of_memory(), out, err),
        },
        Err(Unanswered::PatternRoom { line }) => {
            write_both(Status::PatternRoom, "", line.as_str(), out, err)
        }
        Err(Unanswered::Memory(_)) => write_both(Status::NoMemory, "", out_of_memory(), out, err),
    }
}
