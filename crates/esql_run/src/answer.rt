//! The answer to the words of the command line.
ghost use Rattle.std.specs.Prelude.{◌≡◌, ◌≤◌, map, Some, IfOk};
ghost use Rattle.std.specs.String.{string_bytes};
ghost use Rattle.esql_ast.specs.Fits.{QueryFits};
ghost use Rattle.esql_ast.specs.Laws.{IsNumbered};
ghost use Rattle.query_semantics.specs.Sizes.{IsShortQuery};
ghost use Rattle.esql_run.specs.Answers.{IsTold};
ghost use Rattle.esql_run.specs.Made.{outcome_made};
ghost use Rattle.esql_run.specs.Outcome.{AnswersOptions, AnswersQuery, AsksFile, AsksForQuery, IsAnswer, IsFileFor, IsOutcome, OptionsAskFile, wrong_words};
ghost use Rattle.esql_run.specs.Rooms.{IsRoomForOptions, IsRoomIn, IsRoomLine, IsRoomOf};
ghost use Rattle.esql_run.specs.Stopped.{CalledToAnswer, MadeToAnswer};

use crate::Status;
use crate::generated::{Generation, answer_generated};
use crate::rendered::{Rendered, Unanswered, refuse};
use crate::tables::answer_tables;
use crate::unbuilt::first_unbuilt;
use answer_text::{Refusal, usage};
use esql_answer::{QueryError, read_query};
use esql_ast::Query;
use esql_io::Files;
use esql_types::{Maker, Text};
use esql_words::{Options, Request, WordsError, read_words};
use std::alloc::{AllocError, Global};

/// The answer to the words of the command line.
pub(crate) fn answer<F: Files, M: Maker>(
    alloc: Global,
    words: &[String],
    files: &mut F,
    maker: &mut M,
) -> Result<Rendered, Unanswered>
    ensures told { IfOk result (λ answer. IsOutcome (map string_bytes words.now) (F.holds files.old) (outcome_made answer)) }
    ensures status { IfOk result (λ answer. IsTold answer.status) }
    ensures called { CalledToAnswer F.holds F.faults F.failed (AsksFile (map string_bytes words.now) (F.holds files.old)) result files.old files.new }
    ensures made { MadeToAnswer M.refused (IsRoomLine M.refused M.last (map string_bytes words.now) (F.holds files.old)) result maker.old maker.new }
{
    match read_words(alloc, words) {
        Ok(options) => answer_options(alloc, &options, files, maker),
        Err(WordsError::Usage) => Ok(wrong_words(alloc)?),
        Err(WordsError::Memory(error)) => Err(Unanswered::Memory(error)),
    }
}

fn wrong_words(alloc: Global) -> Result<Rendered, AllocError>
    ensures { IfOk result (λ answer. outcome_made answer ≡ wrong_words) }
{
    Ok(Rendered {
        status: Status::Usage,
        out: Text::from_str(alloc, "")?,
        err: Text::from_str(alloc, usage())?,
    })
}

/// The answer to what is asked.
fn answer_options<F: Files, M: Maker>(
    alloc: Global,
    options: &Options,
    files: &mut F,
    maker: &mut M,
) -> Result<Rendered, Unanswered>
    ensures told { IfOk result (λ answer. AnswersOptions (Some options.now) (F.holds files.old) (outcome_made answer)) }
    ensures status { IfOk result (λ answer. IsTold answer.status) }
    ensures called { CalledToAnswer F.holds F.faults F.failed (OptionsAskFile (Some options.now) (F.holds files.old)) result files.old files.new }
    ensures made { MadeToAnswer M.refused (IsRoomForOptions M.refused M.last (Some options.now) (F.holds files.old)) result maker.old maker.new }
{
    match &options.request {
        Request::Query { text } => answer_text(alloc, options, text.as_str(), files, maker),
        Request::Generate { seed, rows } => {
            let generation = Generation {
                seed: *seed,
                rows: *rows,
                format: options.format,
            };
            answer_generated(alloc, generation, maker)
        }
    }
}

fn answer_text<F: Files, M: Maker>(
    alloc: Global,
    options: &Options,
    text: &str,
    files: &mut F,
    maker: &mut M,
) -> Result<Rendered, Unanswered>
    ensures told { IfOk result (λ answer. IsAnswer options.now.folder options.now.format text.now (F.holds files.old) (outcome_made answer)) }
    ensures status { IfOk result (λ answer. IsTold answer.status) }
    ensures called { CalledToAnswer F.holds F.faults F.failed (IsFileFor options.now.folder text.now (F.holds files.old)) result files.old files.new }
    ensures made { MadeToAnswer M.refused (IsRoomIn M.refused M.last options.now.folder text.now (F.holds files.old)) result maker.old maker.new }
{
    match read_query(alloc, text) {
        Ok(query) => answer_query(alloc, options, text, &query, files, maker),
        Err(QueryError::Refused { refusal, span }) => Ok(refuse(alloc, text, refusal, span)?),
        Err(QueryError::Memory(error)) => Err(Unanswered::Memory(error)),
    }
}

fn answer_query<F: Files, M: Maker>(
    alloc: Global,
    options: &Options,
    text: &str,
    query: &Query,
    files: &mut F,
    maker: &mut M,
) -> Result<Rendered, Unanswered>
    requires fits { QueryFits text.now query.now }
    requires numbered { IsNumbered query.now }
    requires few { query.now.nodes ≤ 65537 }
    requires short { IsShortQuery query.now }
    ensures told { IfOk result (λ answer. AnswersQuery options.now.folder options.now.format text.now (F.holds files.old) query.now (outcome_made answer)) }
    ensures status { IfOk result (λ answer. IsTold answer.status) }
    ensures called { CalledToAnswer F.holds F.faults F.failed (AsksForQuery options.now.folder text.now (F.holds files.old) query.now) result files.old files.new }
    ensures made { MadeToAnswer M.refused (IsRoomOf M.refused M.last options.now.folder text.now (F.holds files.old) query.now) result maker.old maker.new }
{
    match first_unbuilt(query) {
        Some(span) => Ok(refuse(alloc, text, Refusal::NotBuilt, span)?),
        None => answer_tables(alloc, options, text, query, files, maker),
    }
}
