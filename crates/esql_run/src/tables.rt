//! The answer over the tables and policies that a query names.
ghost use Rattle.std.specs.Prelude.{◌≡◌, ◌≤◌, Some, None, Ok, All, IfOk, IfErr, length};
ghost use Rattle.std.specs.Option.{option_copied};
ghost use Rattle.esql_ast.specs.Fits.{QueryFits};
ghost use Rattle.esql_ast.specs.Laws.{IsNumbered};
ghost use Rattle.esql_ast.specs.Uses.{source_names};
ghost use Rattle.ndjson_load.specs.Over.{Over};
ghost use Rattle.ndjson_load.specs.Shapes.{IsLoadable};
ghost use Rattle.table_files.specs.Answers.{IsGathered};
ghost use Rattle.table_files.specs.Asked.{AskedToLoad};
ghost use Rattle.table_files.specs.Catalog.{Gathers};
ghost use Rattle.table_files.specs.Found.{found_of, nothing, tables_of};
ghost use Rattle.plan_semantics.specs.Plans.{columns_of};
ghost use Rattle.plan_semantics.specs.WellFormed.{AreTables};
ghost use Rattle.plan_rows.specs.Held.{tables_held};
ghost use Rattle.query_semantics.specs.Catalogs.{IsCatalog};
ghost use Rattle.query_semantics.specs.Shapes.{shape_of};
ghost use Rattle.query_semantics.specs.Sizes.{IsShortQuery};
ghost use Rattle.esql_answer.specs.Prepared.{MeansQuery};
ghost use Rattle.esql_run.specs.Answers.{IsTold};
ghost use Rattle.esql_run.specs.Built.{unbuilt_of};
ghost use Rattle.esql_run.specs.Made.{outcome_made};
ghost use Rattle.esql_run.specs.Rooms.{IsRoomOf};
ghost use Rattle.esql_run.specs.Shown.{shown};
ghost use Rattle.esql_run.specs.Stopped.{CalledToAnswer, MadeToAnswer, IsStopped, IsUnprepared, ErrorFits, IsNoRoom};
ghost use Rattle.esql_run.specs.Tables.{IsTablesOutcome, AnswersTables, AskedByTables, catalog_found, meant, refusal_of};

use crate::Status;
use crate::rendered::{Rendered, Unanswered, bad_file, refuse, refuse_by};
use answer_text::{Refusal, refusal_line};
use esql_answer::{
    AnalyzeError, Answer, Gathered, NameRule, Prepared, Stop, answer, copy_catalog, gather, load,
    prepare,
};
use esql_ast::{Query, uses_differ};
use esql_io::Files;
use esql_types::{Cell, Column, Maker, Seq, Text};
use esql_words::{Format, Options};
use ndjson_load::Table;
use std::alloc::{AllocError, Global};
use table_files::{some_gathering, some_halt, some_loading};
use table_out::{csv, json, txt};

/// The answer to a query of which each command is built: its tables and policies are found, then it is judged, then the rows of the
/// tables are read.
pub(crate) fn answer_tables<F: Files, M: Maker>(
    alloc: Global,
    options: &Options,
    text: &str,
    query: &Query,
    files: &mut F,
    maker: &mut M,
) -> Result<Rendered, Unanswered>
    requires fits { QueryFits text.now query.now }
    requires numbered { IsNumbered query.now }
    requires few { query.now.nodes ≤ 65537 }
    requires short { IsShortQuery query.now }
    requires built { unbuilt_of query.now ≡ None }
    ensures told { IfOk result (λ answer. AnswersTables options.now.folder options.now.format text.now (F.holds files.old) query.now (outcome_made answer)) }
    ensures status { IfOk result (λ answer. IsTold answer.status) }
    ensures called { CalledToAnswer F.holds F.faults F.failed (AskedByTables options.now.folder (F.holds files.old) text.now query.now) result files.old files.new }
    ensures made { MadeToAnswer M.refused (IsRoomOf M.refused M.last options.now.folder text.now (F.holds files.old) query.now) result maker.old maker.new }
{
    uses_differ();
    some_gathering();
    some_loading();
    some_halt();
    match gather(alloc, text, query, folder_of(options), files) {
        Ok(gathered) => answer_gathered(alloc, options, text, query, gathered, files, maker),
        Err(stop) => stopped(alloc, stop),
    }
}

/// The folder of the files, where one is named.
fn folder_of(options: &Options) -> Option<&str>
    ensures { option_copied result ≡ options.now.folder }
{
    match &options.folder {
        None => None,
        Some(folder) => Some(folder.as_str()),
    }
}

fn stopped(alloc: Global, stop: Stop) -> Result<Rendered, Unanswered>
    ensures stopped { IsStopped stop result }
    ensures status { IfOk result (λ answer. IsTold answer.status) }
{
    match stop {
        Stop::Refused { line } => Ok(refuse_by(alloc, line)?),
        Stop::BadData { line } => Ok(bad_file(alloc, line)?),
        Stop::ReadFault { file } => Err(Unanswered::ReadFault { file }),
        Stop::Memory(error) => Err(Unanswered::Memory(error)),
    }
}

/// The answer to a query whose tables and policies were found.
fn answer_gathered<F: Files, M: Maker>(
    alloc: Global,
    options: &Options,
    text: &str,
    query: &Query,
    gathered: Gathered,
    files: &mut F,
    maker: &mut M,
) -> Result<Rendered, Unanswered>
    requires fits { QueryFits text.now query.now }
    requires numbered { IsNumbered query.now }
    requires few { query.now.nodes ≤ 65537 }
    requires short { IsShortQuery query.now }
    requires built { unbuilt_of query.now ≡ None }
    requires gathered { IsGathered options.now.folder (F.holds files.old) query.now gathered }
    requires somewhere { Over (F.holds files.old) (λ bytes_of. Gathers options.now.folder (Some bytes_of) nothing (source_names query.now) (Ok (found_of gathered))) }
    requires catalog { IsCatalog gathered.catalog }
    requires loadable { All (λ table. All IsLoadable table.columns) (tables_of gathered) }
    ensures told { IfOk result (λ answer. IsTablesOutcome options.now.folder options.now.format (F.holds files.old) text.now query.now (outcome_made answer)) }
    ensures status { IfOk result (λ answer. IsTold answer.status) }
    ensures called { CalledToAnswer F.holds F.faults F.failed (AskedByTables options.now.folder (F.holds files.old) text.now query.now) result files.old files.new }
    ensures made { MadeToAnswer M.refused (IsRoomOf M.refused M.last options.now.folder text.now (F.holds files.old) query.now) result maker.old maker.new }
{
    let catalog = copy_catalog(alloc, &gathered.catalog)?;
    match prepare(alloc, text, query, catalog, maker) {
        Ok(prepared) => answer_prepared(alloc, options, text, query, gathered, &prepared, files),
        Err(error) => unprepared(alloc, text, error),
    }
}

pub(crate) fn unprepared(
    alloc: Global,
    text: &str,
    error: AnalyzeError,
) -> Result<Rendered, Unanswered>
    requires { ErrorFits text.now error }
    ensures unprepared { IsUnprepared text.now error result }
    ensures status { IfOk result (λ answer. IsTold answer.status) }
{
    match error {
        AnalyzeError::Broken { rule, span } => Ok(refuse(alloc, text, refusal_of(rule), span)?),
        AnalyzeError::PatternRoom { span } => Err(Unanswered::PatternRoom {
            line: refusal_line(alloc, text, Refusal::PatternRoom, span)?,
        }),
        AnalyzeError::Memory(error) => Err(Unanswered::Memory(error)),
    }
}

fn refusal_of(rule: NameRule) -> Refusal
    ensures { result ≡ refusal_of rule }
{
    match rule {
        NameRule::UnknownTable => Refusal::UnknownTable,
        NameRule::UnknownColumn => Refusal::UnknownColumn,
        NameRule::NoMatch => Refusal::NoMatch,
        NameRule::UnknownFunction => Refusal::UnknownFunction,
        NameRule::BadArguments => Refusal::BadArguments,
        NameRule::BadKind => Refusal::BadKind,
        NameRule::NotBoolean => Refusal::NotBoolean,
        NameRule::NotAggregate => Refusal::NotAggregate,
        NameRule::NestedAggregate => Refusal::NestedAggregate,
        NameRule::UnknownPolicy => Refusal::UnknownPolicy,
        NameRule::BadDissect => Refusal::BadDissect,
        NameRule::BadGrok => Refusal::BadGrok,
        NameRule::BadRegex => Refusal::BadRegex,
        NameRule::EmptyResultColumns => Refusal::EmptyResultColumns,
    }
}

/// The answer to a query that is prepared for its tables.
fn answer_prepared<F: Files>(
    alloc: Global,
    options: &Options,
    text: &str,
    query: &Query,
    gathered: Gathered,
    prepared: &Prepared,
    files: &mut F,
) -> Result<Rendered, Unanswered>
    requires fits { QueryFits text.now query.now }
    requires gathered { IsGathered options.now.folder (F.holds files.old) query.now gathered }
    requires loadable { All (λ table. All IsLoadable table.columns) (tables_of gathered) }
    requires catalog { prepared.now.catalog ≡ catalog_found (found_of gathered) }
    requires shape { shape_of text.now (catalog_found (found_of gathered)) query.now ≡ Ok (columns_of prepared.now.plan.output) }
    requires agrees { MeansQuery text.now query.now prepared.now }
    ensures told { IfOk result (λ answer. IsTablesOutcome options.now.folder options.now.format (F.holds files.old) text.now query.now (outcome_made answer)) }
    ensures status { IfOk result (λ answer. IsTold answer.status) }
    ensures called { CalledToAnswer F.holds F.faults F.failed (AskedToLoad options.now.folder (F.holds files.old) (tables_of gathered)) result files.old files.new }
    ensures room { IfErr result IsNoRoom }
{
    match load(alloc, text, query, folder_of(options), gathered, files) {
        Ok(loaded) => {
            let tables = loaded.tables.as_slice();
            Ok(show(alloc, options.format, text, query, prepared, tables)?)
        }
        Err(stop) => stopped(alloc, stop),
    }
}

/// The table in a format, and the warnings, of a query over its tables.
pub(crate) fn show(
    alloc: Global,
    format: Format,
    text: &str,
    query: &Query,
    prepared: &Prepared,
    tables: &[Table],
) -> Result<Rendered, AllocError>
    requires fits { QueryFits text.now query.now }
    requires tables { AreTables prepared.now.catalog (tables_held prepared.now.catalog tables.now) }
    requires agrees { MeansQuery text.now query.now prepared.now }
    ensures told { IfOk result (λ answer. outcome_made answer
        ≡ meant format text.now query.now (columns_of prepared.now.plan.output) (tables_held prepared.now.catalog tables.now)) }
    ensures status { IfOk result (λ answer. IsTold answer.status) }
{
    let Answer { columns, rows, log } = answer(alloc, prepared, tables)?;
    Ok(Rendered {
        status: Status::Done,
        out: shown(alloc, format, &columns, &rows)?,
        err: log.print(alloc, text, query)?,
    })
}

fn shown(
    alloc: Global,
    format: Format,
    columns: &Seq<Column>,
    rows: &Seq<Seq<Cell>>,
) -> Result<Text, AllocError>
    requires { All (λ row. length row ≡ length columns.now) rows.now }
    ensures { IfOk result (λ text. text ≡ shown format columns.now rows.now) }
{
    match format {
        Format::Txt => txt(alloc, columns, rows),
        Format::Csv => csv(alloc, columns, rows),
        Format::Json => json(alloc, columns, rows),
    }
}
