//! The answer to `--generate`: that to a query over a table which is made from a seed.
ghost use Rattle.std.specs.Prelude.{◌≡◌, ◌≤◌, ◌++◌, Ok, IfOk, IfErr};
ghost use Rattle.esql_ast.specs.Fits.{QueryFits};
ghost use Rattle.esql_ast.specs.Laws.{IsNumbered};
ghost use Rattle.plan_semantics.specs.Plans.{columns_of};
ghost use Rattle.query_semantics.specs.Shapes.{shape_of};
ghost use Rattle.query_semantics.specs.Sizes.{IsShortQuery};
ghost use Rattle.esql_answer.specs.Prepared.{MeansQuery};
ghost use Rattle.table_generator.specs.Words.{generated_query};
ghost use Rattle.esql_run.specs.Answers.{IsTold};
ghost use Rattle.esql_run.specs.Built.{unbuilt_of};
ghost use Rattle.esql_run.specs.Generated.{generated_catalog, answered_for, generated_by, IsGenerated, IsRoomOver, IsRoomOfGenerated, IsNoFault};
ghost use Rattle.esql_run.specs.Made.{outcome_made};
ghost use Rattle.esql_run.specs.Stopped.{MadeToAnswer};

use crate::rendered::{Rendered, Unanswered, refuse};
use crate::tables::{show, unprepared};
use crate::unbuilt::first_unbuilt;
use answer_text::Refusal;
use esql_answer::{Prepared, QueryError, prepare, read_query};
use esql_ast::Query;
use esql_plan::Catalog;
use esql_types::{Maker, Seq, Text};
use esql_words::Format;
use ndjson_load::Table;
use std::alloc::{AllocError, Global};
use table_generator::{
    generated_line, generated_query, generated_rows, generated_shape, rows_have_their_kinds,
};

/// How the table is made, and how the answer is written.
#[derive(Clone, Copy)]
pub(crate) struct Generation {
    pub(crate) seed: u64,
    pub(crate) rows: u32,
    pub(crate) format: Format,
}

/// The answer over the table. No file is asked.
pub(crate) fn answer_generated<M: Maker>(
    alloc: Global,
    generation: Generation,
    maker: &mut M,
) -> Result<Rendered, Unanswered>
    ensures told { IfOk result (λ answer. IsGenerated generation (outcome_made answer)) }
    ensures status { IfOk result (λ answer. IsTold answer.status) }
    ensures made { MadeToAnswer M.refused (IsRoomOfGenerated M.refused M.last) result maker.old maker.new }
    ensures no_fault { IfErr result IsNoFault }
{
    let text = generated_query();
    match read_query(alloc, text) {
        Ok(query) => answer_query(alloc, generation, text, &query, maker),
        Err(QueryError::Refused { refusal, span }) => Ok(refuse(alloc, text, refusal, span)?),
        Err(QueryError::Memory(error)) => Err(Unanswered::Memory(error)),
    }
}

fn answer_query<M: Maker>(
    alloc: Global,
    generation: Generation,
    text: &str,
    query: &Query,
    maker: &mut M,
) -> Result<Rendered, Unanswered>
    requires fits { QueryFits text.now query.now }
    requires numbered { IsNumbered query.now }
    requires few { query.now.nodes ≤ 65537 }
    requires short { IsShortQuery query.now }
    ensures told { IfOk result (λ answer. outcome_made answer ≡ generated_by (unbuilt_of query.now) generation text.now query.now) }
    ensures status { IfOk result (λ answer. IsTold answer.status) }
    ensures made { MadeToAnswer M.refused (IsRoomOver M.refused M.last text.now query.now) result maker.old maker.new }
    ensures no_fault { IfErr result IsNoFault }
{
    match first_unbuilt(query) {
        Some(span) => Ok(refuse(alloc, text, Refusal::NotBuilt, span)?),
        None => answer_built(alloc, generation, text, query, maker),
    }
}

fn answer_built<M: Maker>(
    alloc: Global,
    generation: Generation,
    text: &str,
    query: &Query,
    maker: &mut M,
) -> Result<Rendered, Unanswered>
    requires fits { QueryFits text.now query.now }
    requires numbered { IsNumbered query.now }
    requires few { query.now.nodes ≤ 65537 }
    requires short { IsShortQuery query.now }
    requires built { unbuilt_of query.now ≡ None }
    ensures told { IfOk result (λ answer. outcome_made answer ≡ answered_for (shape_of text.now generated_catalog query.now) generation text.now query.now) }
    ensures status { IfOk result (λ answer. IsTold answer.status) }
    ensures made { MadeToAnswer M.refused (IsRoomOver M.refused M.last text.now query.now) result maker.old maker.new }
    ensures no_fault { IfErr result IsNoFault }
{
    let catalog = generated_catalog(alloc)?;
    match prepare(alloc, text, query, catalog, maker) {
        Ok(prepared) => Ok(show_generated(alloc, generation, text, query, &prepared)?),
        Err(error) => unprepared(alloc, text, error),
    }
}

fn generated_catalog(alloc: Global) -> Result<Catalog, AllocError>
    ensures { IfOk result (λ catalog. catalog ≡ generated_catalog) }
{
    let mut tables = Seq::new(alloc);
    tables.push(generated_shape(alloc)?)?;
    Ok(Catalog {
        tables,
        policies: Seq::new(alloc),
    })
}

fn show_generated(
    alloc: Global,
    generation: Generation,
    text: &str,
    query: &Query,
    prepared: &Prepared,
) -> Result<Rendered, AllocError>
    requires fits { QueryFits text.now query.now }
    requires catalog { prepared.now.catalog ≡ generated_catalog }
    requires agrees { MeansQuery text.now query.now prepared.now }
    ensures told { IfOk result (λ answer. outcome_made answer ≡ answered_for (Ok (columns_of prepared.now.plan.output)) generation text.now query.now) }
    ensures status { IfOk result (λ answer. IsTold answer.status) }
{
    rows_have_their_kinds();
    let mut tables = Seq::new(alloc);
    let rows = generated_rows(alloc, generation.seed, generation.rows)?;
    tables.push(Table::from_rows(rows))?;
    let shown = show(
        alloc,
        generation.format,
        text,
        query,
        prepared,
        tables.as_slice(),
    )?;
    let line = generated_line(alloc, generation.seed, generation.rows)?;
    Ok(Rendered {
        status: shown.status,
        out: joined(alloc, shown.out.as_str(), line.as_str())?,
        err: shown.err,
    })
}

fn joined(alloc: Global, front: &str, line: &str) -> Result<Text, AllocError>
    ensures { IfOk result (λ text. text ≡ front.now ++ line.now) }
{
    let mut out = String::new(alloc);
    out.push_str(front)?;
    out.push_str(line)?;
    Ok(Text::from_string(out))
}
