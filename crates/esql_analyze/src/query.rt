ghost use Rattle.std.specs.Prelude.{◌≡◌, ◌≤◌, Ok, IfOk, IfErr};
ghost use Rattle.std.specs.List.{list_any};
ghost use Rattle.esql_ast.specs.Fits.{QueryFits};
ghost use Rattle.esql_ast.specs.Laws.{IsNumbered};
ghost use Rattle.plan_semantics.specs.Plans.{columns_of};
ghost use Rattle.query_semantics.specs.Built.{IsBuiltQuery};
ghost use Rattle.query_semantics.specs.Catalogs.{IsCatalog};
ghost use Rattle.query_semantics.specs.Cuts.{is_limit, last_count};
ghost use Rattle.query_semantics.specs.Sizes.{appended_in};
ghost use Rattle.query_semantics.specs.Shapes.{shape_of, shape_in};
ghost use Rattle.query_semantics.specs.Written.{written_of, source_in_plan, writing_of};
ghost use Rattle.expression_analysis.specs.Answers.{IsRefusal, IsTold, IsQuiet};
ghost use Rattle.plan_writing.specs.Contexts.{over_catalog};
ghost use Rattle.esql_analyze.specs.Regulars.{regulars_of_query};
ghost use Rattle.esql_analyze.specs.Plans.{IsWritten, Begins};
ghost use Rattle.plan_writing.specs.Answers.{Hears};

use crate::commands::write_commands;
use crate::source::{Begun, write_source};
use dissect_grok::Cutter;
use esql_ast::{Command, CommandKind, Query};
use esql_plan::{Catalog, Plan};
use esql_types::{Maker, Seq};
use expression_analysis::AnalyzeError;
use plan_writing::{Writing, write_limit};
use std::alloc::Global;
use text_match::Patterns;

/// A plan, and the regular expressions and the cutters that it reads.
#[derive(Drop)]
pub struct Analyzed {
    pub plan: Plan,
    pub patterns: Patterns,
    pub cutters: Seq<Cutter>,
}

fn is_limit(command: &Command) -> bool
    ensures { result ≡ is_limit command.now.kind }
{
    matches!(command.kind, CommandKind::Limit { .. })
}

fn has_limit(commands: &[Command]) -> bool
    ensures { result ≡ list_any (λ command. is_limit command.kind) commands.now }
{
    commands.iter().any(|command| is_limit(command))
}

// How many rows the last cut leaves.
fn last_count(query: &Query) -> u64
    ensures { result ≡ last_count query.now }
{
    if has_limit(query.commands.as_slice()) {
        10000
    } else {
        1000
    }
}

// The source, the commands and the last cut.
fn write_query<M: Maker>(
    alloc: Global,
    text: &str,
    query: &Query,
    catalog: &Catalog,
    maker: &mut M,
) -> Result<Begun, AnalyzeError>
    requires fits { QueryFits text.now query.now }
    requires numbered { IsNumbered query.now }
    requires few { query.now.nodes ≤ 65537 }
    requires appended { appended_in catalog.now.policies query.now.commands ≤ 80000000 }
    requires catalog { IsCatalog catalog.now }
    requires built { IsBuiltQuery query.now }
    ensures begins { Begins (λ accepts. shape_in (over_catalog text.now catalog.now accepts) query.now) (source_in_plan catalog.now query.now.source) (writing_of text.now catalog.now query.now) result }
    ensures hears { Hears M.refused M.last (regulars_of_query query.now) maker.old maker.new result }
{
    let begun = write_source(alloc, text, &query.source, catalog, maker)?;
    let commands = query.commands.as_slice();
    let writing = write_commands(alloc, text, catalog, begun.writing, commands, maker)?;
    let writing = write_limit(last_count(query), writing)?;
    Ok(Begun {
        source: begun.source,
        writing,
    })
}

/// The plan that a query is written as, or the first rule that it breaks.
///
/// Its regular expressions are built by the maker on the way. Refused: the first rule in written order that the query breaks; a
/// regular expression that is too large, up to which no rule is broken; and want of memory.
pub fn analyze<M: Maker>(
    alloc: Global,
    text: &str,
    query: &Query,
    catalog: &Catalog,
    maker: &mut M,
) -> Result<Analyzed, AnalyzeError>
    requires fits { QueryFits text.now query.now }
    requires numbered { IsNumbered query.now }
    requires few { query.now.nodes ≤ 65537 }
    requires appended { appended_in catalog.now.policies query.now.commands ≤ 80000000 }
    requires catalog { IsCatalog catalog.now }
    requires built { IsBuiltQuery query.now }
    ensures written { IfOk result (IsWritten (written_of text.now catalog.now query.now)) }
    ensures shape { IfOk result (λ analyzed. shape_of text.now catalog.now query.now ≡ Ok (columns_of analyzed.plan.output)) }
    ensures refusal { IfErr result (IsRefusal (λ accepts. shape_in (over_catalog text.now catalog.now accepts) query.now)) }
    ensures room { IfErr result (IsTold M.refused M.last (regulars_of_query query.now) maker.old maker.new) }
    ensures count { M.refused maker.old ≤ M.refused maker.new }
    ensures quiet { IsQuiet M.refused M.last maker.old maker.new result }
{
    let Begun { source, writing } = write_query(alloc, text, query, catalog, maker)?;
    let Writing {
        visible,
        next,
        patterns,
        cutters,
        steps,
    } = writing;
    let plan = Plan {
        source,
        steps,
        output: visible.into_seq(alloc)?,
        columns: next,
        nodes: query.nodes,
    };
    Ok(Analyzed {
        plan,
        patterns,
        cutters,
    })
}
