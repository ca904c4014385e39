ghost use Rattle.std.specs.Prelude.{◌≡◌, ◌+◌, ◌*◌, true, All, fold, length};
ghost use Rattle.std.specs.List.{flat_map};
ghost use Rattle.esql_ast.specs.Fits.{KindFits};
ghost use Rattle.esql_ast.specs.Nodes.{nodes_of_command};
ghost use Rattle.plan_semantics.specs.Plans.{columns_of};
ghost use Rattle.query_semantics.specs.Built.{is_built_kind};
ghost use Rattle.query_semantics.specs.Catalogs.{IsCatalog};
ghost use Rattle.query_semantics.specs.Sizes.{appended_by, appended_in};
ghost use Rattle.query_semantics.specs.Shapes.{shape_of_kind, shape_of_command, shape_of_commands};
ghost use Rattle.query_semantics.specs.Written.{write_kind, write_command};
ghost use Rattle.plan_writing.specs.Contexts.{over_catalog};
ghost use Rattle.plan_writing.specs.Writings.{seen, HasRoom};
ghost use Rattle.plan_writing.specs.Answers.{Writes, Hears};
ghost use Rattle.esql_analyze.specs.Regulars.{regulars_of_kind, regulars_of_command};

use crate::cuts::{write_dissect, write_grok};
use crate::enrich::write_enrich;
use crate::expand::write_expand;
use crate::names::{write_drop, write_keep, write_rename};
use crate::sort::write_sort;
use esql_ast::{Command, CommandKind};
use esql_plan::Catalog;
use esql_types::Maker;
use expression_analysis::AnalyzeError;
use plan_writing::{Writing, unless_empty, write_condition, write_fields, write_limit};
use stats_writing::write_stats;
use std::alloc::Global;

fn write_kind<M: Maker>(
    alloc: Global,
    text: &str,
    catalog: &Catalog,
    writing: Writing,
    command: &Command,
    maker: &mut M,
) -> Result<Writing, AnalyzeError>
    requires catalog { IsCatalog catalog.now }
    requires fits { KindFits text.now command.now.kind }
    requires built { is_built_kind command.now.kind ≡ true }
    requires room { HasRoom (seen writing) (2 * length (nodes_of_command command.now) + appended_by catalog.now.policies command.now.kind) }
    ensures writes { Writes (λ accepts. shape_of_kind (over_catalog text.now catalog.now accepts) command.now.kind (columns_of writing.visible)) (write_kind text.now catalog.now.policies command.now.node command.now.kind (seen writing)) result }
    ensures hears { Hears M.refused M.last (regulars_of_kind command.now.kind) maker.old maker.new result }
{
    match &command.kind {
        CommandKind::Filter { condition } => {
            write_condition(alloc, writing, command.node, condition, maker)
        }
        CommandKind::Eval { fields } => {
            write_fields(alloc, text, writing, fields.as_slice(), maker)
        }
        CommandKind::Keep { patterns } => write_keep(alloc, writing, patterns),
        CommandKind::Drop { patterns } => write_drop(alloc, writing, patterns),
        CommandKind::Rename { pairs } => write_rename(alloc, writing, pairs),
        CommandKind::Sort { keys } => write_sort(alloc, writing, keys.as_slice(), maker),
        CommandKind::Limit { count } => Ok(write_limit(*count, writing)?),
        CommandKind::Expand { column } => write_expand(alloc, writing, column),
        CommandKind::Stats { fields, groups } => {
            let groups = groups.as_slice();
            write_stats(alloc, text, writing, fields.as_slice(), groups, maker)
        }
        CommandKind::Dissect {
            input,
            pattern,
            separator,
        } => write_dissect(
            alloc,
            writing,
            command.node,
            input,
            pattern,
            separator,
            maker,
        ),
        CommandKind::Grok { input, pattern } => {
            write_grok(alloc, writing, command.node, input, pattern, maker)
        }
        CommandKind::Enrich { policy, on, fields } => {
            write_enrich(alloc, catalog, writing, policy, on, fields)
        }
        CommandKind::Join { .. } => unreachable!(),
    }
}

/// The steps of a command, which has to leave a column.
fn write_command<M: Maker>(
    alloc: Global,
    text: &str,
    catalog: &Catalog,
    writing: Writing,
    command: &Command,
    maker: &mut M,
) -> Result<Writing, AnalyzeError>
    requires catalog { IsCatalog catalog.now }
    requires fits { KindFits text.now command.now.kind }
    requires built { is_built_kind command.now.kind ≡ true }
    requires room { HasRoom (seen writing) (2 * length (nodes_of_command command.now) + appended_by catalog.now.policies command.now.kind) }
    ensures writes { Writes (λ accepts. shape_of_command (over_catalog text.now catalog.now accepts) command.now (columns_of writing.visible)) (write_command text.now catalog.now.policies (seen writing) command.now) result }
    ensures hears { Hears M.refused M.last (regulars_of_command command.now) maker.old maker.new result }
{
    let writing = write_kind(alloc, text, catalog, writing, command, maker)?;
    unless_empty(command.span, writing)
}

/// The steps of commands in turn.
pub(crate) fn write_commands<M: Maker>(
    alloc: Global,
    text: &str,
    catalog: &Catalog,
    writing: Writing,
    commands: &[Command],
    maker: &mut M,
) -> Result<Writing, AnalyzeError>
    requires catalog { IsCatalog catalog.now }
    requires fits { All (λ command. KindFits text.now command.kind) commands.now }
    requires built { All (λ command. is_built_kind command.kind ≡ true) commands.now }
    requires room { HasRoom (seen writing) (2 * length (flat_map nodes_of_command commands.now) + appended_in catalog.now.policies commands.now) }
    ensures writes { Writes (λ accepts. shape_of_commands (over_catalog text.now catalog.now accepts) commands.now (columns_of writing.visible)) (fold (write_command text.now catalog.now.policies) (seen writing) commands.now) result }
    ensures hears { Hears M.refused M.last (flat_map regulars_of_command commands.now) maker.old maker.new result }
{
    let mut writing = writing;
    for command in commands {
        writing = write_command(alloc, text, catalog, writing, command, maker)?;
    }
    Ok(writing)
}
