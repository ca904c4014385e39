ghost use Rattle.std.specs.Prelude.{◌≡◌, ◌≤◌, map, length, All, IfOk, OnOk};
ghost use Rattle.esql_plan.specs.Values.{NumberedRow};
ghost use Rattle.esql_scalar.specs.Rows.{row_of};
ghost use Rattle.plan_semantics.specs.Steps.{rows_after, failures_after};
ghost use Rattle.plan_semantics.specs.Plans.{plan_means, shown_row};
ghost use Rattle.plan_semantics.specs.WellFormed.{IsWellFormed, AreTables};
ghost use Rattle.warn_log.specs.Logs.{logged};
ghost use Rattle.plan_rows.specs.Held.{tables_held};
ghost use Rattle.plan_rows.specs.Kept.{rows_of, kept_rows, kept_failures};
ghost use Rattle.plan_rows.specs.Settings.{bounds_over, held_by};
ghost use Rattle.plan_rows.specs.Runs.{CanRun, FailsBelow, StatsFailBelow};

use crate::cuts::{dissect_at, dissect_rows, grok_at, grok_rows};
use crate::enrich::{enrich_rows, lookup_of, policy_at};
use crate::order::{first_rows, sort_rows};
use crate::source::{cell_of, source_rows};
use crate::stats::stats_rows;
use crate::steps::{eval_rows, expand_rows, filter_rows};
use dissect_grok::Cutter;
use esql_plan::{Catalog, OutColumn, Plan, Step};
use esql_types::{Cell, Seq};
use ndjson_load::Table;
use std::alloc::{AllocError, Global};
use text_match::Patterns;
use warn_log::Log;

/// What steps are run over: the catalog with its tables in order, and the patterns and cutters that steps read.
#[derive(Clone, Copy)]
pub(crate) struct Setting<'a> {
    pub(crate) catalog: &'a Catalog,
    pub(crate) tables: &'a [Table],
    pub(crate) patterns: &'a Patterns,
    pub(crate) cutters: &'a [Cutter],
}

/// The rows that a plan shows of the tables of its catalog, step by step; what fails on the way is noted in the log.
///
/// # Errors
/// Want of memory alone.
pub fn run_plan(
    alloc: Global,
    plan: &Plan,
    catalog: &Catalog,
    tables: &[Table],
    patterns: &Patterns,
    cutters: &[Cutter],
    log: &mut Log,
) -> Result<Seq<Seq<Cell>>, AllocError>
    requires formed { IsWellFormed catalog.now patterns.now.whole patterns.now.free cutters.now plan.now }
    requires tables { AreTables catalog.now (tables_held catalog.now tables.now) }
    requires log { plan.now.nodes ≤ length log.old }
    ensures rows { IfOk result (λ rows. rows ≡ (plan_means plan.now (tables_held catalog.now tables.now)).rows) }
    ensures log { OnOk result (log.new ≡ logged log.old (plan_means plan.now (tables_held catalog.now tables.now)).failures) }
    ensures nodes { OnOk result (length log.new ≡ length log.old) }
{
    let steps = plan.steps.as_slice();
    let rows = source_rows(alloc, &plan.source, room_for(plan), catalog, tables)?;
    let setting = Setting {
        catalog,
        tables,
        patterns,
        cutters,
    };
    let rows = run_steps(alloc, setting, steps, rows, log)?;
    shown_rows(alloc, plan.output.as_slice(), rows.as_slice())
}

/// For how many cells the rows of the source have room: for all columns, where a step puts one into them before they are grouped.
fn room_for(plan: &Plan) -> u32
    ensures { result ≤ plan.now.columns }
{
    for step in plan.steps.as_slice() {
        match step {
            Step::Eval { .. }
            | Step::Expand { .. }
            | Step::Dissect { .. }
            | Step::Grok { .. }
            | Step::Enrich { .. } => return plan.columns,
            Step::Stats { .. } => return 0,
            Step::Filter { .. } | Step::Sort { .. } | Step::TopN { .. } | Step::Limit { .. } => {}
        }
    }
    0
}

/// The rows after steps one after another.
fn run_steps(
    alloc: Global,
    setting: Setting<'_>,
    steps: &[Step],
    source: Seq<Seq<Cell>>,
    log: &mut Log,
) -> Result<Seq<Seq<Cell>>, AllocError>
    requires run { All (CanRun (bounds_over setting)) steps.now }
    requires fails { All (FailsBelow (length log.old)) steps.now }
    requires stats { All (StatsFailBelow (length log.old)) steps.now }
    ensures rows { IfOk result (λ rows. rows_of rows ≡ rows_after (held_by setting.entry) steps.now (rows_of source)) }
    ensures log { OnOk result (log.new ≡ logged log.old (failures_after (held_by setting.entry) steps.now (rows_of source))) }
    ensures nodes { OnOk result (length log.new ≡ length log.old) }
{
    let mut rows = source;
    for step in steps {
        rows = run_step(alloc, setting, step, rows, log)?;
    }
    Ok(rows)
}

/// The rows after a step.
fn run_step(
    alloc: Global,
    setting: Setting<'_>,
    step: &Step,
    rows: Seq<Seq<Cell>>,
    log: &mut Log,
) -> Result<Seq<Seq<Cell>>, AllocError>
    requires run { CanRun (bounds_over setting) step.now }
    requires fails { FailsBelow (length log.old) step.now }
    requires stats { StatsFailBelow (length log.old) step.now }
    ensures rows { IfOk result (λ new. new ≡ kept_rows (held_by setting.entry) step.now rows) }
    ensures log { OnOk result (log.new ≡ logged log.old (kept_failures step.now rows)) }
    ensures nodes { OnOk result (length log.new ≡ length log.old) }
{
    let patterns = setting.patterns;
    match step {
        Step::Eval { to, expr } => eval_rows(alloc, *to, expr, rows, patterns, log),
        Step::Filter { node, condition } => {
            filter_rows(alloc, *node, condition, rows, patterns, log)
        }
        Step::Expand { id, to } => expand_rows(alloc, *id, *to, rows),
        Step::Sort { keys } => sort_rows(keys.as_slice(), rows),
        Step::TopN { keys, count } => {
            let sorted = sort_rows(keys.as_slice(), rows)?;
            Ok(first_rows(sorted, *count))
        }
        Step::Limit { count } => Ok(first_rows(rows, *count)),
        Step::Stats { aggregates, groups } => stats_rows(
            alloc,
            aggregates.as_slice(),
            groups.as_slice(),
            rows,
            log,
        ),
        Step::Dissect {
            input,
            cutter,
            to,
            ..
        } => {
            let dissect = dissect_at(setting.cutters, *cutter);
            dissect_rows(alloc, *input, dissect, to.as_slice(), rows)
        }
        Step::Grok {
            node,
            input,
            cutter,
            to,
            ..
        } => {
            let grok = grok_at(setting.cutters, *cutter);
            let to = to.as_slice();
            grok_rows(alloc, *node, *input, grok, to, rows, patterns, log)
        }
        Step::Enrich {
            policy,
            on,
            fields,
            to,
        } => {
            let policy = policy_at(setting.catalog, *policy);
            let lookup = lookup_of(alloc, policy, setting.catalog, setting.tables)?;
            let fields = fields.as_slice();
            enrich_rows(alloc, *on, fields, &lookup, to.as_slice(), rows)
        }
    }
}

/// The cells of the columns that are shown, of each row.
fn shown_rows(
    alloc: Global,
    output: &[OutColumn],
    rows: &[Seq<Cell>],
) -> Result<Seq<Seq<Cell>>, AllocError>
    ensures { IfOk result (λ shown. shown ≡ map (shown_row output.now) (rows_of rows.now)) }
{
    let mut shown = Seq::new(alloc);
    for row in rows {
        shown.push(shown_row(alloc, output, row)?)?;
    }
    Ok(shown)
}

fn shown_row(alloc: Global, output: &[OutColumn], row: &Seq<Cell>) -> Result<Seq<Cell>, AllocError>
    ensures { IfOk result (λ shown. shown ≡ shown_row output.now (row_of row.now)) }
{
    let mut shown = Vec::with_capacity(alloc, output.len())?;
    for column in output {
        shown.push(cell_of(alloc, row, column.id.0 as usize)?)?;
    }
    Ok(Seq::from_vec(shown))
}
