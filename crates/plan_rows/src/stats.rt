//! Rows into groups.
ghost use Rattle.std.specs.Prelude.{◌≡◌, length, map, Some, IfOk, OnOk};
ghost use Rattle.esql_scalar.specs.Rows.{row_of};
ghost use Rattle.plan_semantics.specs.Stats.{entry_of, stats_failures};
ghost use Rattle.warn_log.specs.Logs.{logged};
ghost use Rattle.plan_rows.specs.Kept.{rows_of, kept_stats};
ghost use Rattle.plan_rows.specs.Runs.{GroupsFailBelow};

use crate::steps::note_failures;
use esql_plan::{Aggregate, GroupColumn};
use esql_types::{Cell, Seq};
use stats_groups::Groups;
use std::alloc::{AllocError, Global};
use warn_log::Log;

/// A row for each group of rows, with its aggregates and its key in their columns and null in every other; what the aggregates
/// fail with is noted.
pub(crate) fn stats_rows(
    alloc: Global,
    aggregates: &[Aggregate],
    groups: &[GroupColumn],
    rows: Seq<Seq<Cell>>,
    log: &mut Log,
) -> Result<Seq<Seq<Cell>>, AllocError>
    requires { GroupsFailBelow (length log.old) aggregates.now groups.now }
    ensures rows { IfOk result (λ new. new ≡ kept_stats aggregates.now groups.now rows) }
    ensures log { OnOk result (log.new ≡ logged log.old (stats_failures aggregates.now groups.now (rows_of rows))) }
    ensures nodes { OnOk result (length log.new ≡ length log.old) }
{
    let grouped = grouped(alloc, aggregates, groups, rows)?;
    let mut failures = Seq::new(alloc);
    let rows = grouped.finish(&mut failures)?;
    note_failures(log, failures);
    Ok(rows)
}

/// The groups of rows, each of which is freed once it is added.
fn grouped(
    alloc: Global,
    aggregates: &[Aggregate],
    groups: &[GroupColumn],
    rows: Seq<Seq<Cell>>,
) -> Result<Groups, AllocError>
    ensures { IfOk result (λ grouped. grouped ≡ record {
      columns = groups.now;
      aggregates = aggregates.now;
      entries = Some (map (λ row. entry_of aggregates.now groups.now (row_of row)) rows);
    }) }
{
    let columns = Seq::from_vec(Vec::from_slice(alloc, groups)?);
    let running = Seq::from_vec(Vec::from_slice(alloc, aggregates)?);
    let mut grouped = Groups::new(alloc, columns, running)?;
    for row in rows.into_vec() {
        grouped.add_row(row)?;
    }
    Ok(grouped)
}
