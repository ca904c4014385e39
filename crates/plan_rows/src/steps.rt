ghost use Rattle.std.specs.Prelude.{◌≡◌, ◌++◌, ◌∷◌, [], if◌then◌else◌, length, IfOk, OnOk, slice_index_or};
ghost use Rattle.std.specs.List.{flat_map};
ghost use Rattle.esql_plan.specs.declared.step.Step.TheVariants.{Eval, Filter, Expand};
ghost use Rattle.esql_plan.specs.Fits.{ExprFits};
ghost use Rattle.esql_plan.specs.Rules.{truth_in};
ghost use Rattle.esql_plan.specs.Values.{is_met, value_of_typed};
ghost use Rattle.esql_scalar.specs.Rows.{row_of};
ghost use Rattle.plan_semantics.specs.Laws.{AreBelow};
ghost use Rattle.plan_semantics.specs.Steps.{is_true, step_fails, failures_of_condition};
ghost use Rattle.warn_log.specs.Logs.{logged};
ghost use Rattle.plan_rows.specs.Kept.{expanded_cells, kept_eval, kept_if, kept_expanded, kept_failures};
ghost use Rattle.plan_rows.specs.Runs.{FailsBelow};
ghost use Rattle.stats_groups.specs.Cells.{put_cell};

use crate::source::cell_of;
use esql_plan::TypedExpr;
use esql_scalar::evaluate;
use esql_types::{Cell, ColId, Failure, NodeId, Seq};
use scalar_functions::{note_several, truth_in};
use stats_groups::put_cell;
use std::alloc::{AllocError, Global};
use text_match::Patterns;
use warn_log::Log;

/// Puts the value of an expression into a column of each row.
pub(crate) fn eval_rows(
    alloc: Global,
    to: ColId,
    expr: &TypedExpr,
    rows: Seq<Seq<Cell>>,
    patterns: &Patterns,
    log: &mut Log,
) -> Result<Seq<Seq<Cell>>, AllocError>
    requires fits { ExprFits patterns.now.whole patterns.now.free expr.now }
    requires fails { FailsBelow (length log.old) (Eval to expr.now) }
    ensures rows { IfOk result (λ new. new ≡ flat_map (kept_eval to expr.now) rows) }
    ensures log { OnOk result (log.new ≡ logged log.old (kept_failures (Eval to expr.now) rows)) }
    ensures nodes { OnOk result (length log.new ≡ length log.old) }
{
    let mut new = Seq::new(alloc);
    for row in rows.into_vec() {
        let cell = value_noted(alloc, expr, &row, patterns, log)?;
        add_row(alloc, row, to, cell, &mut new)?;
    }
    Ok(new)
}

/// The value of an expression on a row; its failures are noted.
fn value_noted(
    alloc: Global,
    expr: &TypedExpr,
    row: &Seq<Cell>,
    patterns: &Patterns,
    log: &mut Log,
) -> Result<Cell, AllocError>
    requires fits { ExprFits patterns.now.whole patterns.now.free expr.now }
    requires fails { AreBelow (length log.old) (value_of_typed expr.now (row_of row.now)).failures }
    ensures cell { IfOk result (λ cell. cell ≡ (value_of_typed expr.now (row_of row.now)).cell) }
    ensures log { OnOk result (log.new ≡ logged log.old (value_of_typed expr.now (row_of row.now)).failures) }
    ensures nodes { OnOk result (length log.new ≡ length log.old) }
{
    let mut failures = Seq::new(alloc);
    let cell = evaluate(alloc, expr, row, patterns, &mut failures)?;
    note_failures(log, failures);
    Ok(cell)
}

/// Notes failures in order.
pub(crate) fn note_failures(log: &mut Log, failures: Seq<Failure>)
    requires { AreBelow (length log.old) failures }
    ensures log { log.new ≡ logged log.old failures }
    ensures nodes { length log.new ≡ length log.old }
{
    for failure in failures.into_vec() {
        let Failure { node, cause } = failure;
        log.note(node, cause);
    }
}

/// Keeps the rows whose condition is true.
pub(crate) fn filter_rows(
    alloc: Global,
    node: NodeId,
    condition: &TypedExpr,
    rows: Seq<Seq<Cell>>,
    patterns: &Patterns,
    log: &mut Log,
) -> Result<Seq<Seq<Cell>>, AllocError>
    requires fits { ExprFits patterns.now.whole patterns.now.free condition.now }
    requires fails { FailsBelow (length log.old) (Filter node condition.now) }
    ensures rows { IfOk result (λ new. new ≡ flat_map (kept_if condition.now) rows) }
    ensures log { OnOk result (log.new ≡ logged log.old (kept_failures (Filter node condition.now) rows)) }
    ensures nodes { OnOk result (length log.new ≡ length log.old) }
{
    let mut kept = Seq::new(alloc);
    for row in rows.into_vec() {
        let is_kept = is_met_noted(alloc, node, condition, &row, patterns, log)?;
        keep_row(row, is_kept, &mut kept)?;
    }
    Ok(kept)
}

/// Whether a condition is true on a row; its failures are noted, and that it has several values.
fn is_met_noted(
    alloc: Global,
    node: NodeId,
    condition: &TypedExpr,
    row: &Seq<Cell>,
    patterns: &Patterns,
    log: &mut Log,
) -> Result<bool, AllocError>
    requires fits { ExprFits patterns.now.whole patterns.now.free condition.now }
    requires fails { AreBelow (length log.old) (failures_of_condition node (value_of_typed condition.now (row_of row.now))) }
    ensures met { IfOk result (λ met. met ≡ is_true (value_of_typed condition.now (row_of row.now)).cell) }
    ensures log { OnOk result (log.new ≡ logged log.old (failures_of_condition node (value_of_typed condition.now (row_of row.now)))) }
    ensures nodes { OnOk result (length log.new ≡ length log.old) }
{
    let mut failures = Seq::new(alloc);
    let cell = evaluate(alloc, condition, row, patterns, &mut failures)?;
    note_several(node, &cell, &mut failures)?;
    note_failures(log, failures);
    Ok(is_true(&cell))
}

fn is_true(cell: &Cell) -> bool
    ensures { result ≡ is_true cell.now }
{
    match truth_in(cell) {
        Some(truth) => truth,
        None => false,
    }
}

fn keep_row(row: Seq<Cell>, is_kept: bool, kept: &mut Seq<Seq<Cell>>) -> Result<(), AllocError>
    ensures { OnOk result (kept.new ≡ kept.old ++ (if is_kept then row ∷ [] else [])) }
{
    if is_kept {
        kept.push(row)?;
    }
    Ok(())
}

/// Puts each value of a column alone into another column, of a row of its own.
pub(crate) fn expand_rows(
    alloc: Global,
    id: ColId,
    to: ColId,
    rows: Seq<Seq<Cell>>,
) -> Result<Seq<Seq<Cell>>, AllocError>
    ensures { IfOk result (λ new. new ≡ flat_map (kept_expanded id to) rows) }
{
    let mut new = Seq::new(alloc);
    for row in rows.into_vec() {
        let cell = cell_of(alloc, &row, id.0 as usize)?;
        expand_row(alloc, to, cell, row, &mut new)?;
    }
    Ok(new)
}

/// Adds a row for each value of a cell, or one with null where it has none.
fn expand_row(
    alloc: Global,
    to: ColId,
    cell: Cell,
    row: Seq<Cell>,
    new: &mut Seq<Seq<Cell>>,
) -> Result<(), AllocError>
    ensures { OnOk result (new.new ≡ new.old ++ expanded_cells row to.0 cell) }
{
    if cell.len() <= 1 {
        return add_row(alloc, row, to, cell, new);
    }
    for value in cell.as_slice() {
        add_row(
            alloc,
            copied(alloc, &row)?,
            to,
            Cell::one(alloc, value.copy()?),
            new,
        )?;
    }
    Ok(())
}

/// Adds a row with this cell in a column.
fn add_row(
    alloc: Global,
    mut row: Seq<Cell>,
    to: ColId,
    cell: Cell,
    new: &mut Seq<Seq<Cell>>,
) -> Result<(), AllocError>
    ensures { OnOk result (new.new ≡ new.old ++ put_cell row to.0 cell ∷ []) }
{
    put_cell(alloc, &mut row, to.0 as usize, cell)?;
    new.push(row)
}

fn copied(alloc: Global, row: &Seq<Cell>) -> Result<Seq<Cell>, AllocError>
    ensures { IfOk result (λ copy. copy ≡ row.now) }
{
    let mut copy = Vec::with_capacity(alloc, row.len())?;
    for cell in row.as_slice() {
        copy.push(cell.copy()?)?;
    }
    Ok(Seq::from_vec(copy))
}
