ghost use Rattle.std.specs.Prelude.{◌≡◌, ◌++◌, map, All, IfOk, OnOk};
ghost use Rattle.std.specs.List.{flat_map};
ghost use Rattle.esql_plan.specs.Fits.{ExprFits};
ghost use Rattle.esql_plan.specs.Rules.{truth_in};
ghost use Rattle.esql_plan.specs.Values.{value_of_typed, is_met, case_of, coalesce_of};
ghost use Rattle.esql_scalar.specs.Rows.{row_of, values_of};
ghost use Rattle.esql_scalar.specs.Turns.{turn_after};

use esql_plan::{TypedExpr, TypedForm};
use esql_types::{Cell, ColId, Failure, NodeId, Seq};
use scalar_functions::{Branches, apply, branches_of, is_null, note_several, truth_in};
use std::alloc::{AllocError, Global};
use text_match::Patterns;

/// The value of a typed expression on a row, which is kept as a cell for each column number; the failures on the row are
/// added in order. After want of memory some of them may stand there.
///
/// # Errors
/// Want of memory alone.
#[cycle(evaluate)]
pub fn evaluate(
    alloc: Global,
    expr: &TypedExpr,
    row: &Seq<Cell>,
    patterns: &Patterns,
    failures: &mut Seq<Failure>,
) -> Result<Cell, AllocError>
    requires { ExprFits patterns.now.whole patterns.now.free expr.now }
    ensures cell { IfOk result (λ cell. cell ≡ (value_of_typed expr.now (row_of row.now)).cell) }
    ensures failures { OnOk result (failures.new ≡ failures.old ++ (value_of_typed expr.now (row_of row.now)).failures) }
{
    match &expr.form {
        TypedForm::Constant { cell } => cell.copy(),
        TypedForm::Column { id } => cell_at(alloc, row, *id),
        TypedForm::Apply {
            function,
            args,
            pattern,
        } => match branches_of(*function) {
            Some(Branches::Case) => case_of(
                alloc,
                expr.node,
                args.as_slice(),
                row,
                patterns,
                failures,
            ),
            Some(Branches::Coalesce) => coalesce_of(
                alloc,
                args.as_slice(),
                row,
                patterns,
                failures,
            ),
            None => {
                let cells = evaluate_all(alloc, args.as_slice(), row, patterns, failures)?;
                apply(
                    alloc,
                    expr.node,
                    *function,
                    cells.as_slice(),
                    *pattern,
                    patterns,
                    failures,
                )
            }
        },
    }
}

/// The values of parts, all of which are evaluated from the left.
#[cycle(evaluate)]
fn evaluate_all(
    alloc: Global,
    args: &[TypedExpr],
    row: &Seq<Cell>,
    patterns: &Patterns,
    failures: &mut Seq<Failure>,
) -> Result<Seq<Cell>, AllocError>
    requires { All (ExprFits patterns.now.whole patterns.now.free) args.now }
    ensures cells { IfOk result (λ cells. cells ≡ map (λ arg. (value_of_typed arg (row_of row.now)).cell) args.now) }
    ensures failures { OnOk result (failures.new ≡
        failures.old ++ flat_map (λ arg. (value_of_typed arg (row_of row.now)).failures) args.now) }
{
    let mut cells = Seq::new(alloc);
    for arg in args {
        cells.push(evaluate(alloc, arg, row, patterns, failures)?)?;
    }
    Ok(cells)
}

/// What the next part of CASE is.
#[derive(Clone, Copy, Debug)]
pub enum CaseTurn {
    /// A condition, or the last part, which has no condition.
    Condition,
    /// The part of a condition that is not met.
    Passed,
    /// The part of the condition that is met.
    Met,
}

/// CASE: conditions in turn, up to the first that is met.
#[cycle(evaluate)]
fn case_of(
    alloc: Global,
    node: NodeId,
    args: &[TypedExpr],
    row: &Seq<Cell>,
    patterns: &Patterns,
    failures: &mut Seq<Failure>,
) -> Result<Cell, AllocError>
    requires { All (ExprFits patterns.now.whole patterns.now.free) args.now }
    ensures cell { IfOk result (λ cell. cell ≡ (case_of node (values_of args.now (row_of row.now))).cell) }
    ensures failures { OnOk result (failures.new ≡ failures.old ++ (case_of node (values_of args.now (row_of row.now))).failures) }
{
    let mut turn = CaseTurn::Condition;
    for (place, arg) in args.iter().enumerate() {
        turn = match turn {
            CaseTurn::Passed => CaseTurn::Condition,
            CaseTurn::Met => return evaluate(alloc, arg, row, patterns, failures),
            CaseTurn::Condition => {
                if place == args.len() - 1 {
                    return evaluate(alloc, arg, row, patterns, failures);
                }
                let cell = evaluate(alloc, arg, row, patterns, failures)?;
                note_several(node, &cell, failures)?;
                turn_after(&cell)
            }
        };
    }
    Ok(Cell::null(alloc))
}

/// What stands behind a condition of this cell.
fn turn_after(cell: &Cell) -> CaseTurn
    ensures { result ≡ turn_after (is_met (truth_in cell.now)) }
{
    if is_met(cell) {
        CaseTurn::Met
    } else {
        CaseTurn::Passed
    }
}

fn is_met(cell: &Cell) -> bool
    ensures { result ≡ is_met (truth_in cell.now) }
{
    match truth_in(cell) {
        Some(truth) => truth,
        None => false,
    }
}

/// COALESCE: parts in turn, up to the first that is not null.
#[cycle(evaluate)]
fn coalesce_of(
    alloc: Global,
    args: &[TypedExpr],
    row: &Seq<Cell>,
    patterns: &Patterns,
    failures: &mut Seq<Failure>,
) -> Result<Cell, AllocError>
    requires { All (ExprFits patterns.now.whole patterns.now.free) args.now }
    ensures cell { IfOk result (λ cell. cell ≡ (coalesce_of (values_of args.now (row_of row.now))).cell) }
    ensures failures { OnOk result (failures.new ≡ failures.old ++ (coalesce_of (values_of args.now (row_of row.now))).failures) }
{
    for part in args {
        let cell = evaluate(alloc, part, row, patterns, failures)?;
        if !is_null(&cell) {
            return Ok(cell);
        }
    }
    Ok(Cell::null(alloc))
}

/// The cell of a column number, null where there is none.
fn cell_at(alloc: Global, row: &Seq<Cell>, id: ColId) -> Result<Cell, AllocError>
    ensures { IfOk result (λ cell. cell ≡ row_of row.now id.0) }
{
    match row.at(id.0 as usize) {
        Some(cell) => cell.copy(),
        None => Ok(Cell::null(alloc)),
    }
}
