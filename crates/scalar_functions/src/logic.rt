ghost use Rattle.std.specs.Prelude.{◌≡◌, ◌++◌, ◌∷◌, [], map, OnOk, IfOk};
ghost use Rattle.std.specs.List.{flat_map, list_any};
ghost use Rattle.function_rules.specs.Logic.{any_of};
ghost use Rattle.esql_plan.specs.Rules.{truth_in, multi_of, truth_given, is_item, multi_among, is_several, is_same, given_logic, given_membership, first_cell, later_cells};
ghost use Rattle.esql_plan.specs.Values.{failures_at};
ghost use Rattle.scalar_functions.specs.Calls.{connective_rule, membership_rule};

use crate::Connective;
use crate::cells::{fail, is_several, note_several, truth_in};
use crate::values::order_of;
use esql_types::{Cause, Cell, Failure, NodeId, Seq, Value};
use number_rules::Comparison;
use plain_functions::logic::{and, not, or};
use plain_functions::numbers::holds;
use std::alloc::{AllocError, Global};

/// A failure for each operand of several values.
fn note_each(node: NodeId, cells: &[Cell], failures: &mut Seq<Failure>) -> Result<(), AllocError>
    ensures { OnOk result (failures.new ≡ failures.old ++ flat_map (λ cell. failures_at node (multi_of cell)) cells.now) }
{
    for cell in cells {
        note_several(node, cell, failures)?;
    }
    Ok(())
}

/// The cell of a truth, null where it is not known.
fn truth_cell(alloc: Global, truth: Option<bool>) -> Cell
    ensures { result ≡ truth_given truth }
{
    match truth {
        Some(truth) => Cell::one(alloc, Value::Bool(truth)),
        None => Cell::null(alloc),
    }
}

/// What AND, OR and NOT make of truths.
#[tactic(auto, using(crate::proofs::Truths::of_one_truth_not, crate::proofs::Truths::of_two_truths_not))]
fn connected(connective: Connective, cells: &[Cell]) -> Option<bool>
    ensures { result ≡ connective_rule connective (map truth_in cells.now) }
{
    match connective {
        Connective::And => match cells {
            [left, right] => and(truth_in(left), truth_in(right)),
            _ => None,
        },
        Connective::Or => match cells {
            [left, right] => or(truth_in(left), truth_in(right)),
            _ => None,
        },
        Connective::Not => match cells {
            [operand] => not(truth_in(operand)),
            _ => None,
        },
    }
}

/// AND, OR and NOT at a node, of the cells of their operands.
pub(crate) fn logic(
    alloc: Global,
    node: NodeId,
    connective: Connective,
    cells: &[Cell],
    failures: &mut Seq<Failure>,
) -> Result<Cell, AllocError>
    ensures cell { IfOk result (λ cell. cell ≡ (given_logic (connective_rule connective) cells.now).cell) }
    ensures failures { OnOk result (failures.new ≡
        failures.old ++ failures_at node (given_logic (connective_rule connective) cells.now).causes) }
{
    note_each(node, cells, failures)?;
    Ok(truth_cell(alloc, connected(connective, cells)))
}

/// Whether an item is the left side, which is not known of null and of several values.
fn is_item(left: &Value, item: &Cell) -> Option<bool>
    ensures { result ≡ is_item left.now item.now }
{
    match item.as_slice() {
        [] => None,
        [value] => Some(holds(Comparison::Equal, order_of(left, value))),
        [_, _, ..] => None,
    }
}

/// Whether some item is the left side.
fn any_item(left: &Value, items: &[Cell]) -> Option<bool>
    ensures { result ≡ any_of (map (is_item left.now) items.now) }
{
    match items {
        [] => Some(false),
        [item, rest @ ..] => or(is_item(left, item), any_item(left, rest)),
    }
}

fn has_several(items: &[Cell]) -> bool
    ensures { result ≡ list_any is_several items.now }
{
    items.iter().any(is_several)
}

/// One failure where there is an item of several values.
fn note_among(node: NodeId, items: &[Cell], failures: &mut Seq<Failure>) -> Result<(), AllocError>
    ensures { OnOk result (failures.new ≡ failures.old ++ failures_at node (multi_among items.now)) }
{
    if has_several(items) {
        fail(node, Cause::Multi, failures)
    } else {
        Ok(())
    }
}

/// What IN says, or NOT IN.
fn unless_negated(negated: bool, truth: Option<bool>) -> Option<bool>
    ensures { result ≡ membership_rule negated truth }
{
    if negated { not(truth) } else { truth }
}

/// IN and NOT IN at a node, of the cells of the left side and of the items.
pub(crate) fn membership(
    alloc: Global,
    node: NodeId,
    negated: bool,
    cells: &[Cell],
    failures: &mut Seq<Failure>,
) -> Result<Cell, AllocError>
    ensures cell { IfOk result (λ cell.
        cell ≡ (given_membership (membership_rule negated) (first_cell cells.now) (later_cells cells.now)).cell) }
    ensures failures { OnOk result (failures.new ≡ failures.old
        ++ failures_at node (given_membership (membership_rule negated) (first_cell cells.now) (later_cells cells.now)).causes) }
{
    match cells {
        [] => Ok(Cell::null(alloc)),
        [left, items @ ..] => member(alloc, node, negated, left.as_slice(), items, failures),
    }
}

/// The same of the values of the left side, where another number of them than one decides.
fn member(
    alloc: Global,
    node: NodeId,
    negated: bool,
    left: &[Value],
    items: &[Cell],
    failures: &mut Seq<Failure>,
) -> Result<Cell, AllocError>
    ensures cell { IfOk result (λ cell. cell ≡ (given_membership (membership_rule negated) left.now items.now).cell) }
    ensures failures { OnOk result (failures.new ≡ failures.old
        ++ failures_at node (given_membership (membership_rule negated) left.now items.now).causes) }
{
    match left {
        [] => Ok(Cell::null(alloc)),
        [value] => one_member(alloc, node, negated, value, items, failures),
        [_, _, ..] => {
            fail(node, Cause::Multi, failures)?;
            Ok(Cell::null(alloc))
        }
    }
}

/// The same of one value on the left side.
fn one_member(
    alloc: Global,
    node: NodeId,
    negated: bool,
    left: &Value,
    items: &[Cell],
    failures: &mut Seq<Failure>,
) -> Result<Cell, AllocError>
    ensures cell { IfOk result (λ cell. cell ≡ truth_given (membership_rule negated (any_of (map (is_item left.now) items.now)))) }
    ensures failures { OnOk result (failures.new ≡ failures.old ++ failures_at node (multi_among items.now)) }
{
    note_among(node, items, failures)?;
    Ok(truth_cell(alloc, unless_negated(negated, any_item(left, items))))
}
