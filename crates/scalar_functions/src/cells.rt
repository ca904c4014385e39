ghost use Rattle.std.specs.Prelude.{◌≡◌, ◌++◌, ◌∷◌, [], OnOk};
ghost use Rattle.esql_plan.specs.Rules.{truth_in, multi_of, is_several, is_null};
ghost use Rattle.esql_plan.specs.Values.{failures_at};

use crate::values::truth_of;
use esql_types::{Cause, Cell, Failure, NodeId, Seq};
use std::alloc::AllocError;

/// Whether a cell is null.
pub fn is_null(cell: &Cell) -> bool
    ensures { result ≡ is_null cell.now }
{
    match cell.as_slice() {
        [] => true,
        [_, ..] => false,
    }
}

/// The truth of a cell, which is not known of null and of several values.
pub fn truth_in(cell: &Cell) -> Option<bool>
    ensures { result ≡ truth_in cell.now }
{
    match cell.as_slice() {
        [] => None,
        [value] => Some(truth_of(value)),
        [_, _, ..] => None,
    }
}

pub(crate) fn is_several(cell: &Cell) -> bool
    ensures { result ≡ is_several cell.now }
{
    match cell.as_slice() {
        [] => false,
        [_] => false,
        [_, _, ..] => true,
    }
}

/// A failure of the node.
pub(crate) fn fail(
    node: NodeId,
    cause: Cause,
    failures: &mut Seq<Failure>,
) -> Result<(), AllocError>
    ensures { OnOk result (failures.new ≡ failures.old ++ failures_at node (cause ∷ [])) }
{
    failures.push(Failure { node, cause })
}

/// A failure where a cell that is to have one value has several.
pub fn note_several(
    node: NodeId,
    cell: &Cell,
    failures: &mut Seq<Failure>,
) -> Result<(), AllocError>
    ensures { OnOk result (failures.new ≡ failures.old ++ failures_at node (multi_of cell.now)) }
{
    if is_several(cell) {
        fail(node, Cause::Multi, failures)
    } else {
        Ok(())
    }
}
