ghost use Rattle.std.specs.Prelude.{◌≡◌, ◌++◌, None, map, IfOk, OnOk};
ghost use Rattle.std.specs.List.{list_any};
ghost use Rattle.esql_plan.specs.Rules.{given_each, given_lists, first_cell, is_null};
ghost use Rattle.esql_plan.specs.Functions.{append_rule};
ghost use Rattle.esql_plan.specs.Values.{failures_at, silent, applied};
ghost use Rattle.function_rules.specs.Found.{wrapped};
ghost use Rattle.scalar_functions.specs.Taken.{branches_of, IsRead, as_written};
ghost use Rattle.scalar_functions.specs.Calls.{given_of, conversion_rule, test_rule};
ghost use Rattle.scalar_functions.specs.Patterns.{PlainHasPattern};
ghost use Rattle.scalar_functions.specs.Results.{given_by};

use crate::cells::{fail, is_null};
use crate::conversions::convert;
use crate::list::of_list;
use crate::logic::{logic, membership};
use crate::single::of_singles;
use crate::{Call, Conversion, Outcome, Plain, call_of};
use esql_plan::Function;
use esql_types::{Cell, Failure, NodeId, Seq, Value};
use plain_functions::lists::append;
use std::alloc::{AllocError, Global};
use text_match::Patterns;

/// What a function that takes the cells of all its arguments gives at a node, where they gave no failures; its own are added.
///
/// `number` is that of the pattern of RLIKE, NOT RLIKE or REPLACE, which is read from the second cell. After want of memory
/// some failures may have been added.
///
/// # Errors
/// Want of memory alone.
pub fn apply(
    alloc: Global,
    node: NodeId,
    function: Function,
    cells: &[Cell],
    number: Option<u32>,
    patterns: &Patterns,
    failures: &mut Seq<Failure>,
) -> Result<Cell, AllocError>
    requires cells { branches_of function ≡ None }
    requires rlike { function ≡ Function.Rlike → IsRead patterns.now.whole number wrapped cells.now }
    requires not_rlike { function ≡ Function.NotRlike → IsRead patterns.now.whole number wrapped cells.now }
    requires replace { function ≡ Function.Replace → IsRead patterns.now.free number as_written cells.now }
    ensures cell { IfOk result (λ cell. cell ≡ (applied function node (map silent cells.now)).cell) }
    ensures failures { OnOk result (failures.new ≡ failures.old ++ (applied function node (map silent cells.now)).failures) }
{
    match call_of(function) {
        Call::Branches(_) => unreachable!(),
        Call::Plain(plain) => of_cells(alloc, node, plain, cells, number, patterns, failures),
    }
}

/// The same by how the function takes its cells.
fn of_cells(
    alloc: Global,
    node: NodeId,
    plain: Plain,
    cells: &[Cell],
    number: Option<u32>,
    patterns: &Patterns,
    failures: &mut Seq<Failure>,
) -> Result<Cell, AllocError>
    requires { PlainHasPattern plain cells.now number patterns.now.whole patterns.now.free }
    ensures cell { IfOk result (λ cell. cell ≡ (given_of plain cells.now).cell) }
    ensures failures { OnOk result (failures.new ≡ failures.old ++ failures_at node (given_of plain cells.now).causes) }
{
    match plain {
        Plain::Singles(function) => {
            let outcome = of_singles(alloc, function, cells, number, patterns)?;
            settled(alloc, node, outcome, failures)
        }
        Plain::Each(conversion) => match cells {
            [] => Ok(Cell::null(alloc)),
            [cell, ..] => each(alloc, node, conversion, cell.as_slice(), failures),
        },
        Plain::List(function) => {
            let outcome = of_list(alloc, function, cells)?;
            settled(alloc, node, outcome, failures)
        }
        Plain::Append => {
            let outcome = appended(alloc, cells)?;
            settled(alloc, node, outcome, failures)
        }
        Plain::Test { negated } => Ok(Cell::one(alloc, Value::Bool(tested(negated, cells)))),
        Plain::Logic(connective) => logic(alloc, node, connective, cells, failures),
        Plain::Membership { negated } => membership(alloc, node, negated, cells, failures),
    }
}

/// The cell of what a function gives at a node.
fn settled(
    alloc: Global,
    node: NodeId,
    outcome: Outcome,
    failures: &mut Seq<Failure>,
) -> Result<Cell, AllocError>
    ensures cell { IfOk result (λ cell. cell ≡ (given_by outcome).cell) }
    ensures failures { OnOk result (failures.new ≡ failures.old ++ failures_at node (given_by outcome).causes) }
{
    match outcome {
        Outcome::Nothing => Ok(Cell::null(alloc)),
        Outcome::One(value) => Ok(Cell::one(alloc, value)),
        Outcome::Several(cell) => Ok(cell),
        Outcome::Fails(cause) => {
            fail(node, cause, failures)?;
            Ok(Cell::null(alloc))
        }
    }
}

/// What a conversion gives of each value at a node, where one that fails gives none.
#[tactic(auto, using(crate::proofs::Truths::failures_each))]
fn each(
    alloc: Global,
    node: NodeId,
    conversion: Conversion,
    values: &[Value],
    failures: &mut Seq<Failure>,
) -> Result<Cell, AllocError>
    ensures cell { IfOk result (λ cell. cell ≡ (given_each (conversion_rule conversion) values.now).cell) }
    ensures failures { OnOk result (failures.new ≡
        failures.old ++ failures_at node (given_each (conversion_rule conversion) values.now).causes) }
{
    let mut cell = Cell::null(alloc);
    for value in values {
        let outcome = convert(alloc, conversion, value)?;
        add(alloc, node, outcome, &mut cell, failures)?;
    }
    Ok(cell)
}

/// Adds what a conversion gives of one value.
fn add(
    alloc: Global,
    node: NodeId,
    outcome: Outcome,
    cell: &mut Cell,
    failures: &mut Seq<Failure>,
) -> Result<(), AllocError>
    ensures cell { OnOk result (cell.new ≡ cell.old ++ (given_by outcome).cell) }
    ensures failures { OnOk result (failures.new ≡ failures.old ++ failures_at node (given_by outcome).causes) }
{
    let more = settled(alloc, node, outcome, failures)?;
    for value in more.as_slice() {
        cell.push(value.copy()?)?;
    }
    Ok(())
}

/// MV_APPEND: the values of the one cell, then those of the other.
#[tactic(auto, using(crate::proofs::Arguments::append_not))]
fn appended(alloc: Global, cells: &[Cell]) -> Result<Outcome, AllocError>
    ensures { IfOk result (λ outcome. given_by outcome ≡ given_lists append_rule cells.now) }
{
    if has_null(cells) {
        return Ok(Outcome::Nothing);
    }
    match cells {
        [list, other] => {
            let cell = append(alloc, list.as_slice(), other.as_slice())?;
            Ok(Outcome::Several(cell))
        }
        _ => Ok(Outcome::Nothing),
    }
}

fn has_null(cells: &[Cell]) -> bool
    ensures { result ≡ list_any is_null cells.now }
{
    cells.iter().any(is_null)
}

/// IS NULL and IS NOT NULL: whether the one cell is null, or is not.
fn tested(negated: bool, cells: &[Cell]) -> bool
    ensures { result ≡ test_rule negated (first_cell cells.now) }
{
    let null = match cells {
        [] => true,
        [cell, ..] => is_null(cell),
    };
    if negated { !null } else { null }
}
