ghost use Rattle.std.specs.Prelude.{◌≡◌, IfOk, map};
ghost use Rattle.std.specs.Option.{option_copied, option_to_list};
ghost use Rattle.number_rules.specs.Sums.{total_of};
ghost use Rattle.esql_plan.specs.Rules.{given_list, given, first_cell, later_cells, number_of};
ghost use Rattle.esql_plan.specs.Functions.{are_integers, sum_rule, slice_rule};
ghost use Rattle.scalar_functions.specs.Calls.{list_rule, alone_rule};
ghost use Rattle.scalar_functions.specs.Results.{given_by, first_values, AreSingle};

use crate::single::best_of;
use crate::singles::{one, singles_of, two};
use crate::values::{is_integer, number_of, text_of};
use crate::{AloneFunction, ListFunction, Outcome, Singles};
use esql_types::{Cause, Cell, Value};
use plain_functions::lists::{count, distinct, first, last, slice, sort};
use plain_functions::numbers::Sum;
use plain_functions::pieces::join;
use std::alloc::{AllocError, Global};

/// What a function of a list, and of single values beside it, gives of the cells of its arguments.
pub(crate) fn of_list(
    alloc: Global,
    function: ListFunction,
    cells: &[Cell],
) -> Result<Outcome, AllocError>
    ensures { IfOk result (λ outcome.
        given_by outcome ≡ given_list (list_rule function) (first_cell cells.now) (later_cells cells.now)) }
{
    match cells {
        [] => Ok(Outcome::Nothing),
        [list, rest @ ..] => of_first(alloc, function, list.as_slice(), rest),
    }
}

/// The same of the values of the list, where a list without values decides.
fn of_first(
    alloc: Global,
    function: ListFunction,
    list: &[Value],
    cells: &[Cell],
) -> Result<Outcome, AllocError>
    ensures { IfOk result (λ outcome. given_by outcome ≡ given_list (list_rule function) list.now cells.now) }
{
    match list {
        [] => Ok(Outcome::Nothing),
        [_, ..] => match singles_of(cells) {
            Singles::Null => Ok(Outcome::Nothing),
            Singles::Several => Ok(Outcome::Fails(Cause::Multi)),
            Singles::Are => of_values(alloc, function, list, cells),
        },
    }
}

/// The same of the values of the list and single values.
#[tactic(auto, using(crate::proofs::Arguments::values_as_many, crate::proofs::Arguments::of_one_not, crate::proofs::Arguments::alone_not))]
fn of_values(
    alloc: Global,
    function: ListFunction,
    list: &[Value],
    cells: &[Cell],
) -> Result<Outcome, AllocError>
    requires { AreSingle cells.now }
    ensures { IfOk result (λ outcome. given_by outcome ≡ list_rule function list.now (first_values cells.now)) }
{
    match function {
        ListFunction::Alone(function) => match cells {
            [] => alone(alloc, function, list),
            [_, ..] => Ok(Outcome::Nothing),
        },
        ListFunction::Concat => match one(cells) {
            Some(delimiter) => {
                let text = join(alloc, text_of(delimiter), list)?;
                Ok(Outcome::One(Value::Text(text)))
            }
            None => Ok(Outcome::Nothing),
        },
        ListFunction::Slice => sliced(alloc, list, cells),
    }
}

/// MV_SLICE: to an end, which is the start where none is written.
#[tactic(auto, using(crate::proofs::Arguments::slice_not))]
fn sliced(alloc: Global, list: &[Value], cells: &[Cell]) -> Result<Outcome, AllocError>
    requires { AreSingle cells.now }
    ensures { IfOk result (λ outcome. given_by outcome ≡ slice_rule list.now (first_values cells.now)) }
{
    let part = match (one(cells), two(cells)) {
        (Some(place), _) => slice(list, number_of(place), number_of(place)),
        (None, Some((start, end))) => slice(list, number_of(start), number_of(end)),
        (None, None) => return Ok(Outcome::Nothing),
    };
    let part = copied(alloc, part)?;
    Ok(Outcome::Several(part))
}

/// The cell of values.
pub(crate) fn copied(alloc: Global, values: &[Value]) -> Result<Cell, AllocError>
    ensures { IfOk result (λ cell. cell ≡ values.now) }
{
    let mut cell = Cell::null(alloc);
    for value in values {
        cell.push(value.copy()?)?;
    }
    Ok(cell)
}

/// What a function of a list alone gives of its values.
fn alone(alloc: Global, function: AloneFunction, list: &[Value]) -> Result<Outcome, AllocError>
    ensures { IfOk result (λ outcome. given_by outcome ≡ alone_rule function list.now) }
{
    match function {
        AloneFunction::Count => Ok(Outcome::One(Value::Int(count(list)))),
        AloneFunction::Sum => Ok(sum(list)),
        AloneFunction::Best { greatest } => best_of(greatest, list),
        AloneFunction::First => value_given(first(list)),
        AloneFunction::Last => value_given(last(list)),
        AloneFunction::Dedupe => {
            let cell = distinct(alloc, list)?;
            Ok(Outcome::Several(cell))
        }
        AloneFunction::Sort { descending } => {
            let cell = sort(alloc, list, descending)?;
            Ok(Outcome::Several(cell))
        }
    }
}

/// A value, or null.
fn value_given(value: Option<&Value>) -> Result<Outcome, AllocError>
    ensures { IfOk result (λ outcome. given_by outcome ≡ given (option_to_list (option_copied value.entry))) }
{
    match value {
        Some(value) => {
            let value = value.copy()?;
            Ok(Outcome::One(value))
        }
        None => Ok(Outcome::Nothing),
    }
}

/// The sum of numbers.
fn total(list: &[Value]) -> Sum
    ensures { result ≡ total_of (map number_of list.now) }
{
    let mut sum = Sum::new();
    for number in list {
        sum.add(number_of(number));
    }
    sum
}

fn are_integers(list: &[Value]) -> bool
    ensures { result ≡ are_integers list.now }
{
    list.iter().all(is_integer)
}

/// MV_SUM: an integer of integers alone, else a long.
fn sum(list: &[Value]) -> Outcome
    ensures { given_by result ≡ sum_rule list.now }
{
    if are_integers(list) {
        match total(list).integer() {
            Some(number) => Outcome::One(Value::Int(number)),
            None => Outcome::Fails(Cause::IntegerOverflow),
        }
    } else {
        match total(list).long() {
            Some(number) => Outcome::One(Value::Long(number)),
            None => Outcome::Fails(Cause::LongOverflow),
        }
    }
}
