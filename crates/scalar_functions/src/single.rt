ghost use Rattle.std.specs.Prelude.{◌≡◌, ◌++◌, IfOk, OnOk};
ghost use Rattle.std.specs.List.{flat_map};
ghost use Rattle.function_rules.specs.Lists.{first_of};
ghost use Rattle.esql_plan.specs.Rules.{given_singles, text_of};
ghost use Rattle.esql_plan.specs.Functions.{concat_rule, substring_rule};
ghost use Rattle.scalar_functions.specs.Calls.{single_rule, best_rule};
ghost use Rattle.scalar_functions.specs.Patterns.{HasPattern};
ghost use Rattle.scalar_functions.specs.Results.{given_by, first_values, AreSingle};

use crate::binary::binary;
use crate::matching::{matching, replaced};
use crate::singles::{one, singles_of, three, two};
use crate::unary::{text_given, unary};
use crate::values::{number_of, text_of};
use crate::{Outcome, SingleFunction, Singles};
use esql_types::{Cause, Cell, Value};
use plain_functions::lists::{greatest, least};
use plain_functions::pieces::TextBuilder;
use plain_functions::texts::{substring, substring_from};
use std::alloc::{AllocError, Global};
use text_match::Patterns;

/// What a function of arguments that are taken as one value each gives of their cells.
pub(crate) fn of_singles(
    alloc: Global,
    function: SingleFunction,
    cells: &[Cell],
    number: Option<u32>,
    patterns: &Patterns,
) -> Result<Outcome, AllocError>
    requires { HasPattern function cells.now number patterns.now.whole patterns.now.free }
    ensures { IfOk result (λ outcome. given_by outcome ≡ given_singles (single_rule function) cells.now) }
{
    match singles_of(cells) {
        Singles::Null => Ok(Outcome::Nothing),
        Singles::Several => Ok(Outcome::Fails(Cause::Multi)),
        Singles::Are => of_values(alloc, function, cells, number, patterns),
    }
}

/// What a function gives of cells with one value each.
#[tactic(auto, using(crate::proofs::Arguments::of_one_not, crate::proofs::Arguments::of_two_not, crate::proofs::Arguments::of_three_not))]
fn of_values(
    alloc: Global,
    function: SingleFunction,
    cells: &[Cell],
    number: Option<u32>,
    patterns: &Patterns,
) -> Result<Outcome, AllocError>
    requires single { AreSingle cells.now }
    requires pattern { HasPattern function cells.now number patterns.now.whole patterns.now.free }
    ensures { IfOk result (λ outcome. given_by outcome ≡ single_rule function (first_values cells.now)) }
{
    match function {
        SingleFunction::Unary(function) => match one(cells) {
            Some(value) => unary(alloc, function, value),
            None => Ok(Outcome::Nothing),
        },
        SingleFunction::Binary(function) => match two(cells) {
            Some((first, second)) => binary(alloc, function, first, second),
            None => Ok(Outcome::Nothing),
        },
        SingleFunction::Rlike { negated } => match two(cells) {
            Some((text, pattern)) => matching(alloc, negated, text, pattern, number, patterns),
            None => Ok(Outcome::Nothing),
        },
        SingleFunction::Replace => match three(cells) {
            Some((text, pattern, with)) => replaced(alloc, text, pattern, with, number, patterns),
            None => Ok(Outcome::Nothing),
        },
        SingleFunction::Substring => part(alloc, cells),
        SingleFunction::Concat => concat(alloc, cells),
        SingleFunction::Best { greatest } => best(alloc, greatest, cells),
    }
}

/// SUBSTRING, with a length or without.
#[tactic(auto, using(crate::proofs::Arguments::substring_not))]
fn part(alloc: Global, cells: &[Cell]) -> Result<Outcome, AllocError>
    requires { AreSingle cells.now }
    ensures { IfOk result (λ outcome. given_by outcome ≡ substring_rule (first_values cells.now)) }
{
    if let Some((text, start)) = two(cells) {
        return text_given(alloc, substring_from(text_of(text), number_of(start)));
    }
    match three(cells) {
        Some((text, start, count)) => {
            match substring(text_of(text), number_of(start), number_of(count)) {
                Ok(part) => text_given(alloc, part),
                Err(value) => Ok(Outcome::Fails(Cause::NegativeLength { value })),
            }
        }
        None => Ok(Outcome::Nothing),
    }
}

/// CONCAT: the texts one behind another.
fn concat(alloc: Global, cells: &[Cell]) -> Result<Outcome, AllocError>
    ensures { IfOk result (λ outcome. given_by outcome ≡ concat_rule (first_values cells.now)) }
{
    let mut whole = TextBuilder::new(alloc);
    for cell in cells {
        push_text(&mut whole, cell)?;
    }
    Ok(Outcome::One(Value::Text(whole.finish())))
}

/// Adds the text of a cell's first value.
fn push_text(whole: &mut TextBuilder, cell: &Cell) -> Result<(), AllocError>
    ensures { OnOk result (whole.new ≡ whole.old ++ flat_map text_of (first_of cell.now)) }
{
    match cell.as_slice() {
        [] => Ok(()),
        [value, ..] => whole.push(text_of(value)),
    }
}

/// The greatest or the least of the values.
fn best(alloc: Global, is_greatest: bool, cells: &[Cell]) -> Result<Outcome, AllocError>
    ensures { IfOk result (λ outcome. given_by outcome ≡ best_rule is_greatest (first_values cells.now)) }
{
    let values = values_of(alloc, cells)?;
    best_of(is_greatest, values.as_slice())
}

/// The greatest or the least of values.
pub(crate) fn best_of(is_greatest: bool, values: &[Value]) -> Result<Outcome, AllocError>
    ensures { IfOk result (λ outcome. given_by outcome ≡ best_rule is_greatest values.now) }
{
    let best = if is_greatest {
        greatest(values)
    } else {
        least(values)
    };
    match best {
        Some(value) => {
            let value = value.copy()?;
            Ok(Outcome::One(value))
        }
        None => Ok(Outcome::Nothing),
    }
}

/// The first values of cells.
fn values_of(alloc: Global, cells: &[Cell]) -> Result<Cell, AllocError>
    ensures { IfOk result (λ values. values ≡ first_values cells.now) }
{
    let mut values = Cell::null(alloc);
    for cell in cells {
        push_first(&mut values, cell)?;
    }
    Ok(values)
}

/// Adds a cell's first value.
fn push_first(values: &mut Cell, cell: &Cell) -> Result<(), AllocError>
    ensures { OnOk result (values.new ≡ values.old ++ first_of cell.now) }
{
    match cell.as_slice() {
        [] => Ok(()),
        [value, ..] => values.push(value.copy()?),
    }
}
