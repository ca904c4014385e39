ghost use Rattle.std.specs.Prelude.{◌≡◌, IfOk};
ghost use Rattle.esql_plan.specs.Functions.{given_truth, split_by};
ghost use Rattle.scalar_functions.specs.Calls.{binary_rule};
ghost use Rattle.scalar_functions.specs.Results.{given_by};

use crate::numbers::arithmetic;
use crate::unary::text_given;
use crate::values::{number_of, order_of, text_of};
use crate::{Binary, Outcome};
use esql_types::{Cause, Value};
use plain_functions::numbers::holds;
use plain_functions::pieces::split;
use plain_functions::texts::{ends_with, left, right, starts_with};
use std::alloc::{AllocError, Global};
use text_match::like;

fn truth_given(truth: bool) -> Outcome
    ensures { given_by result ≡ given_truth truth }
{
    Outcome::One(Value::Bool(truth))
}

/// What a function of two values gives.
pub(crate) fn binary(
    alloc: Global,
    function: Binary,
    first: &Value,
    second: &Value,
) -> Result<Outcome, AllocError>
    ensures { IfOk result (λ outcome. given_by outcome ≡ binary_rule function first.now second.now) }
{
    match function {
        Binary::Arithmetic(op) => Ok(arithmetic(op, first, second)),
        Binary::Compare(comparison) => Ok(truth_given(holds(comparison, order_of(first, second)))),
        Binary::Like { negated: false } => Ok(truth_given(like(text_of(second), text_of(first)))),
        Binary::Like { negated: true } => Ok(truth_given(!like(text_of(second), text_of(first)))),
        Binary::Left => text_given(alloc, left(text_of(first), number_of(second))),
        Binary::Right => text_given(alloc, right(text_of(first), number_of(second))),
        Binary::StartsWith => Ok(truth_given(starts_with(text_of(first), text_of(second)))),
        Binary::EndsWith => Ok(truth_given(ends_with(text_of(first), text_of(second)))),
        Binary::Split => pieces(alloc, text_of(first), text_of(second)),
    }
}

/// The pieces of a text between a delimiter, which may not be empty.
fn pieces(alloc: Global, text: &str, delimiter: &str) -> Result<Outcome, AllocError>
    ensures { IfOk result (λ outcome. given_by outcome ≡ split_by text.now delimiter.now) }
{
    if delimiter.is_empty() {
        Ok(Outcome::Fails(Cause::EmptyDelimiter))
    } else {
        let cell = split(alloc, text, delimiter)?;
        Ok(Outcome::Several(cell))
    }
}
