ghost use Rattle.std.specs.Prelude.{◌≡◌, IfOk};
ghost use Rattle.esql_plan.specs.Functions.{integer_rule, narrowed, long_rule, boolean_rule, string_rule};
ghost use Rattle.esql_plan.specs.Rules.{failed};
ghost use Rattle.scalar_functions.specs.Calls.{conversion_rule};
ghost use Rattle.scalar_functions.specs.Results.{given_by};

use crate::{Conversion, Outcome};
use esql_types::{Cause, Text, Value};
use plain_functions::conversions::{
    integer_of_long, integer_of_text, integer_of_truth, long_of_text, text_of_number,
    text_of_truth, truth_of_number, truth_of_text,
};
use std::alloc::{AllocError, Global};

/// What a conversion gives of a value.
pub(crate) fn convert(
    alloc: Global,
    conversion: Conversion,
    value: &Value,
) -> Result<Outcome, AllocError>
    ensures { IfOk result (λ outcome. given_by outcome ≡ conversion_rule conversion value.now) }
{
    match conversion {
        Conversion::Integer => to_integer(value),
        Conversion::Long => to_long(value),
        Conversion::Boolean => Ok(to_boolean(value)),
        Conversion::String => to_string(alloc, value),
    }
}

fn to_integer(value: &Value) -> Result<Outcome, AllocError>
    ensures { IfOk result (λ outcome. given_by outcome ≡ integer_rule value.now) }
{
    match value {
        Value::Int(number) => Ok(Outcome::One(Value::Int(*number))),
        Value::Long(number) => Ok(narrowed(*number)),
        Value::Bool(truth) => Ok(Outcome::One(Value::Int(integer_of_truth(*truth)))),
        Value::Text(text) => match integer_of_text(text.as_str()) {
            Some(number) => Ok(Outcome::One(Value::Int(number))),
            None => cannot_parse(text),
        },
    }
}

/// A long as an integer.
fn narrowed(number: i64) -> Outcome
    ensures { given_by result ≡ narrowed number }
{
    match integer_of_long(number) {
        Some(number) => Outcome::One(Value::Int(number)),
        None => Outcome::Fails(Cause::OutOfInteger { value: number }),
    }
}

fn cannot_parse(text: &Text) -> Result<Outcome, AllocError>
    ensures { IfOk result (λ outcome. given_by outcome ≡ failed (Cause.CannotParse text.now)) }
{
    let text = text.copy()?;
    Ok(Outcome::Fails(Cause::CannotParse { text }))
}

fn to_long(value: &Value) -> Result<Outcome, AllocError>
    ensures { IfOk result (λ outcome. given_by outcome ≡ long_rule value.now) }
{
    match value {
        Value::Int(number) => Ok(Outcome::One(Value::Long(i64::from(*number)))),
        Value::Long(number) => Ok(Outcome::One(Value::Long(*number))),
        Value::Bool(truth) => Ok(Outcome::One(Value::Long(i64::from(integer_of_truth(*truth))))),
        Value::Text(text) => match long_of_text(text.as_str()) {
            Some(number) => Ok(Outcome::One(Value::Long(number))),
            None => cannot_parse(text),
        },
    }
}

fn to_boolean(value: &Value) -> Outcome
    ensures { given_by result ≡ boolean_rule value.now }
{
    match value {
        Value::Int(number) => Outcome::One(Value::Bool(truth_of_number(i64::from(*number)))),
        Value::Long(number) => Outcome::One(Value::Bool(truth_of_number(*number))),
        Value::Bool(truth) => Outcome::One(Value::Bool(*truth)),
        Value::Text(text) => Outcome::One(Value::Bool(truth_of_text(text.as_str()))),
    }
}

fn to_string(alloc: Global, value: &Value) -> Result<Outcome, AllocError>
    ensures { IfOk result (λ outcome. given_by outcome ≡ string_rule value.now) }
{
    let text = match value {
        Value::Int(number) => text_of_number(alloc, i64::from(*number))?,
        Value::Long(number) => text_of_number(alloc, *number)?,
        Value::Bool(truth) => Text::from_str(alloc, text_of_truth(*truth))?,
        Value::Text(text) => text.copy()?,
    };
    Ok(Outcome::One(Value::Text(text)))
}
