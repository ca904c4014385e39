ghost use Rattle.std.specs.Prelude.{◌≡◌, true, false};
ghost use Rattle.esql_plan.specs.Functions.{arithmetic_rule, neg_rule, abs_rule, number_given};
ghost use Rattle.scalar_functions.specs.Results.{given_by};

use crate::Outcome;
use crate::values::number_of;
use esql_types::{Cause, Value};
use number_rules::{Arithmetic, NumberFault};
use plain_functions::numbers::{
    absolute_integer, absolute_long, arithmetic_integers, arithmetic_longs, negate_integer,
    negate_long,
};

/// What arithmetic on integers gives.
fn integer_given(number: Result<i32, NumberFault>) -> Outcome
    ensures { given_by result ≡ number_given true number }
{
    match number {
        Ok(number) => Outcome::One(Value::Int(number)),
        Err(NumberFault::ByZero) => Outcome::Fails(Cause::ByZero),
        Err(NumberFault::Overflow) => Outcome::Fails(Cause::IntegerOverflow),
    }
}

/// What arithmetic on longs gives.
fn long_given(number: Result<i64, NumberFault>) -> Outcome
    ensures { given_by result ≡ number_given false number }
{
    match number {
        Ok(number) => Outcome::One(Value::Long(number)),
        Err(NumberFault::ByZero) => Outcome::Fails(Cause::ByZero),
        Err(NumberFault::Overflow) => Outcome::Fails(Cause::LongOverflow),
    }
}

/// `+ - * / %` of two numbers; where an integer meets a long it is widened.
pub(crate) fn arithmetic(op: Arithmetic, left: &Value, right: &Value) -> Outcome
    ensures { given_by result ≡ arithmetic_rule op left.now right.now }
{
    match left {
        Value::Int(number) => integer_with(op, *number, right),
        Value::Long(_) | Value::Bool(_) | Value::Text(_) => {
            long_given(arithmetic_longs(op, number_of(left), number_of(right)))
        }
    }
}

fn integer_with(op: Arithmetic, left: i32, right: &Value) -> Outcome
    ensures { given_by result ≡ arithmetic_rule op (Value.Int left) right.now }
{
    match right {
        Value::Int(right) => integer_given(arithmetic_integers(op, left, *right)),
        Value::Long(_) | Value::Bool(_) | Value::Text(_) => {
            long_given(arithmetic_longs(op, i64::from(left), number_of(right)))
        }
    }
}

/// The number with the other sign.
pub(crate) fn negated(number: &Value) -> Outcome
    ensures { given_by result ≡ neg_rule number.now }
{
    match number {
        Value::Int(number) => integer_given(negate_integer(*number)),
        Value::Long(_) | Value::Bool(_) | Value::Text(_) => long_given(negate_long(number_of(
            number,
        ))),
    }
}

/// The number without its sign.
pub(crate) fn absolute(number: &Value) -> Outcome
    ensures { given_by result ≡ abs_rule number.now }
{
    match number {
        Value::Int(number) => integer_given(absolute_integer(*number)),
        Value::Long(_) | Value::Bool(_) | Value::Text(_) => long_given(absolute_long(number_of(
            number,
        ))),
    }
}
