ghost use Rattle.std.specs.Prelude.{◌≡◌};
ghost use Rattle.esql_plan.specs.Rules.{number_of, text_of, truth_of, is_integer, is_number, order_of};

use esql_types::{Value, compare_values};
use std::cmp::Ordering;

/// The number that a value is, 0 of one that is none.
pub(crate) fn number_of(value: &Value) -> i64
    ensures { result ≡ number_of value.now }
{
    match value {
        Value::Int(number) => i64::from(*number),
        Value::Long(number) => *number,
        Value::Bool(_) | Value::Text(_) => 0,
    }
}

/// The text that a value is, the empty one of one that is none.
pub(crate) fn text_of(value: &Value) -> &str
    ensures { result.now ≡ text_of value.now }
{
    match value {
        Value::Text(text) => text.as_str(),
        Value::Int(_) | Value::Long(_) | Value::Bool(_) => "",
    }
}

/// The truth that a value is, false of one that is none.
pub(crate) fn truth_of(value: &Value) -> bool
    ensures { result ≡ truth_of value.now }
{
    match value {
        Value::Bool(truth) => *truth,
        Value::Int(_) | Value::Long(_) | Value::Text(_) => false,
    }
}

fn is_number(value: &Value) -> bool
    ensures { result ≡ is_number value.now }
{
    match value {
        Value::Int(_) | Value::Long(_) => true,
        Value::Bool(_) | Value::Text(_) => false,
    }
}

/// Whether a value is an integer.
pub(crate) fn is_integer(value: &Value) -> bool
    ensures { result ≡ is_integer value.now }
{
    match value {
        Value::Int(_) => true,
        Value::Long(_) | Value::Bool(_) | Value::Text(_) => false,
    }
}

/// The order of two values, where an integer that meets a long is widened.
pub(crate) fn order_of(left: &Value, right: &Value) -> Ordering
    ensures { result ≡ order_of left.now right.now }
{
    if is_number(left) && is_number(right) {
        number_of(left).cmp(&number_of(right))
    } else {
        compare_values(left, right)
    }
}
