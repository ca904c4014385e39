ghost use Rattle.std.specs.Prelude.{◌≡◌};
ghost use Rattle.esql_types.specs.Values.{value_cmp, variant_place};

use crate::Value;
use std::cmp::Ordering;

/// The order of values: numbers by size, false before true, keywords by their bytes; values of different variants stand
/// in the order of the variants. Takes no memory.
pub fn compare_values(left: &Value, right: &Value) -> Ordering
    ensures { result ≡ value_cmp left.now right.now }
{
    match (left, right) {
        (Value::Int(left), Value::Int(right)) => left.cmp(right),
        (Value::Long(left), Value::Long(right)) => left.cmp(right),
        (Value::Bool(left), Value::Bool(right)) => left.cmp(right),
        (Value::Text(left), Value::Text(right)) => {
            left.as_str().as_bytes().cmp(right.as_str().as_bytes())
        }
        _ => variant_place(left).cmp(&variant_place(right)),
    }
}

fn variant_place(value: &Value) -> u8
    ensures { result ≡ variant_place value.now }
{
    match value {
        Value::Int(_) => 0,
        Value::Long(_) => 1,
        Value::Bool(_) => 2,
        Value::Text(_) => 3,
    }
}
