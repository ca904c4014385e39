ghost use Rattle.std.specs.Prelude.{◌≡◌, fold};
ghost use Rattle.esql_plan.specs.Rules.{number_of};
ghost use Rattle.stats_groups.specs.States.{nothing_summed, with_value};

use esql_types::Value;
use plain_functions::numbers::Sum;

/// A sum of values in order.
#[derive(Drop)]
pub(crate) struct LongSum {
    pub(crate) is_empty: bool,
    pub(crate) total: Sum,
}

impl LongSum {
    pub(crate) fn new() -> LongSum
        ensures { result ≡ nothing_summed }
    {
        LongSum {
            is_empty: true,
            total: Sum::new(),
        }
    }

    #[inline(always)]
    pub(crate) fn add(&mut self, values: &[Value])
        ensures { self.new ≡ fold with_value self.old values.now }
    {
        for value in values {
            self.is_empty = false;
            self.total.add(number_of(value));
        }
    }
}

/// The number that a value is, 0 where it is none.
#[inline(always)]
fn number_of(value: &Value) -> i64
    ensures { result ≡ number_of value.now }
{
    match value {
        Value::Int(number) => i64::from(*number),
        Value::Long(number) => *number,
        Value::Bool(_) => 0,
        Value::Text(_) => 0,
    }
}
