use esql_types::{Value, compare_values};
use std::alloc::AllocError;
use std::cmp::Ordering;
use std::hash::{Hash, Hasher};
use std::marker::Model;

/// A value as a key of a map, an integer as the long of the same number. Contracts see the value.
#[derive(Drop)]
pub(crate) struct MatchKey {
    value: Value,
}

impl Model for MatchKey {
    ghost use Rattle.esql_types.specs.declared.value.Value.{Value as PlainValue};

    ghost Value = { PlainValue };

    ghost view = { λ key. key.value };
}

impl MatchKey {
    ghost use Rattle.std.specs.Prelude.{◌≡◌, IfOk};
    ghost use Rattle.enrich_match.specs.Matches.{widened};

    pub(crate) fn of(value: &Value) -> Result<MatchKey, AllocError>
        ensures { IfOk result (λ key. key ≡ widened value.now) }
    {
        let value = match value {
            Value::Int(number) => Value::Long(i64::from(*number)),
            Value::Long(number) => Value::Long(*number),
            Value::Bool(truth) => Value::Bool(*truth),
            Value::Text(text) => Value::Text(text.copy()?),
        };
        Ok(MatchKey { value })
    }
}

impl PartialEq for MatchKey {
    ghost use Rattle.std.specs.Cmp.{partial_equiv_from_equiv};
    ghost use Rattle.plain_functions.specs.ValueOrder.{same_equivalence};
    ghost use Rattle.plain_functions.specs.Values.{value_same};

    ghost eq = { value_same };

    ghost laws = { partial_equiv_from_equiv same_equivalence };

    fn eq(&self, other: &MatchKey) -> bool {
        compare_values(&self.value, &other.value) == Ordering::Equal
    }
}

impl Eq for MatchKey {
    ghost use Rattle.plain_functions.specs.ValueOrder.{same_equivalence};

    ghost laws = { same_equivalence };
}

impl Hash for MatchKey {
    ghost use Rattle.std.specs.Hash.{same_Alike};
    ghost use Rattle.plain_functions.specs.ValueOrder.{same_decides};
    ghost use Rattle.enrich_match.specs.Hashed.{value_hashed};

    ghost hash_input = { value_hashed };

    ghost respects_eq = { (same_Alike value_hashed same_decides).fed };

    fn hash<H: Hasher>(&self, state: &mut H) {
        match &self.value {
            Value::Int(number) => number.hash(state),
            Value::Long(number) => number.hash(state),
            Value::Bool(truth) => truth.hash(state),
            Value::Text(text) => text.as_str().hash(state),
        }
    }
}
