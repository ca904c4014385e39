use crate::hashes::hash_value;
use esql_types::{Value, compare_values};
use std::alloc::AllocError;
use std::cmp::Ordering;
use std::hash::{Hash, Hasher};
use std::marker::Model;

/// A value as a key of a map or a set, which contracts see as the value.
#[derive(Drop)]
pub(crate) struct KeyValue {
    value: Value,
}

impl Model for KeyValue {
    ghost use Rattle.esql_types.specs.declared.value.Value.{Value as PlainValue};

    ghost Value = { PlainValue };

    ghost view = { λ key. key.value };
}

impl KeyValue {
    ghost use Rattle.std.specs.Prelude.{◌≡◌, IfOk};

    pub(crate) fn of(value: &Value) -> Result<KeyValue, AllocError>
        ensures { IfOk result (λ key. key ≡ value.now) }
    {
        Ok(KeyValue {
            value: value.copy()?,
        })
    }

    pub(crate) fn into_value(self) -> Value
        ensures { result ≡ self }
    {
        let KeyValue { value } = self;
        value
    }
}

impl PartialEq for KeyValue {
    ghost use Rattle.std.specs.Cmp.{partial_equiv_from_equiv};
    ghost use Rattle.plain_functions.specs.ValueOrder.{same_equivalence};
    ghost use Rattle.plan_semantics.specs.Groups.{same_value};

    ghost eq = { same_value };

    ghost laws = { partial_equiv_from_equiv same_equivalence };

    fn eq(&self, other: &KeyValue) -> bool {
        compare_values(&self.value, &other.value) == Ordering::Equal
    }
}

impl Eq for KeyValue {
    ghost use Rattle.plain_functions.specs.ValueOrder.{same_equivalence};

    ghost laws = { same_equivalence };
}

impl Hash for KeyValue {
    ghost use Rattle.std.specs.Hash.{same_Alike};
    ghost use Rattle.plain_functions.specs.ValueOrder.{same_decides};
    ghost use Rattle.stats_groups.specs.Keys.{value_hashed};

    ghost hash_input = { value_hashed };

    ghost respects_eq = { (same_Alike value_hashed same_decides).fed };

    fn hash<H: Hasher>(&self, state: &mut H) {
        hash_value(&self.value, state);
    }
}
