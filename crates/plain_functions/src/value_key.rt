use esql_types::{Value, compare_values};
use std::cmp::Ordering;
use std::marker::Model;

// A value as the key of a set, which contracts see as the value.
#[derive(Drop)]
pub(crate) struct ValueKey<'a> {
    value: &'a Value,
}

impl<'a> Model for ValueKey<'a> {
    ghost use Rattle.esql_types.specs.declared.value.Value.{Value as PlainValue};

    ghost Value = { PlainValue };

    ghost view = { λ key. key.value.now };
}

impl<'a> ValueKey<'a> {
    ghost use Rattle.std.specs.Prelude.{◌≡◌};

    pub(crate) fn new(value: &'a Value) -> ValueKey<'a>
        ensures { result ≡ value.now }
    {
        ValueKey { value }
    }
}

impl<'a> PartialEq for ValueKey<'a> {
    ghost use Rattle.std.specs.Cmp.{partial_equiv_from_equiv};
    ghost use Rattle.plain_functions.specs.Values.{value_same};
    ghost use Rattle.plain_functions.specs.ValueOrder.{same_equivalence};

    ghost eq = { value_same };

    ghost laws = { partial_equiv_from_equiv same_equivalence };

    fn eq(&self, other: &ValueKey<'a>) -> bool {
        compare_values(self.value, other.value) == Ordering::Equal
    }
}

impl<'a> Eq for ValueKey<'a> {
    ghost use Rattle.plain_functions.specs.ValueOrder.{same_equivalence};

    ghost laws = { same_equivalence };
}

impl<'a> PartialOrd for ValueKey<'a> {
    ghost use Rattle.std.specs.Ordering.{as_partial_cmp};
    ghost use Rattle.esql_types.specs.Values.{value_cmp};
    ghost use Rattle.plain_functions.specs.ValueOrder.{value_partial_order};

    ghost partial_cmp = { as_partial_cmp value_cmp };

    ghost laws = { value_partial_order };

    fn partial_cmp(&self, other: &ValueKey<'a>) -> Option<Ordering> {
        Some(self.cmp(other))
    }
}

impl<'a> Ord for ValueKey<'a> {
    ghost use Rattle.std.specs.Prelude.{refl};
    ghost use Rattle.esql_types.specs.Values.{value_cmp};
    ghost use Rattle.plain_functions.specs.ValueOrder.{value_total};

    ghost cmp = { value_cmp };

    ghost total = { value_total };

    ghost matches_partial_cmp = { λ left right. refl };

    ghost matches_eq = { λ left right. refl };

    fn cmp(&self, other: &ValueKey<'a>) -> Ordering {
        compare_values(self.value, other.value)
    }
}
