//! Whether keys are the same.
ghost use Rattle.std.specs.Prelude.{◌≡◌};
ghost use Rattle.plan_semantics.specs.Groups.{same_key, same_list, same_value};

use esql_types::{Cell, Value, compare_values};

/// Whether values are the same, one by one.
#[inline(always)]
pub(crate) fn same_values(these: &[Value], those: &[Value]) -> bool
    ensures { result ≡ same_list same_value these.now those.now }
{
    if these.len() != those.len() {
        return false;
    }
    for place in 0..these.len() {
        if !compare_values(&these[place], &those[place]).is_eq() {
            return false;
        }
    }
    true
}

/// Whether cells have the same values.
pub(crate) fn same_cells(these: &[Cell], those: &[Cell]) -> bool
    ensures { result ≡ same_key these.now those.now }
{
    if these.len() != those.len() {
        return false;
    }
    for place in 0..these.len() {
        if !same_values(these[place].as_slice(), those[place].as_slice()) {
            return false;
        }
    }
    true
}
