//! What of a key is hashed.
ghost use Rattle.std.specs.Prelude.{◌≡◌, fold};
ghost use Rattle.stats_groups.specs.Keys.{value_hashed, cell_hashed, key_hashed};

use esql_types::{Cell, Value};
use std::hash::{Hash, Hasher};

/// Hashes a value.
#[inline(always)]
pub(crate) fn hash_value<H: Hasher>(value: &Value, state: &mut H)
    ensures { state.new ≡ fold H.write state.old (value_hashed value.now) }
{
    match value {
        Value::Int(number) => number.hash(state),
        Value::Long(number) => number.hash(state),
        Value::Bool(truth) => truth.hash(state),
        Value::Text(text) => text.as_str().hash(state),
    }
}

/// Hashes the values of a key's cell, which are one or none.
#[inline(always)]
pub(crate) fn hash_cell<H: Hasher>(values: &[Value], state: &mut H)
    ensures { state.new ≡ fold H.write state.old (cell_hashed values.now) }
{
    match values.first() {
        Some(value) => hash_value(value, state),
        None => state.write_u8(0),
    }
}

/// Hashes the cells of a key.
pub(crate) fn hash_cells<H: Hasher>(cells: &[Cell], state: &mut H)
    ensures { state.new ≡ fold H.write state.old (key_hashed cells.now) }
{
    for cell in cells {
        hash_cell(cell.as_slice(), state);
    }
}
