ghost use Rattle.std.specs.Prelude.{◌≡◌, ◌∷◌, ◌++◌, OnOk, codes};
ghost use Rattle.std.specs.String.{string_bytes};
ghost use Rattle.std.specs.List.{join_by};
ghost use Rattle.answer_text.specs.Cells.{value_text, cell_text};

use esql_types::{Cell, Value};
use std::alloc::AllocError;

/// Writes a value: a decimal number, `true`, `false`, or the keyword.
pub fn push_value(out: &mut String, value: &Value) -> Result<(), AllocError>
    ensures { OnOk result (string_bytes out.new ≡ string_bytes out.old ++ value_text value.now) }
{
    match value {
        Value::Int(number) => write!(out, "{number}"),
        Value::Long(number) => write!(out, "{number}"),
        Value::Bool(true) => out.push_str("true"),
        Value::Bool(false) => out.push_str("false"),
        Value::Text(text) => out.push_str(text.as_str()),
    }
}

/// Writes a cell: `null`, its value, or its values joined by `, ` in brackets.
pub fn push_cell(out: &mut String, cell: &Cell) -> Result<(), AllocError>
    ensures { OnOk result (string_bytes out.new ≡ string_bytes out.old ++ cell_text cell.now) }
{
    match cell.as_slice() {
        [] => out.push_str("null"),
        [value] => push_value(out, value),
        [first, rest @ ..] => push_values(out, first, rest),
    }
}

fn push_values(out: &mut String, first: &Value, rest: &[Value]) -> Result<(), AllocError>
    ensures { OnOk result (string_bytes out.new ≡ string_bytes out.old ++ codes "[" ++ join_by value_text (codes ", ") (first.now ∷ rest.now) ++ codes "]") }
{
    out.push_str("[")?;
    push_value(out, first)?;
    for value in rest {
        out.push_str(", ")?;
        push_value(out, value)?;
    }
    out.push_str("]")
}
