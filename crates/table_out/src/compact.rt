ghost use Rattle.std.specs.Prelude.{◌≡◌, ◌++◌, map, false, IfOk, OnOk};
ghost use Rattle.std.specs.String.{string_bytes};
ghost use Rattle.serde_json.specs.Data.{Data, array, string};
ghost use Rattle.serde_json.specs.View.{items_of, view};
ghost use Rattle.serde_json.specs.Written.{compact_text, has_float};
ghost use Rattle.table_out.specs.Json.{value_data, cell_data, row_data, column_data, kind_name};

use answer_text::push_value;
use esql_types::{Cell, Column, Kind, Seq, Text, Value};
use serde_json::json;
use std::alloc::{AllocError, Global};

/// What has a place in an array of JSON.
pub trait Compact {
    /// The data that it is.
    ghost tree: { Self → Data };

    /// Writes its data as compact text.
    fn push_compact(&self, alloc: Global, out: &mut String) -> Result<(), AllocError>
        ensures { OnOk result (string_bytes out.new ≡ string_bytes out.old ++ compact_text (tree self.now)) };
}

/// Writes an array of the items as compact text, one item after another: no tree of the array is built.
pub fn push_array<T: Compact>(
    alloc: Global,
    out: &mut String,
    items: &[T],
) -> Result<(), AllocError>
    ensures { OnOk result (string_bytes out.new ≡ string_bytes out.old ++ compact_text (array (items_of (map T.tree items.now)))) }
{
    match items {
        [] => out.push_str("[]"),
        [first, rest @ ..] => {
            out.push_str("[")?;
            first.push_compact(alloc, out)?;
            for item in rest {
                out.push_str(",")?;
                item.push_compact(alloc, out)?;
            }
            out.push_str("]")
        }
    }
}

impl Compact for Value {
    ghost tree = { value_data };

    fn push_compact(&self, alloc: Global, out: &mut String) -> Result<(), AllocError> {
        match self {
            Value::Int(_) | Value::Long(_) | Value::Bool(_) => push_value(out, self),
            Value::Text(text) => push_text(alloc, out, text),
        }
    }
}

fn push_text(alloc: Global, out: &mut String, text: &Text) -> Result<(), AllocError>
    ensures { OnOk result (string_bytes out.new ≡ string_bytes out.old ++ compact_text (string text.now)) }
{
    let value = serde_json::Value::String(String::from_str(alloc, text.as_str())?);
    push_json(alloc, out, &value)
}

impl Compact for Cell {
    ghost tree = { cell_data };

    fn push_compact(&self, alloc: Global, out: &mut String) -> Result<(), AllocError> {
        match self.as_slice() {
            [] => out.push_str("null"),
            [value] => value.push_compact(alloc, out),
            values => push_array(alloc, out, values),
        }
    }
}

impl Compact for Seq<Cell> {
    ghost tree = { row_data };

    fn push_compact(&self, alloc: Global, out: &mut String) -> Result<(), AllocError> {
        push_array(alloc, out, self.as_slice())
    }
}

impl Compact for Column {
    ghost tree = { column_data };

    fn push_compact(&self, alloc: Global, out: &mut String) -> Result<(), AllocError> {
        let value = column_value(alloc, self)?;
        push_json(alloc, out, &value)
    }
}

fn column_value(alloc: Global, column: &Column) -> Result<serde_json::Value, AllocError>
    ensures { IfOk result (λ value. view value ≡ column_data column.now) }
{
    let name = column.name.as_str();
    let kind = kind_name(column.kind);
    json!(in alloc; {"name": name, "type": kind})
}

fn kind_name(kind: Kind) -> &'static str
    ensures { result.now ≡ kind_name kind }
{
    match kind {
        Kind::Integer => "integer",
        Kind::Long => "long",
        Kind::Boolean => "boolean",
        Kind::Keyword => "keyword",
        Kind::Null => "null",
    }
}

fn push_json(alloc: Global, out: &mut String, value: &serde_json::Value) -> Result<(), AllocError>
    requires { has_float (view value.now) ≡ false }
    ensures { OnOk result (string_bytes out.new ≡ string_bytes out.old ++ compact_text (view value.now)) }
{
    let text = value.to_string(alloc)?;
    out.push_str(text.as_str())
}
