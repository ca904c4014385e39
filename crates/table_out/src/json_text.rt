ghost use Rattle.std.specs.Prelude.{◌≡◌, All, IfOk, length};
ghost use Rattle.table_out.specs.Json.{shown_json};

use crate::compact::push_array;
use esql_types::{Cell, Column, Seq, Text};
use std::alloc::{AllocError, Global};

/// A table in the layout `json`: an object of the columns, each with its name and its kind, and of the rows, each an
/// array of its cells. A null is `null`, one value itself, several an array. A line feed follows.
pub fn json(alloc: Global, columns: &Seq<Column>, rows: &Seq<Seq<Cell>>) -> Result<Text, AllocError>
    requires { All (λ row. length row ≡ length columns.now) rows.now }
    ensures { IfOk result (λ text. text ≡ shown_json columns.now rows.now) }
{
    let mut out = String::new(alloc);
    out.push_str("{\"columns\":")?;
    push_array(alloc, &mut out, columns.as_slice())?;
    out.push_str(",\"values\":")?;
    push_array(alloc, &mut out, rows.as_slice())?;
    out.push_str("}\n")?;
    Ok(Text::from_string(out))
}
