ghost use Rattle.std.specs.Prelude.{◌≡◌, ℕ, List, map, IfOk, IsUtf8, OnOk};
ghost use Rattle.csv.specs.Writing.{default_writer, row_text};
ghost use Rattle.table_out.specs.Csv.{cell_field};
ghost use Rattle.table_out.specs.Writers.{EndsRecord, TakesField, TakesText, text_in};

use answer_text::push_cell;
use csv::Writer;
use esql_types::{Cell, Column, Text, Value};
use std::alloc::AllocError;

/// What is a field of a record.
pub trait Field {
    /// The bytes of the field.
    ghost field: { Self → List ℕ };

    /// Writes the field. A text that is not at hand is written in `scratch` first.
    fn push_field(
        &self,
        writer: &mut Writer<Vec<u8>>,
        scratch: &mut String,
    ) -> Result<(), AllocError>
        ensures { OnOk result (TakesField writer.old writer.new (field self.now)) };
}

impl Field for Column {
    ghost field = { λ column. column.name };

    fn push_field(
        &self,
        writer: &mut Writer<Vec<u8>>,
        _scratch: &mut String,
    ) -> Result<(), AllocError> {
        push_text(writer, self.name.as_str())
    }
}

impl Field for Cell {
    ghost field = { cell_field };

    fn push_field(
        &self,
        writer: &mut Writer<Vec<u8>>,
        scratch: &mut String,
    ) -> Result<(), AllocError> {
        match self.as_slice() {
            [] => push_text(writer, ""),
            [Value::Text(text)] => push_text(writer, text.as_str()),
            _ => {
                scratch.clear();
                push_cell(scratch, self)?;
                push_text(writer, scratch.as_str())
            }
        }
    }
}

/// Writes a record of the items.
pub fn push_record<T: Field>(
    writer: &mut Writer<Vec<u8>>,
    items: &[T],
    scratch: &mut String,
) -> Result<(), AllocError>
    ensures { OnOk result (TakesText writer.old writer.new (row_text default_writer (map T.field items.now))) }
{
    for item in items {
        item.push_field(writer, scratch)?;
    }
    end_record(writer)
}

// A vector refuses bytes only where memory is refused.
fn push_text(writer: &mut Writer<Vec<u8>>, text: &str) -> Result<(), AllocError>
    ensures { OnOk result (TakesField writer.old writer.new text.now) }
{
    match writer.write_field(text.as_bytes()) {
        Ok(()) => Ok(()),
        Err(_) => Err(AllocError),
    }
}

// The same, and no record of a table has another length than the first.
fn end_record(writer: &mut Writer<Vec<u8>>) -> Result<(), AllocError>
    ensures { OnOk result (EndsRecord writer.old writer.new) }
{
    match writer.end_record() {
        Ok(()) => Ok(()),
        Err(_) => Err(AllocError),
    }
}

/// The text that was written.
pub fn finish(writer: Writer<Vec<u8>>) -> Result<Text, AllocError>
    requires { IsUtf8 (text_in writer) }
    ensures { IfOk result (λ text. text ≡ text_in writer) }
{
    match writer.into_inner() {
        Ok(bytes) => match String::from_utf8(bytes) {
            Ok(text) => Ok(Text::from_string(text)),
            Err(_) => unreachable!(),
        },
        Err(_) => Err(AllocError),
    }
}
