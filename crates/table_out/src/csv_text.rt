ghost use Rattle.std.specs.Prelude.{◌≡◌, All, IfOk, OnOk, flat_map, length};
ghost use Rattle.csv.specs.Writing.{default_writer, row_text};
ghost use Rattle.table_out.specs.Csv.{fields_of, shown_csv};
ghost use Rattle.table_out.specs.Writers.{TakesText};

use crate::records::{finish, push_record};
use csv::Writer;
use esql_types::{Cell, Column, Seq, Text};
use std::alloc::{AllocError, Global};

/// A table in the layout `csv`: the names of the columns and then the rows, as the records of a default writer of the
/// crate `csv`. A null is an empty field, another cell its text.
pub fn csv(alloc: Global, columns: &Seq<Column>, rows: &Seq<Seq<Cell>>) -> Result<Text, AllocError>
    requires { All (λ row. length row ≡ length columns.now) rows.now }
    ensures { IfOk result (λ text. text ≡ shown_csv columns.now rows.now) }
{
    let mut writer = Writer::from_writer(Vec::new(alloc));
    let mut scratch = String::new(alloc);
    push_record(&mut writer, columns.as_slice(), &mut scratch)?;
    push_rows(&mut writer, rows.as_slice(), &mut scratch)?;
    finish(writer)
}

fn push_rows(
    writer: &mut Writer<Vec<u8>>,
    rows: &[Seq<Cell>],
    scratch: &mut String,
) -> Result<(), AllocError>
    ensures { OnOk result (TakesText writer.old writer.new (flat_map (λ row. row_text default_writer (fields_of row)) rows.now)) }
{
    for row in rows {
        push_record(writer, row.as_slice(), scratch)?;
    }
    Ok(())
}
