ghost use Rattle.std.specs.Prelude.{◌≡◌, All, IfOk, OnOk, length, ◌++◌, codes, flat_map, zip};
ghost use Rattle.std.specs.String.{string_bytes};
ghost use Rattle.answer_text.specs.Txt.{shown_txt, line_of, texts_of};

use crate::lines::{push_dashes, push_line};
use crate::printed::Scratch;
use crate::widths::column_widths;
use esql_types::{Cell, Column, Seq, Text};
use std::alloc::{AllocError, Global};

/// A table in the layout `txt`: a line of names, a line of dashes, and a line for each row. A column is as wide in
/// characters as its widest name or cell; every column but the last is padded on the right.
pub fn txt(alloc: Global, columns: &Seq<Column>, rows: &Seq<Seq<Cell>>) -> Result<Text, AllocError>
    requires { All (λ row. length row ≡ length columns.now) rows.now }
    ensures { IfOk result (λ text. text ≡ shown_txt columns.now rows.now) }
{
    let mut scratch = Scratch::new(alloc);
    let widths = column_widths(alloc, columns, rows, &mut scratch)?;
    let mut out = String::new(alloc);
    push_line(&mut out, &widths, columns.as_slice(), &mut scratch)?;
    push_dashes(&mut out, &widths)?;
    push_rows(&mut out, &widths, rows.as_slice(), &mut scratch)?;
    Ok(Text::from_string(out))
}

fn push_rows(
    out: &mut String,
    widths: &[usize],
    rows: &[Seq<Cell>],
    scratch: &mut Scratch,
) -> Result<(), AllocError>
    requires { All (λ row. length row ≡ length widths.now) rows.now }
    ensures { OnOk result (string_bytes out.new ≡ string_bytes out.old ++ flat_map (λ row. line_of (zip widths.now (texts_of row)) ++ codes "\n") rows.now) }
{
    for row in rows {
        push_line(out, widths, row.as_slice(), scratch)?;
    }
    Ok(())
}
