ghost use Rattle.std.specs.Prelude.{◌≡◌, ℕ, ◌<◌, List, [], ◌∷◌, ◌++◌, All, IfOk, OnOk, length, map, max, slice_index, slice_index_or};
ghost use Rattle.answer_text.specs.Txt.{heads_of, printed, texts_of, widths, width_of};
ghost use Rattle.table_out.specs.Widths.{AreWidths};

use crate::printed::{Print, Scratch};
use answer_text::width;
use esql_types::{Cell, Column, Seq};
use std::alloc::{AllocError, Global};

/// The widths of the columns: each is printed once to see how wide it is, and none is kept.
pub fn column_widths(
    alloc: Global,
    columns: &Seq<Column>,
    rows: &Seq<Seq<Cell>>,
    scratch: &mut Scratch,
) -> Result<Vec<usize>, AllocError>
    requires { All (λ row. length row ≡ length columns.now) rows.now }
    ensures { IfOk result (λ w. w.items ≡ widths (heads_of columns.now ∷ map texts_of rows.now) (length columns.now)) }
{
    let mut widths = vec![in alloc; 0usize; columns.len()]?;
    let places = widths.as_mut_slice();
    widen(places, columns.as_slice(), scratch)?;
    widen_by_rows(places, rows.as_slice(), scratch)?;
    Ok(widths)
}

fn widen_by_rows(
    widths: &mut [usize],
    rows: &[Seq<Cell>],
    scratch: &mut Scratch,
) -> Result<(), AllocError>
    requires { All (λ row. length row ≡ length widths.old) rows.now }
    ensures { OnOk result ((lines : List (List (List ℕ))) → AreWidths widths.old lines → AreWidths widths.new (lines ++ map texts_of rows.now)) }
{
    for row in rows {
        widen(widths, row.as_slice(), scratch)?;
    }
    Ok(())
}

/// Makes each place as wide as the item there.
fn widen<T: Print>(
    widths: &mut [usize],
    items: &[T],
    scratch: &mut Scratch,
) -> Result<(), AllocError>
    requires { length items.now ≡ length widths.old }
    ensures { OnOk result ((place : ℕ) → place < length items.now → slice_index widths.new place ≡ max (slice_index widths.old place) (width_of (slice_index_or (map (λ item. printed (T.text item)) items.now) place []))) }
{
    for (place, item) in items.iter().enumerate() {
        let wide = width(scratch.print(item)?);
        widths[place] = widths[place].max(wide);
    }
    Ok(())
}
