// The rows of a block out of its values and the ends of its rows.
ghost use Rattle.std.specs.Prelude.{◌≡◌, ◌≢◌, ◌≤◌, [], length, map, IfOk, nat_le, true};
ghost use Rattle.std.specs.List.{slice_range, list_all};
ghost use Rattle.col_blocks.specs.Building.{BuilderFits};
ghost use Rattle.col_blocks.specs.Cells.{blank, first_or};
ghost use Rattle.col_blocks.specs.Pieces.{pieces, last_end, Rises, filled};
ghost use Rattle.col_blocks.specs.Rows.{cells_of, form_of, RowsFit};
ghost use Rattle.col_blocks.specs.Seen.{form_by};
ghost use Rattle.col_blocks.specs.declared.form.BlockForm.{BlockForm};
ghost use Rattle.col_blocks.specs.Stored.{values_of, kind_of};

use crate::ends::begin_of;
use crate::rows::Rows;
use crate::texts::Texts;
use crate::values::Values;
use bit_masks::Mask;
use esql_types::{Cell, Kind};
use std::alloc::{AllocError, Global};

/// The rows of these values in the form that their cells need.
pub fn rows_of(
    kind: Kind,
    values: Values,
    ends: Vec<usize>,
    single: bool,
    few: bool,
) -> Result<Rows, AllocError>
    requires fits { BuilderFits kind values ends.items single few }
    requires whole { last_end 0 ends.items ≡ length (values_of values) }
    ensures fit { IfOk result (λ rows. RowsFit kind rows) }
    ensures form { IfOk result (λ rows. form_of rows ≡ form_by kind (pieces (values_of values) 0 ends.items)) }
    ensures cells { IfOk result (λ rows. cells_of rows ≡ pieces (values_of values) 0 ends.items) }
{
    let alloc = *ends.allocator();
    match kind {
        Kind::Null => Ok(Rows::Constant {
            cell: Cell::null(alloc),
            len: ends.len(),
        }),
        _ => {
            if single {
                Ok(Rows::Vector { values })
            } else if few {
                nullable(alloc, &values, ends.as_slice())
            } else {
                Ok(Rows::Multi { values, ends })
            }
        }
    }
}

/// Values of which each row has at most one, with a blank in the place of each that is missing.
fn nullable(alloc: Global, values: &Values, ends: &[usize]) -> Result<Rows, AllocError>
    requires kind { kind_of values.now ≢ Kind.Null }
    requires rises { Rises 0 ends.now (length (values_of values.now)) }
    requires few { list_all (λ cell. nat_le (length cell) 1) (pieces (values_of values.now) 0 ends.now) ≡ true }
    ensures fit { IfOk result (λ rows. RowsFit (kind_of values.now) rows) }
    ensures form { IfOk result (λ rows. form_of rows ≡ BlockForm.Nullable) }
    ensures cells { IfOk result (λ rows. cells_of rows ≡ pieces (values_of values.now) 0 ends.now) }
{
    let valid = filled_rows(alloc, ends)?;
    let values = spread(alloc, values, ends)?;
    Ok(Rows::Nullable { values, valid })
}

/// Which rows have a value.
fn filled_rows(alloc: Global, ends: &[usize]) -> Result<Mask, AllocError>
    ensures { IfOk result (λ valid. valid ≡ filled 0 ends.now) }
{
    let mut valid = Mask::new(alloc, ends.len(), false)?;
    for row in 0..ends.len() {
        valid.set(row, begin_of(ends, row) < ends[row]);
    }
    Ok(valid)
}

/// The first value of each row, or a blank.
fn spread(alloc: Global, values: &Values, ends: &[usize]) -> Result<Values, AllocError>
    requires kind { kind_of values.now ≢ Kind.Null }
    requires rises { Rises 0 ends.now (length (values_of values.now)) }
    ensures kind { IfOk result (λ new. kind_of new ≡ kind_of values.now) }
    ensures values { IfOk result (λ new. values_of new ≡ map (first_or (blank (kind_of values.now))) (pieces (values_of values.now) 0 ends.now)) }
{
    match values {
        Values::Integers(numbers) => Ok(Values::Integers(spread_items(
            alloc,
            numbers.as_slice(),
            ends,
            0,
        )?)),
        Values::Longs(numbers) => Ok(Values::Longs(spread_items(
            alloc,
            numbers.as_slice(),
            ends,
            0,
        )?)),
        Values::Booleans(truths) => Ok(Values::Booleans(spread_items(
            alloc,
            truths.as_slice(),
            ends,
            false,
        )?)),
        Values::Keywords(texts) => Ok(Values::Keywords(spread_texts(alloc, texts, ends)?)),
        Values::Nulls => unreachable!(),
    }
}

fn spread_items<T: Copy>(
    alloc: Global,
    items: &[T],
    ends: &[usize],
    other: T,
) -> Result<Vec<T>, AllocError>
    requires { Rises 0 ends.now (length items.now) }
    ensures { IfOk result (λ new. new.items ≡ map (first_or other) (pieces items.now 0 ends.now)) }
{
    let mut new = Vec::with_capacity(alloc, ends.len())?;
    for row in 0..ends.len() {
        new.push(first_of(items, begin_of(ends, row), ends[row], other))?;
    }
    Ok(new)
}

/// The first item of a part, or another where it is empty.
fn first_of<T: Copy>(items: &[T], begin: usize, end: usize, other: T) -> T
    requires { end ≤ length items.now }
    ensures { result ≡ first_or other (slice_range items.now begin end) }
{
    if begin < end { items[begin] } else { other }
}

fn spread_texts(alloc: Global, texts: &Texts, ends: &[usize]) -> Result<Texts, AllocError>
    requires { Rises 0 ends.now (length texts.now) }
    ensures { IfOk result (λ new. new ≡ map (first_or []) (pieces texts.now 0 ends.now)) }
{
    let mut new = Texts::new(alloc);
    for row in 0..ends.len() {
        new.push(first_text(texts, begin_of(ends, row), ends[row]))?;
    }
    Ok(new)
}

/// The first text of a part, or the empty one where it is empty.
fn first_text(texts: &Texts, begin: usize, end: usize) -> &str
    requires { end ≤ length texts.now }
    ensures { result.now ≡ first_or [] (slice_range texts.now begin end) }
{
    if begin < end { texts.at(begin) } else { "" }
}
