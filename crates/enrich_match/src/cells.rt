ghost use Rattle.std.specs.Prelude.{◌≡◌, ◌++◌, map, IfOk, OnOk};
ghost use Rattle.std.specs.List.{flat_map, range_with_len};
ghost use Rattle.enrich_match.specs.Places.{field_at};

use esql_types::{Cell, Seq, Value};
use std::alloc::{AllocError, Global};

pub(crate) fn copies(alloc: Global, cells: &[Cell]) -> Result<Seq<Cell>, AllocError>
    ensures { IfOk result (λ copies. copies ≡ cells.now) }
{
    let mut copies = Seq::new(alloc);
    for cell in cells {
        copies.push(cell.copy()?)?;
    }
    Ok(copies)
}

/// For each of so many fields its values of the rows at places.
pub(crate) fn cells_of_places(
    alloc: Global,
    rows: &[Seq<Cell>],
    places: &[usize],
    fields: u32,
) -> Result<Seq<Cell>, AllocError>
    ensures { IfOk result (λ cells. cells ≡ map (λ field. flat_map (field_at rows.now field) places.now) (range_with_len 0 fields)) }
{
    let mut cells = Seq::new(alloc);
    for field in 0..fields {
        cells.push(cell_of_places(alloc, rows, places, field as usize)?)?;
    }
    Ok(cells)
}

/// A field's values of the rows at places, one row after another.
pub(crate) fn cell_of_places(
    alloc: Global,
    rows: &[Seq<Cell>],
    places: &[usize],
    field: usize,
) -> Result<Cell, AllocError>
    ensures { IfOk result (λ cell. cell ≡ flat_map (field_at rows.now field) places.now) }
{
    let mut cell = Cell::null(alloc);
    for place in places {
        push_values(&mut cell, values_at(rows, *place, field))?;
    }
    Ok(cell)
}

/// A field's values of the row at a place, none where it is absent.
fn values_at(rows: &[Seq<Cell>], place: usize, field: usize) -> &[Value]
    ensures { result.now ≡ field_at rows.now field place }
{
    match rows.get(place) {
        Some(row) => match row.at(field) {
            Some(cell) => cell.as_slice(),
            None => &[],
        },
        None => &[],
    }
}

fn push_values(cell: &mut Cell, values: &[Value]) -> Result<(), AllocError>
    ensures { OnOk result (cell.new ≡ cell.old ++ values.now) }
{
    for value in values {
        cell.push(value.copy()?)?;
    }
    Ok(())
}
