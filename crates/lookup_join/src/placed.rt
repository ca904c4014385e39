ghost use Rattle.std.specs.Prelude.{◌≡◌, ◌∷◌, [], IfOk};
ghost use Rattle.std.specs.String.{string_bytes};
ghost use Rattle.lookup_join.specs.Placed.{has_column, hashed, key_policy, place_cell, place_column, place_name, placed_from, placed_shape, row_policy};

use esql_plan::{PolicyShape, TableShape};
use esql_types::{Cell, Column, Kind, Seq, Text, Value};
use ndjson_load::Table;
use std::alloc::{AllocError, Global};

/// The name of the column of places: the shortest run of `#` that is no column's name.
fn place_name(alloc: Global, columns: &[Column]) -> Result<Text, AllocError>
    ensures { IfOk result (λ name. name ≡ place_name columns.now) }
{
    let mut name = String::from_str(alloc, "#")?;
    let mut more = columns.len();
    while more > 0 && has_column(columns, &name) {
        name.push('#')?;
        more -= 1;
    }
    Ok(Text::from_string(name))
}

fn has_column(columns: &[Column], name: &str) -> bool
    ensures { result ≡ has_column columns.now name.now }
{
    columns.iter().any(|column| column.name.as_str() == name)
}

fn place_column(alloc: Global, columns: &[Column]) -> Result<Column, AllocError>
    ensures { IfOk result (λ column. column ≡ place_column columns.now) }
{
    Ok(Column {
        name: place_name(alloc, columns)?,
        kind: Kind::Long,
    })
}

fn hashed(alloc: Global, name: &str) -> Result<String, AllocError>
    ensures { IfOk result (λ text. string_bytes text ≡ hashed name.now) }
{
    let mut text = String::from_str(alloc, name)?;
    text.push('#')?;
    Ok(text)
}

fn copy_column(column: &Column) -> Result<Column, AllocError>
    ensures { IfOk result (λ copy. copy ≡ column.now) }
{
    Ok(Column {
        name: column.name.copy()?,
        kind: column.kind,
    })
}

fn copy_columns(alloc: Global, columns: &[Column]) -> Result<Seq<Column>, AllocError>
    ensures { IfOk result (λ copies. copies ≡ columns.now) }
{
    let mut copies = Seq::new(alloc);
    for column in columns {
        copies.push(copy_column(column)?)?;
    }
    Ok(copies)
}

/// A copy of a shape.
pub(crate) fn copy_shape(alloc: Global, shape: &TableShape) -> Result<TableShape, AllocError>
    ensures { IfOk result (λ copy. copy ≡ shape.now) }
{
    Ok(TableShape {
        name: shape.name.copy()?,
        columns: copy_columns(alloc, shape.columns.as_slice())?,
    })
}

/// The shape with one more column at the end, the place of each row.
pub(crate) fn placed_shape(alloc: Global, shape: &TableShape) -> Result<TableShape, AllocError>
    ensures { IfOk result (λ placed. placed ≡ placed_shape shape.now) }
{
    let name = Text::from_string(hashed(alloc, shape.name.as_str())?);
    let mut columns = copy_columns(alloc, shape.columns.as_slice())?;
    columns.push(place_column(alloc, shape.columns.as_slice())?)?;
    Ok(TableShape { name, columns })
}

fn one_number(alloc: Global, number: u32) -> Result<Seq<u32>, AllocError>
    ensures { IfOk result (λ numbers. numbers ≡ number ∷ []) }
{
    let mut numbers = Seq::new(alloc);
    numbers.push(number)?;
    Ok(numbers)
}

fn one_column(alloc: Global, column: Column) -> Result<Seq<Column>, AllocError>
    ensures { IfOk result (λ columns. columns ≡ column ∷ []) }
{
    let mut columns = Seq::new(alloc);
    columns.push(column)?;
    Ok(columns)
}

/// The policy that gives the places of the rows that match a column.
pub(crate) fn key_policy(
    alloc: Global,
    number: u32,
    shape: &TableShape,
    column: &Column,
) -> Result<PolicyShape, AllocError>
    ensures { IfOk result (λ policy. policy ≡ key_policy number shape.now column.now) }
{
    let mut name = hashed(alloc, shape.name.as_str())?;
    name.push_str(column.name.as_str())?;
    let place = place_column(alloc, shape.columns.as_slice())?;
    Ok(PolicyShape {
        name: Text::from_string(name),
        tables: one_number(alloc, number)?,
        match_field: copy_column(column)?,
        fields: one_column(alloc, place)?,
    })
}

/// The policy that gives all columns of the row of a place.
pub(crate) fn row_policy(
    alloc: Global,
    number: u32,
    shape: &TableShape,
) -> Result<PolicyShape, AllocError>
    ensures { IfOk result (λ policy. policy ≡ row_policy number shape.now) }
{
    Ok(PolicyShape {
        name: Text::from_string(hashed(alloc, shape.name.as_str())?),
        tables: one_number(alloc, number)?,
        match_field: place_column(alloc, shape.columns.as_slice())?,
        fields: copy_columns(alloc, shape.columns.as_slice())?,
    })
}

/// A copy of the rows, each with its place as one more cell.
pub(crate) fn with_places(alloc: Global, rows: &[Seq<Cell>]) -> Result<Table, AllocError>
    ensures { IfOk result (λ table. table ≡ placed_from 0 rows.now) }
{
    let mut placed = Seq::new(alloc);
    for (place, row) in rows.iter().enumerate() {
        let mut cells = copy_cells(alloc, row.as_slice())?;
        cells.push(Cell::one(alloc, Value::Long(place as i64)))?;
        placed.push(cells)?;
    }
    Ok(Table::from_rows(placed))
}

fn copy_cells(alloc: Global, cells: &[Cell]) -> Result<Seq<Cell>, AllocError>
    ensures { IfOk result (λ copies. copies ≡ cells.now) }
{
    let mut copies = Seq::new(alloc);
    for cell in cells {
        copies.push(cell.copy()?)?;
    }
    Ok(copies)
}
