ghost use Rattle.std.specs.Prelude.{◌≡◌, ◌++◌, ◌<◌, All, [], ◌∷◌, map, length, IfOk, OnOk, ℕ, List, None, replicate, slice_get, slice_index_or};
ghost use Rattle.std.specs.BTreeMap.{get_by};
ghost use Rattle.std.specs.Cmp.Lexicographic.{slice_cmp};
ghost use Rattle.std.specs.List.{flat_map};
ghost use Rattle.std.specs.Option.{option_copied};
ghost use Rattle.std.specs.Ordering.{nat_cmp};
ghost use Rattle.esql_plan.specs.declared.plan.ScanColumn.{ScanColumn as Scanned};
ghost use Rattle.plan_semantics.specs.Tables.{source_rows, scan_table};
ghost use Rattle.plan_rows.specs.Held.{tables_held};
ghost use Rattle.plan_rows.specs.Kept.{rows_of};
ghost use Rattle.plan_rows.specs.Places.{place_from, places_of, cell_in, cells_in};

use esql_plan::{Catalog, PlanSource, ScanColumn};
use esql_types::{Cell, Column, Seq, Text};
use ndjson_load::Table;
use stats_groups::width_with;
use std::alloc::{AllocError, Global};
use std::collections::BTreeMap;

/// The rows of a source, each with a cell for each column number up to the last that is scanned, and room for so many.
pub(crate) fn source_rows(
    alloc: Global,
    source: &PlanSource,
    room: u32,
    catalog: &Catalog,
    tables: &[Table],
) -> Result<Seq<Seq<Cell>>, AllocError>
    ensures { IfOk result (λ rows. rows_of rows ≡ source_rows (tables_held catalog.now tables.now).tables source.now) }
{
    match source {
        PlanSource::OneRow => one_row(alloc, room),
        PlanSource::Scan {
            tables: numbers,
            columns: scanned,
        } => scan(
            alloc,
            numbers.as_slice(),
            scanned.as_slice(),
            room as usize,
            catalog,
            tables,
        ),
    }
}

/// One row without a cell, and with room for so many.
fn one_row(alloc: Global, room: u32) -> Result<Seq<Seq<Cell>>, AllocError>
    ensures { IfOk result (λ rows. rows ≡ [] ∷ []) }
{
    let mut rows = Seq::new(alloc);
    rows.push(Seq::from_vec(Vec::with_capacity(alloc, room as usize)?))?;
    Ok(rows)
}

/// The rows of the tables of the numbers, one table after another.
fn scan(
    alloc: Global,
    numbers: &[u32],
    scanned: &[ScanColumn],
    room: usize,
    catalog: &Catalog,
    tables: &[Table],
) -> Result<Seq<Seq<Cell>>, AllocError>
    ensures { IfOk result (λ rows. rows_of rows ≡ flat_map (λ number. scan_table scanned.now (slice_get (tables_held catalog.now tables.now).tables number)) numbers.now) }
{
    let mut rows = Seq::new(alloc);
    for number in numbers {
        add_table(
            alloc,
            *number as usize,
            scanned,
            room,
            catalog,
            tables,
            &mut rows,
        )?;
    }
    Ok(rows)
}

/// Adds the rows of the table of a number, which has none where it is not there.
fn add_table(
    alloc: Global,
    number: usize,
    scanned: &[ScanColumn],
    room: usize,
    catalog: &Catalog,
    tables: &[Table],
    rows: &mut Seq<Seq<Cell>>,
) -> Result<(), AllocError>
    ensures { OnOk result (rows_of rows.new ≡ rows_of rows.old ++ scan_table scanned.now (slice_get (tables_held catalog.now tables.now).tables number)) }
{
    match (catalog.tables.at(number), table_at(tables, number)) {
        (Some(shape), Some(table)) => {
            let places = places_of(alloc, width_of(scanned), scanned, shape.columns.as_slice())?;
            add_rows(alloc, places.as_slice(), room, table.as_slice(), rows)
        }
        (Some(_), None) => Ok(()),
        (None, _) => Ok(()),
    }
}

pub(crate) fn table_at(tables: &[Table], number: usize) -> Option<&Table>
    ensures { option_copied result ≡ slice_get tables.now number }
{
    tables.get(number)
}

/// For each of so many column numbers, the place where a scan finds its cell in a row of a table, if it is scanned.
fn places_of(
    alloc: Global,
    count: usize,
    scanned: &[ScanColumn],
    columns: &[Column],
) -> Result<Seq<Option<usize>>, AllocError>
    requires { All (λ (column : Scanned). column.to.0 < count) scanned.now }
    ensures { IfOk result (λ places. places ≡ places_of count scanned.now columns.now) }
{
    let named = places_by_name(alloc, columns)?;
    let mut places = no_places(alloc, count)?;
    for back in 0..scanned.len() {
        let column = &scanned[scanned.len() - 1 - back];
        let place = place_named(&named, &column.name);
        places.replace(column.to.0 as usize, place);
    }
    Ok(places)
}

/// How many cells a row has that has one for each column number up to the last that is scanned.
fn width_of(scanned: &[ScanColumn]) -> usize
    ensures { All (λ (column : Scanned). column.to.0 < result) scanned.now }
{
    let mut width = 0;
    for column in scanned {
        width = width_with(width, column.to);
    }
    width
}

fn no_places(alloc: Global, count: usize) -> Result<Seq<Option<usize>>, AllocError>
    ensures { IfOk result (λ places. places ≡ replicate count None) }
{
    let mut places = Seq::new(alloc);
    for _ in 0..count {
        places.push(None)?;
    }
    Ok(places)
}

/// The place of the first column of each name.
pub(crate) fn places_by_name<'a>(
    alloc: Global,
    columns: &'a [Column],
) -> Result<BTreeMap<&'a str, usize>, AllocError>
    ensures { IfOk result (λ named. (name : List ℕ) →
        get_by (λ key. slice_cmp nat_cmp name key.now) named ≡ place_from columns.now 0 name) }
{
    let mut named = BTreeMap::new(alloc);
    for back in 0..columns.len() {
        let place = columns.len() - 1 - back;
        named.insert(columns[place].name.as_str(), place)?;
    }
    Ok(named)
}

pub(crate) fn place_named(named: &BTreeMap<&str, usize>, name: &Text) -> Option<usize>
    ensures { result ≡ get_by (λ key. slice_cmp nat_cmp name.now key.now) named.now }
{
    named.get(name.as_str()).copied()
}

/// Adds the cells at places of each row of a table.
fn add_rows(
    alloc: Global,
    places: &[Option<usize>],
    room: usize,
    table: &[Seq<Cell>],
    rows: &mut Seq<Seq<Cell>>,
) -> Result<(), AllocError>
    ensures { OnOk result (rows.new ≡ rows.old ++ map (cells_in places.now) table.now) }
{
    for row in table {
        rows.push(cells_in(alloc, places, room, row)?)?;
    }
    Ok(())
}

/// The cells at places of a row, with room for so many.
pub(crate) fn cells_in(
    alloc: Global,
    places: &[Option<usize>],
    room: usize,
    row: &Seq<Cell>,
) -> Result<Seq<Cell>, AllocError>
    ensures { IfOk result (λ cells. cells ≡ cells_in places.now row.now) }
{
    let mut cells = Vec::with_capacity(alloc, places.len().max(room))?;
    for place in places {
        cells.push(cell_in(alloc, row, *place)?)?;
    }
    Ok(Seq::from_vec(cells))
}

pub(crate) fn cell_in(
    alloc: Global,
    row: &Seq<Cell>,
    place: Option<usize>,
) -> Result<Cell, AllocError>
    ensures { IfOk result (λ cell. cell ≡ cell_in row.now place) }
{
    match place {
        Some(place) => cell_of(alloc, row, place),
        None => Ok(Cell::null(alloc)),
    }
}

/// A copy of the cell at a place, null where there is none.
pub(crate) fn cell_of(alloc: Global, row: &Seq<Cell>, place: usize) -> Result<Cell, AllocError>
    ensures { IfOk result (λ cell. cell ≡ slice_index_or row.now place []) }
{
    match row.at(place) {
        Some(cell) => cell.copy(),
        None => Ok(Cell::null(alloc)),
    }
}
