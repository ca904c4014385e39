//! Tables: the rows of a file.
ghost use Rattle.std.specs.Prelude.{◌≡◌, ◌≤◌, ◌<◌, ◌∷◌, [], replicate, true, None, Some, Ok, Err, List, length, slice_get, option_and_then, IfOk, IfErr, IfSome, IsSome, IsSomeAnd, OnOk, All};
ghost use Rattle.std.specs.Option.{option_copied};
ghost use Rattle.serde_json.specs.View.{view};
ghost use Rattle.ndjson_load.specs.Called.{CalledToLoad};
ghost use Rattle.ndjson_load.specs.Documents.{document_of};
ghost use Rattle.ndjson_load.specs.Joining.{after};
ghost use Rattle.ndjson_load.specs.Rows.{cell_of, cells_of, row_of, line_rows, table_of};
ghost use Rattle.ndjson_load.specs.Loading.{Loads, IfBadRow, IfRowFault, IsLoaded};
ghost use Rattle.ndjson_load.specs.Over.{Over};
ghost use Rattle.ndjson_load.specs.Shapes.{IsLoadable, IsRowOf, NamesRise};

use crate::document::read_document;
use crate::lines::{cut_line, is_blank, without_return};
use crate::mapping::compare_names;
use crate::reach::Reach;
use crate::spread::spread;
use crate::take::{TakeError, take};
use crate::{LoadError, MAX_FILE, MappedColumn, ReadError, RowCause, read_whole};
use esql_io::Files;
use esql_types::{Cell, Seq, Text};
use serde_json::Value as Json;
use std::alloc::{AllocError, Global};
use std::marker::Model;

/// The rows of a table, each with a cell for each of its columns.
///
/// Contracts see it as the list of its rows, each the list of its cells.
#[derive(Debug, Drop)]
pub struct Table {
    pub(crate) rows: Seq<Seq<Cell>>,
}

impl Model for Table {
    ghost use Rattle.std.specs.Prelude.{List};
    ghost use Rattle.esql_types.specs.declared.value.Value.{Value as CellValue};

    ghost Value = { List (List (List CellValue)) };

    ghost view = { λ t. t.rows };
}

impl Table {
    /// The table of these rows.
    pub fn from_rows(rows: Seq<Seq<Cell>>) -> Table
        ensures { result ≡ rows }
    {
        Table { rows }
    }

    /// How many rows the table has.
    pub fn rows(&self) -> u64
        ensures { result ≡ length self.now }
    {
        self.rows.len() as u64
    }

    /// The rows in their order, each with its cells in the order of the columns.
    pub fn as_slice(&self) -> &[Seq<Cell>]
        ensures { result.now ≡ self.now }
    {
        self.rows.as_slice()
    }

    /// A copy of the cell at a row and a column.
    pub fn cell(&self, row: u64, column: u32) -> Result<Cell, AllocError>
        requires { IsSome (option_and_then (λ cells. slice_get cells column) (slice_get self.now row)) }
        ensures { IfOk result (λ cell. option_and_then (λ cells. slice_get cells column) (slice_get self.now row) ≡ Some cell) }
    {
        match cell_at(self.rows.as_slice(), row, column) {
            Some(cell) => cell.copy(),
            None => unreachable!(),
        }
    }
}

fn cell_at(rows: &[Seq<Cell>], row: u64, column: u32) -> Option<&Cell>
    ensures { option_copied result ≡ option_and_then (λ cells. slice_get cells column) (slice_get rows.now row) }
{
    rows.get(row as usize)?.at(column as usize)
}

/// Loads the rows of a file, or answers `None` where it is not held.
///
/// Each line that is not blank is a JSON object, and gives each column the cell that the column takes of it: the values under
/// its dotted name, of arrays those of their items. The first bad line is named, in it the first bad column, and in it the
/// first bad item. `TooLarge` comes exactly where the file has more than 268,435,456 bytes, before any row is judged, and
/// `ReadFault` exactly where a call on the files failed.
pub fn load_table<F: Files>(
    alloc: Global,
    files: &mut F,
    file: &str,
    columns: &Seq<MappedColumn>,
) -> Result<Option<Table>, LoadError>
    ensures loaded { IfOk result (λ table. Over (F.holds files.old) (λ held. IsLoaded columns.now (held file.now) table)) }
    ensures bad { IfErr result (λ error. IfRowFault error (λ bad. Over (F.holds files.old)
        (λ held. IsSomeAnd (held file.now) (λ bytes. (length bytes ≤ MAX_FILE) × (table_of columns.now bytes ≡ Err bad))))) }
    ensures wide { IfOk result (λ table. IfSome table (All (λ row. length row ≡ length columns.now))) }
    ensures few { IfOk result (λ table. IfSome table (λ rows. length rows ≤ MAX_FILE)) }
    ensures kinds { IfOk result (λ table. IfSome table (λ rows. All IsLoadable columns.now → All (IsRowOf columns.now) rows)) }
    ensures too_large { result ≡ Err LoadError.TooLarge → IfSome (F.holds files.old)
        (λ bytes_of. IsSomeAnd (bytes_of file.now) (λ bytes. MAX_FILE < length bytes)) }
    ensures called { CalledToLoad F.holds F.faults F.failed (Some file.now) result files.old files.new }
{
    match read_whole(alloc, files, file) {
        Ok(Some(bytes)) => match read_rows(alloc, bytes.as_slice(), columns.as_slice()) {
            Ok(table) => Ok(Some(table)),
            Err(error) => Err(error),
        },
        Ok(None) => Ok(None),
        Err(ReadError::ReadFault) => Err(LoadError::ReadFault),
        Err(ReadError::TooLarge) => Err(LoadError::TooLarge),
        Err(ReadError::Memory(error)) => Err(LoadError::Memory(error)),
    }
}

/// The rows of the lines of a file.
pub(crate) fn read_rows(
    alloc: Global,
    bytes: &[u8],
    columns: &[MappedColumn],
) -> Result<Table, LoadError>
    requires { length bytes.now ≤ MAX_FILE }
    ensures ok { IfOk result (λ table. table_of columns.now bytes.now ≡ Ok table) }
    ensures bad { IfErr result (λ error. IfBadRow error (λ bad. table_of columns.now bytes.now ≡ Err bad)) }
{
    let mut rows = Seq::new(alloc);
    let mut rest = bytes;
    let mut number = 0;
    let rise = names_rise(columns);
    'lines: while !rest.is_empty() {
        let (line, after) = cut_line(rest);
        number += 1;
        add_line(
            alloc,
            without_return(line),
            number,
            columns,
            rise,
            &mut rows,
        )?;
        rest = after;
    }
    Ok(Table { rows })
}

/// Whether the names of columns rise in byte order, each below the next.
fn names_rise(columns: &[MappedColumn]) -> bool
    ensures { result ≡ true → NamesRise columns.now }
{
    columns.is_sorted_by(|left, right| compare_names(left, right).is_lt())
}

/// Adds the row of a line, unless it is blank.
fn add_line(
    alloc: Global,
    line: &[u8],
    number: u64,
    columns: &[MappedColumn],
    rise: bool,
    rows: &mut Seq<Seq<Cell>>,
) -> Result<(), LoadError>
    requires { rise ≡ true → NamesRise columns.now }
    ensures { Loads (after rows.old (line_rows columns.now (number, line.now))) result rows.new }
{
    if is_blank(line) {
        return Ok(());
    }
    let row = read_row(alloc, line, number, columns, rise)?;
    rows.push(row)?;
    Ok(())
}

fn read_row(
    alloc: Global,
    line: &[u8],
    number: u64,
    columns: &[MappedColumn],
    rise: bool,
) -> Result<Seq<Cell>, LoadError>
    requires { rise ≡ true → NamesRise columns.now }
    ensures ok { IfOk result (λ row. row_of number columns.now (document_of line.now) ≡ Ok (row ∷ [])) }
    ensures bad { IfErr result (λ error. IfBadRow error (λ bad. row_of number columns.now (document_of line.now) ≡ Err bad)) }
{
    let Some(document) = read_document(alloc, line)? else {
        return Err(bad_line(alloc, number, RowCause::NotJson));
    };
    let Json::Object(_) = &document else {
        return Err(bad_line(alloc, number, RowCause::NotObject));
    };
    if rise {
        walk_cells(alloc, &document, number, columns)
    } else {
        read_cells(alloc, &document, number, columns)
    }
}

/// The cells of an object, which is walked once, and again to name a bad value.
fn walk_cells(
    alloc: Global,
    object: &Json,
    number: u64,
    columns: &[MappedColumn],
) -> Result<Seq<Cell>, LoadError>
    requires { NamesRise columns.now }
    ensures ok { IfOk result (λ row. cells_of number columns.now (view object.now) ≡ Ok row) }
    ensures bad { IfErr result (λ error. IfBadRow error (λ bad. cells_of number columns.now (view object.now) ≡ Err bad)) }
{
    let mut cells = null_cells(alloc, columns.len())?;
    let reach = Reach {
        depth: 0,
        low: 0,
        high: columns.len(),
    };
    match spread(alloc, object, reach, columns, cells.as_mut_slice()) {
        Ok(()) => Ok(Seq::from_vec(cells)),
        Err(TakeError::Bad(_)) => read_cells(alloc, object, number, columns),
        Err(TakeError::Memory(error)) => Err(LoadError::Memory(error)),
    }
}

fn null_cells(alloc: Global, count: usize) -> Result<Vec<Cell>, AllocError>
    ensures { IfOk result (λ cells. cells.items ≡ replicate count []) }
{
    let mut cells = Vec::with_capacity(alloc, count)?;
    for _ in 0..count {
        cells.push(Cell::null(alloc))?;
    }
    Ok(cells)
}

/// The cells of an object, which is walked for each column.
fn read_cells(
    alloc: Global,
    object: &Json,
    number: u64,
    columns: &[MappedColumn],
) -> Result<Seq<Cell>, LoadError>
    ensures ok { IfOk result (λ row. cells_of number columns.now (view object.now) ≡ Ok row) }
    ensures bad { IfErr result (λ error. IfBadRow error (λ bad. cells_of number columns.now (view object.now) ≡ Err bad)) }
{
    let mut row = Seq::new(alloc);
    for column in columns {
        let cell = read_cell(alloc, object, number, column)?;
        row.push(cell)?;
    }
    Ok(row)
}

fn read_cell(
    alloc: Global,
    object: &Json,
    number: u64,
    column: &MappedColumn,
) -> Result<Cell, LoadError>
    ensures ok { IfOk result (λ cell. cell_of number (view object.now) column.now ≡ Ok (cell ∷ [])) }
    ensures bad { IfErr result (λ error. IfBadRow error (λ bad. cell_of number (view object.now) column.now ≡ Err bad)) }
{
    let mut cell = Cell::null(alloc);
    match take(
        alloc,
        object,
        column.column.name.as_str().as_bytes(),
        column,
        &mut cell,
    ) {
        Ok(()) => Ok(cell),
        Err(TakeError::Bad(cause)) => {
            let field = column.column.name.copy()?;
            Err(LoadError::BadRow {
                line: number,
                field,
                cause,
            })
        }
        Err(TakeError::Memory(error)) => Err(LoadError::Memory(error)),
    }
}

fn bad_line(alloc: Global, number: u64, cause: RowCause) -> LoadError
    ensures { IfBadRow result (λ bad. bad ≡ record { line = number; field = []; cause = cause }) }
{
    let field = Text::from_string(String::new(alloc));
    LoadError::BadRow {
        line: number,
        field,
        cause,
    }
}
