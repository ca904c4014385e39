//! Laws of table files.
ghost use Rattle.std.specs.Prelude.{◌≡◌, List, ℕ, Err};
ghost use Rattle.std.specs.List.{enumerate_from};
ghost use Rattle.esql_types.specs.declared.value.Value.{Value};
ghost use Rattle.file_laws.specs.FirstFaults.{IsFirstFault};
ghost use Rattle.file_laws.specs.Lines.{AreLines, HasNoEnd};
ghost use Rattle.file_laws.specs.Paths.{ColumnsAreLed, LedAreColumns};
ghost use Rattle.ndjson_load.specs.Gathering.{Item};
ghost use Rattle.ndjson_load.specs.Rows.{RowFault, cell_of, cells_of, ended_lines, line_rows, lines, table_of, taken, taken_item};
ghost use Rattle.ndjson_load.specs.declared.cause.RowCause.{RowCause};
ghost use Rattle.ndjson_load.specs.declared.column.MappedColumn.{MappedColumn};
ghost use Rattle.serde_json.specs.Data.{Data};

/// A law: the lines of a file, each with a line feed after it, are the file, but that the last may stand without one.
pub fn lines_are_joined()
    ensures { (bytes : List ℕ) → AreLines bytes (ended_lines bytes) }
{}

/// A law: no line of a file has a line feed in it.
pub fn lines_have_no_ends()
    ensures { (bytes : List ℕ) → HasNoEnd (ended_lines bytes) }
{}

/// A law: the fault of a file is that of its first bad line; each line before it gives its row, or is blank.
pub fn first_bad_line()
    ensures { (columns : List MappedColumn) (bytes : List ℕ) (fault : RowFault) → table_of columns bytes ≡ Err fault → IsFirstFault (line_rows columns) (enumerate_from 1 (lines bytes)) fault }
{}

/// A law: the fault of a line is that of the first column, in the order of the columns, that is bad in it; each column before it
/// takes its cell.
pub fn first_bad_column()
    ensures { (line : ℕ) (columns : List MappedColumn) (document : Data) (fault : RowFault) → cells_of line columns document ≡ Err fault → IsFirstFault (cell_of line document) columns fault }
{}

/// A law: the fault of a column is that of the first item that it does not take; each item before it is taken.
pub fn first_bad_item()
    ensures { (column : MappedColumn) (items : List Item) (cause : RowCause) → taken column items ≡ Err cause → IsFirstFault (taken_item column) items cause }
{}

/// A law: where properties give columns, a chain of properties leads to each of them, with its kind and parameters.
pub fn columns_are_led()
    ensures { ColumnsAreLed }
{}

/// A law: where properties give columns, whatever a chain of properties leads to is one of them.
pub fn led_are_columns()
    ensures { LedAreColumns }
{}
