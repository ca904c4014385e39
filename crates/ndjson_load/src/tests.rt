use super::*;
use esql_io::{HeldFile, MemoryFiles};
use esql_types::{Cell, Seq, Text, Value};
use std::alloc::{AllocError, Global};
use std::test::Fail;

fn push_value(out: &mut String, value: &Value) -> Result<(), AllocError> {
    match value {
        Value::Int(number) => write!(out, "{number}"),
        Value::Long(number) => write!(out, "{number}L"),
        Value::Bool(truth) => write!(out, "{truth}"),
        Value::Text(text) => out.push_str(text.as_str()),
    }
}

fn push_cell(out: &mut String, cell: &Cell) -> Result<(), AllocError> {
    out.push_str("[")?;
    for value in cell.as_slice() {
        push_value(out, value)?;
        out.push_str(" ")?;
    }
    out.push_str("]")
}

fn push_column(out: &mut String, column: &MappedColumn) -> Result<(), AllocError> {
    write!(
        out,
        "{}:{:?}",
        column.column.name.as_str(),
        column.column.kind
    )?;
    if column.ignore_malformed {
        out.push_str("~")?;
    }
    if let Some(value) = &column.null_value {
        out.push_str("=")?;
        push_value(out, value)?;
    }
    out.push_str(" ")
}

fn push_cause(out: &mut String, cause: &MappingCause) -> Result<(), AllocError> {
    match cause {
        MappingCause::NotJson => out.push_str("NotJson"),
        MappingCause::NoMappings => out.push_str("NoMappings"),
        MappingCause::WantsObject { path } => write!(out, "WantsObject {}", path.as_str()),
        MappingCause::WantsText { path } => write!(out, "WantsText {}", path.as_str()),
        MappingCause::BadParameter { path } => write!(out, "BadParameter {}", path.as_str()),
        MappingCause::Twice { path } => write!(out, "Twice {}", path.as_str()),
        _ => out.push_str("?"),
    }
}

// The columns of a mapping, or its cause.
fn mapping(alloc: Global, bytes: &str) -> Result<String, AllocError> {
    let mut out = String::new(alloc);
    match read_mapping(alloc, bytes.as_bytes()) {
        Ok(columns) => for column in columns.as_slice() {
            push_column(&mut out, column)?;
        },
        Err(MappingError::Bad { cause }) => push_cause(&mut out, &cause)?,
        Err(MappingError::Memory(error)) => return Err(error),
    }
    Ok(out)
}

fn files(alloc: Global, bytes: &[u8], failing: u64) -> Result<MemoryFiles, AllocError> {
    let mut held = Seq::new(alloc);
    held.push(HeldFile {
        name: Text::from_str(alloc, "t.ndjson")?,
        bytes: Seq::from_vec(Vec::from_slice(alloc, bytes)?),
    })?;
    let mut numbers = Seq::new(alloc);
    numbers.push(failing)?;
    Ok(MemoryFiles::new(held, 16, numbers))
}

fn push_rows(out: &mut String, rows: &[Seq<Cell>]) -> Result<(), AllocError> {
    for row in rows {
        for cell in row.as_slice() {
            push_cell(out, cell)?;
        }
        out.push_str("\n")?;
    }
    Ok(())
}

// The rows of a table under the properties of a mapping, or the first bad place.
fn table(alloc: Global, properties: &str, bytes: &[u8], failing: u64) -> Result<String, Fail> {
    let mut document = String::from_str(alloc, "{\"mappings\":{\"properties\":")?;
    document.push_str(properties)?;
    document.push_str("}}")?;
    let columns = read_mapping(alloc, document.as_str().as_bytes())?;
    table_of(alloc, &columns, bytes, failing)
}

// The rows of a table of columns, or the first bad place.
fn table_of(
    alloc: Global,
    columns: &Seq<MappedColumn>,
    bytes: &[u8],
    failing: u64,
) -> Result<String, Fail> {
    let mut out = String::new(alloc);
    match load_table(
        alloc,
        &mut files(alloc, bytes, failing)?,
        "t.ndjson",
        columns,
    ) {
        Ok(Some(table)) => push_rows(&mut out, table.rows.as_slice())?,
        Ok(None) => out.push_str("none")?,
        Err(LoadError::ReadFault) => out.push_str("ReadFault")?,
        Err(LoadError::TooLarge) => out.push_str("TooLarge")?,
        Err(LoadError::BadRow { line, field, cause }) => write!(
            out,
            "{line} [{}] {cause:?}",
            field.as_str()
        )?,
        Err(LoadError::Memory(error)) => return Err(error.into()),
    }
    Ok(out)
}

const NEVER: u64 = 1_000_000;

const MAPPINGS: &[(&str, &str)] = &[
    ("", "NotJson"),
    ("{\"mappings\":{\"proper", "NotJson"),
    ("[]", "NoMappings"),
    ("{\"mappings\":{\"properties\":5}}", "NoMappings"),
    (
        "{\"mappings\":{\"mappings\":{\"properties\":{}}}}",
        "NoMappings",
    ),
    (
        "{\"mappings\":{\"properties\":{\"a\":{\"type\":7}}}}",
        "WantsText a",
    ),
    (
        "{\"mappings\":{\"properties\":{\"a\":{\"type\":null}}}}",
        "WantsText a",
    ),
    ("{\"mappings\":{\"properties\":{\"a\":5}}}", "WantsObject a"),
    (
        "{\"mappings\":{\"properties\":{\"a\":{\"properties\":null}}}}",
        "WantsObject a",
    ),
    (
        "{\"mappings\":{\"properties\":{\"a.b\":{\"type\":\"long\"},\"a\":{\"properties\":{\"b\":{\"type\":\"long\"}}}}}}",
        "Twice a.b",
    ),
    (
        "{\"mappings\":{\"properties\":{\"a\":{\"type\":\"long\",\"null_value\":\"x\"}}}}",
        "BadParameter a",
    ),
    (
        "{\"mappings\":{\"properties\":{\"b\":{\"type\":\"date\"},\"a\":{\"type\":\"long\",\"ignore_malformed\":1},\"B\":{\"type\":7}}}}",
        "WantsText B",
    ),
    (
        "{\"t\":{\"mappings\":{\"properties\":{\"a\":{\"type\":\"object\"},\"b\":{},\"c\":{\"type\":\"date\"}}}}}",
        "",
    ),
    (
        "{\"t\":{\"mappings\":{\"properties\":{\"a\":{\"properties\":{\"b\":{\"type\":\"short\",\"null_value\":300}}},\"a-x\":{\"type\":\"keyword\",\"properties\":5,\"null_value\":7}}}}}",
        "a-x:Keyword=7 a.b:Integer=300 ",
    ),
    (
        "{\"mappings\":{\"properties\":{\"a\":{\"type\":\"long\",\"ignore_malformed\":\"true\",\"null_value\":\"+5\"},\"b\":{\"type\":\"boolean\",\"null_value\":null},\"c\":{\"type\":\"text\",\"null_value\":[],\"ignore_malformed\":1}}}}",
        "a:Long~=5L b:Boolean c:Keyword ",
    ),
];

#[test]
fn mappings_give_columns(rt: HostRuntime) -> Result<(), Fail> {
    for (document, wanted) in MAPPINGS {
        let shown = mapping(rt.alloc(), document)?;
        assert!(rt; shown.as_str() == *wanted);
    }
    Ok(())
}

const LONG: &str = "{\"a\":{\"type\":\"long\"}}";

const NESTED: &str = "{\"a\":{\"properties\":{\"b\":{\"type\":\"long\"}}}}";

const KEYWORD: &str = "{\"a\":{\"type\":\"keyword\"}}";

const INTEGER: &str = "{\"a\":{\"type\":\"integer\"}}";

const BOOLEAN: &str = "{\"a\":{\"type\":\"boolean\"}}";

const LENIENT: &str =
    "{\"a\":{\"type\":\"long\",\"null_value\":-1},\"b\":{\"type\":\"integer\",\"ignore_malformed\":true}}";

const DEEP: &str =
    "{\"a\":{\"properties\":{\"b\":{\"type\":\"long\"},\"c\":{\"properties\":{\"d\":{\"type\":\"long\"}}}}},\"a-x\":{\"type\":\"keyword\"}}";

const ROWS: &[(&str, &str, &str)] = &[
    (
        NESTED,
        "{\"a\":{\"b\":1}}\r\n\r\n{\"a\":[{\"b\":2},{\"b\":[3,null]}]}\r\n{\"a.b\":4}",
        "[1L ]\n[2L 3L ]\n[4L ]\n",
    ),
    (
        NESTED,
        "{\"a\":{\"b\":1}}\r\n\r\n{\"a\":[{\"b\":2},{\"b\":[3,null]}]}\r\n{\"a\":{\"b\":1.5}}",
        "4 [a.b] BadNumber",
    ),
    (
        LENIENT,
        "{\"a\":null,\"b\":\"x\"}\n{\"a\":[null,3],\"b\":[1,\"y\",2]}\n{\"b\":1.5}\n{\"a\":[]}\n",
        "[-1L ][]\n[-1L 3L ][1 2 ]\n[][]\n[][]\n",
    ),
    (
        LENIENT,
        "{\"a\":null,\"b\":\"x\"}\n{\"a\":[null,3],\"b\":[1,\"y\",2]}\n{\"b\":1.5}\n{\"a\":[]}\n{\"b\":{\"c\":1}}",
        "5 [b] WantsValue",
    ),
    (LONG, "{\"a\":1}\n{\"a\":1", "2 [] NotJson"),
    (LONG, "[1]", "1 [] NotObject"),
    (LONG, "", ""),
    (LONG, " \t\n\n  {\"a\":\"12x\"}", "3 [a] BadNumber"),
    (
        LONG,
        "{\"a\":[[1,[2]],3]}\n{\"a\":1,\"a\":2}\n{\"a\":\"+5\"}\n{\"a\":\"-0\"}",
        "[1L 2L 3L ]\n[2L ]\n[5L ]\n[0L ]\n",
    ),
    (NESTED, "{\"a.b\":1,\"a\":{\"b\":2}}", "[2L 1L ]\n"),
    (NESTED, "{\"a\":5}", "1 [a.b] WantsObject"),
    (NESTED, "{\"a\":{\"b\":{}}}", "1 [a.b] WantsValue"),
    (
        DEEP,
        "{\"a.c\":{\"d\":1},\"a\":{\"c.d\":2,\"b\":3},\"a.c.d\":4,\"a-x\":\"y\"}\n{\"a\":[{\"b\":[1]},null,[{\"b\":2,\"c\":null}]],\"a.\":7}",
        "[y ][3L ][2L 1L 4L ]\n[][1L 2L ][]\n",
    ),
    (DEEP, "{\"a\":{\"b\":\"x\"},\"a-x\":1.5}", "1 [a-x] BadText"),
    (DEEP, "{\"a\":[{\"c\":5},{\"b\":{}}]}", "1 [a.b] WantsValue"),
    (LONG, "{\"a\":1.0}", "1 [a] BadNumber"),
    (LONG, "{\"a\":1e3}", "1 [a] BadNumber"),
    (LONG, "{\"a\":-0}", "1 [a] BadNumber"),
    (LONG, "{\"a\":9223372036854775808}", "1 [a] BadNumber"),
    (LONG, "{\"a\":\"\"}", "1 [a] BadNumber"),
    (LONG, "{\"a\":\" 5\"}", "1 [a] BadNumber"),
    (INTEGER, "{\"a\":2147483648}", "1 [a] BadNumber"),
    (INTEGER, "{\"a\":-2147483648}", "[-2147483648 ]\n"),
    (BOOLEAN, "{\"a\":[true,\"false\"]}", "[true false ]\n"),
    (BOOLEAN, "{\"a\":\"TRUE\"}", "1 [a] BadBoolean"),
    (KEYWORD, "{\"a\":[5,true,\"x\"]}", "[5 true x ]\n"),
    (KEYWORD, "{\"a\":1.5}", "1 [a] BadText"),
];

#[test]
fn rows_give_cells(rt: HostRuntime) -> Result<(), Fail> {
    for (properties, rows, wanted) in ROWS {
        let shown = table(rt.alloc(), properties, rows.as_bytes(), NEVER)?;
        assert!(rt; shown.as_str() == *wanted);
    }
    Ok(())
}

#[test]
fn columns_stand_in_any_order(rt: HostRuntime) -> Result<(), Fail> {
    let alloc = rt.alloc();
    let nested = "{\"mappings\":{\"properties\":{\"a.b\":{\"type\":\"long\"}}}}";
    let mut columns = read_mapping(alloc, nested.as_bytes())?;
    let again = read_mapping(alloc, nested.as_bytes())?;
    for column in again.into_vec() {
        columns.push(column)?;
    }
    let row = b"{\"a\":{\"b\":1}}";
    let shown = table_of(alloc, &columns, row, NEVER)?;
    assert_eq!(rt; shown.as_str(), "[1L ][1L ]\n");
    Ok(())
}

// The first cell of a table of one column.
fn first_cell(
    alloc: Global,
    columns: &Seq<MappedColumn>,
    bytes: &[u8],
) -> Result<Option<Cell>, Fail> {
    let mut files = files(alloc, bytes, NEVER)?;
    match load_table(alloc, &mut files, "t.ndjson", columns)? {
        Some(table) => if table.rows() > 0 && columns.len() > 0 {
            Ok(Some(table.cell(0, 0)?))
        } else {
            Ok(None)
        },
        None => Ok(None),
    }
}

#[test]
fn cells_are_copied(rt: HostRuntime) -> Result<(), Fail> {
    let columns = read_mapping(
        rt.alloc(),
        b"{\"mappings\":{\"properties\":{\"a\":{\"type\":\"long\"}}}}",
    )?;
    let mut out = String::new(rt.alloc());
    if let Some(cell) = first_cell(rt.alloc(), &columns, b"{\"a\":[1,2]}")? {
        push_cell(&mut out, &cell)?;
    }
    assert_eq!(rt; out.as_str(), "[1L 2L ]");
    Ok(())
}

#[test]
fn files_fail_and_are_missing(rt: HostRuntime) -> Result<(), Fail> {
    let alloc = rt.alloc();
    let long = "{\"a\":{\"type\":\"long\"}}";
    assert_eq!(rt;
        table(alloc, long, b"{\"a\":1}\n\xff", NEVER)?.as_str(),
        "2 [] NotJson"
    );
    assert_eq!(rt; table(alloc, long, b"{\"a\":1}", 0)?.as_str(), "ReadFault");
    assert_eq!(rt; table(alloc, long, b"{\"a\":1}", 2)?.as_str(), "ReadFault");
    let missing = read_whole(alloc, &mut files(alloc, b"x", NEVER)?, "t.mapping.json")?;
    assert!(rt; missing.is_none());
    let mut nested = String::from_str(alloc, "{\"a\":")?;
    nested.push_str("[".repeat(alloc, 200)?.as_str())?;
    nested.push_str("]".repeat(alloc, 200)?.as_str())?;
    nested.push_str("}")?;
    assert_eq!(rt;
        table(alloc, long, nested.as_str().as_bytes(), NEVER)?.as_str(),
        "1 [] NotJson"
    );
    Ok(())
}

#[test]
fn a_row_follows_many_spaces(rt: HostRuntime) -> Result<(), Fail> {
    let mut line = " ".repeat(rt.alloc(), 1_000_000)?;
    line.push_str("{\"a\":1}")?;
    let shown = table(rt.alloc(), LONG, line.as_str().as_bytes(), NEVER)?;
    assert_eq!(rt; shown.as_str(), "[1L ]\n");
    Ok(())
}
