ghost use Rattle.std.specs.Prelude.{◌≡◌, All, IfOk, length};

use super::*;
use esql_types::{Cell, Column, Kind, Seq, Text, Value};
use std::alloc::{AllocError, Global};
use std::test::Fail;

fn columns_of(alloc: Global, names: &[&str]) -> Result<Seq<Column>, AllocError>
    ensures { IfOk result (λ columns. length columns ≡ length names.now) }
{
    let mut columns = Seq::new(alloc);
    for name in names {
        let name = Text::from_str(alloc, name)?;
        columns.push(Column {
            name,
            kind: Kind::Integer,
        })?;
    }
    Ok(columns)
}

fn cell_of(alloc: Global, numbers: &[i32]) -> Result<Cell, AllocError> {
    let mut cell = Cell::null(alloc);
    for number in numbers {
        cell.push(Value::Int(*number))?;
    }
    Ok(cell)
}

fn row_of(alloc: Global, cells: &[&[i32]]) -> Result<Seq<Cell>, AllocError>
    ensures { IfOk result (λ row. length row ≡ length cells.now) }
{
    let mut row = Seq::new(alloc);
    for numbers in cells {
        row.push(cell_of(alloc, numbers)?)?;
    }
    Ok(row)
}

// The row, where it has as many cells as there are columns.
fn rows_of(alloc: Global, cells: &[&[i32]], columns: usize) -> Result<Seq<Seq<Cell>>, AllocError>
    ensures { IfOk result (λ rows. All (λ row. length row ≡ columns) rows) }
{
    let mut rows = Seq::new(alloc);
    if cells.len() != columns {
        return Ok(rows);
    }
    rows.push(row_of(alloc, cells)?)?;
    Ok(rows)
}

fn shown(alloc: Global, names: &[&str], cells: &[&[i32]]) -> Result<Text, AllocError> {
    let columns = columns_of(alloc, names)?;
    let rows = rows_of(alloc, cells, columns.len())?;
    txt(alloc, &columns, &rows)
}

#[test]
fn tables_of_numbers(rt: HostRuntime) -> Result<(), Fail> {
    let text = shown(rt.alloc(), &["a", "b"], &[&[1], &[3]])?;
    assert_eq!(rt; text.as_str(), "a | b\n--+--\n1 | 3\n");
    let text = shown(rt.alloc(), &["a", "b", "a + b"], &[&[5], &[1, 2], &[]])?;
    assert_eq!(rt;
        text.as_str(),
        "a | b      | a + b\n--+--------+------\n5 | [1, 2] | null\n"
    );
    let text = shown(rt.alloc(), &["n", "m", "x", "y"], &[&[], &[1, 2], &[], &[]])?;
    assert_eq!(rt;
        text.as_str(),
        "n    | m      | x    | y\n-----+--------+------+-----\nnull | [1, 2] | null | null\n"
    );
    let text = shown(rt.alloc(), &["a", "a + 1 + 1"], &[&[1, 2], &[]])?;
    assert_eq!(rt;
        text.as_str(),
        "a      | a + 1 + 1\n-------+----------\n[1, 2] | null\n"
    );
    Ok(())
}

#[test]
fn widths_are_in_characters(rt: HostRuntime) -> Result<(), Fail> {
    let text = shown(rt.alloc(), &["é\t", "日"], &[&[1], &[-1]])?;
    assert_eq!(rt; text.as_str(), "é\\t | 日\n----+---\n1   | -1\n");
    let text = shown(rt.alloc(), &["b"], &[])?;
    assert_eq!(rt; text.as_str(), "b\n-\n");
    let text = shown(rt.alloc(), &[], &[])?;
    assert_eq!(rt; text.as_str(), "\n\n\n");
    Ok(())
}

fn sample_columns(alloc: Global) -> Result<Seq<Column>, AllocError>
    ensures { IfOk result (λ columns. length columns ≡ 3) }
{
    let mut columns = Seq::new(alloc);
    let name = Text::from_str(alloc, "a \"b\"")?;
    columns.push(Column {
        name,
        kind: Kind::Keyword,
    })?;
    let name = Text::from_str(alloc, "n")?;
    columns.push(Column {
        name,
        kind: Kind::Integer,
    })?;
    let name = Text::from_str(alloc, "z")?;
    columns.push(Column {
        name,
        kind: Kind::Null,
    })?;
    Ok(columns)
}

fn sample_row(alloc: Global, keyword: &str, numbers: &[i32]) -> Result<Seq<Cell>, AllocError>
    ensures { IfOk result (λ row. length row ≡ 3) }
{
    let mut row = Seq::new(alloc);
    let text = Text::from_str(alloc, keyword)?;
    row.push(Cell::one(alloc, Value::Text(text)))?;
    row.push(cell_of(alloc, numbers)?)?;
    row.push(Cell::null(alloc))?;
    Ok(row)
}

fn sample_rows(alloc: Global, columns: usize) -> Result<Seq<Seq<Cell>>, AllocError>
    requires { columns ≡ 3 }
    ensures { IfOk result (λ rows. All (λ row. length row ≡ columns) rows) }
{
    let mut rows = Seq::new(alloc);
    rows.push(sample_row(alloc, "x,\"y\"\n", &[1, -2])?)?;
    rows.push(sample_row(alloc, "é", &[3])?)?;
    Ok(rows)
}

#[test]
fn three_formats(rt: HostRuntime) -> Result<(), Fail> {
    let alloc = rt.alloc();
    let columns = sample_columns(alloc)?;
    let rows = sample_rows(alloc, columns.len())?;
    assert_eq!(rt;
        txt(alloc, &columns, &rows)?.as_str(),
        "a \"b\"   | n       | z\n--------+---------+-----\nx,\"y\"\\n | [1, -2] | null\né       | 3       | null\n"
    );
    assert_eq!(rt;
        csv(alloc, &columns, &rows)?.as_str(),
        "\"a \"\"b\"\"\",n,z\n\"x,\"\"y\"\"\n\",\"[1, -2]\",\né,3,\n"
    );
    assert_eq!(rt;
        json(alloc, &columns, &rows)?.as_str(),
        "{\"columns\":[{\"name\":\"a \\\"b\\\"\",\"type\":\"keyword\"},{\"name\":\"n\",\"type\":\"integer\"},{\"name\":\"z\",\"type\":\"null\"}],\"values\":[[\"x,\\\"y\\\"\\n\",[1,-2],null],[\"é\",3,null]]}\n"
    );
    Ok(())
}
