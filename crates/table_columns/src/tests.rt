use super::*;
use esql_types::{Cell, Kind, Value};
use std::test::Fail;

#[test]
fn absent_cells_are_null(rt: HostRuntime) -> Result<(), Fail> {
    // The rows [7, null] and [null, null] and [8, true].
    let kinds = [Kind::Integer, Kind::Boolean];
    let mut table = TableBuilder::new(rt.alloc(), &kinds)?;
    let mut row = Vec::new(rt.alloc());
    row.push(PresentCell {
        column: 0,
        cell: Cell::one(rt.alloc(), Value::Int(7)),
    })?;
    table = table.push_row(row.as_slice())?;
    table = table.push_row(&[])?;
    let mut row = Vec::new(rt.alloc());
    row.push(PresentCell {
        column: 0,
        cell: Cell::one(rt.alloc(), Value::Int(8)),
    })?;
    row.push(PresentCell {
        column: 1,
        cell: Cell::one(rt.alloc(), Value::Bool(true)),
    })?;
    table = table.push_row(row.as_slice())?;
    // The row [null, false], by all of its cells.
    let cells = [
        Cell::null(rt.alloc()),
        Cell::one(rt.alloc(), Value::Bool(false)),
    ];
    table = table.push_cells(&cells)?;
    let table = table.finish()?;
    assert_eq!(rt; table.rows(), 4);
    assert_eq!(rt; table.width(), 2);
    assert!(rt; matches!(table.cell(0, 0)?.at(0), Some(Value::Int(7))));
    assert_eq!(rt; table.cell(0, 1)?.len(), 0);
    assert_eq!(rt; table.cell(1, 0)?.len(), 0);
    assert!(rt; matches!(table.cell(2, 0)?.at(0), Some(Value::Int(8))));
    assert!(rt; matches!(table.cell(2, 1)?.at(0), Some(Value::Bool(true))));
    assert_eq!(rt; table.cell(3, 0)?.len(), 0);
    assert!(rt; matches!(table.cell(3, 1)?.at(0), Some(Value::Bool(false))));
    Ok(())
}
