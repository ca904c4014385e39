use crate::order::{first_rows, sort_rows};
use esql_plan::PlanKey;
use esql_types::{Cell, ColId, Seq, Value};
use std::alloc::{AllocError, Global};
use std::test::Fail;

fn cell(alloc: Global, numbers: &[i32]) -> Result<Cell, AllocError> {
    let mut cell = Cell::null(alloc);
    for number in numbers {
        cell.push(Value::Int(*number))?;
    }
    Ok(cell)
}

// Rows of one cell each.
fn rows(alloc: Global, cells: &[&[i32]]) -> Result<Seq<Seq<Cell>>, AllocError> {
    let mut rows = Seq::new(alloc);
    for numbers in cells {
        let mut row = Seq::new(alloc);
        row.push(cell(alloc, numbers)?)?;
        rows.push(row)?;
    }
    Ok(rows)
}

fn shown(alloc: Global, rows: &[Seq<Cell>]) -> Result<String, AllocError> {
    let mut out = String::new(alloc);
    for row in rows {
        for cell in row.as_slice() {
            push_cell(&mut out, cell)?;
        }
    }
    Ok(out)
}

fn push_cell(out: &mut String, cell: &Cell) -> Result<(), AllocError> {
    out.push_str("[")?;
    for value in cell.as_slice() {
        match value {
            Value::Int(number) => write!(out, "{number} ")?,
            _ => out.push_str("? ")?,
        }
    }
    out.push_str("]")
}

#[test]
fn rows_in_order(rt: HostRuntime) -> Result<(), Fail> {
    let alloc = rt.alloc();
    let cells: [&[i32]; 5] = [&[2], &[], &[5, 1], &[3], &[1]];
    let cases = [
        (false, false, 9, "[5 1 ][1 ][2 ][3 ][]"),
        (false, true, 2, "[][5 1 ]"),
        (true, false, 9, "[5 1 ][3 ][2 ][1 ][]"),
        (true, true, 3, "[][5 1 ][3 ]"),
    ];
    for (descending, nulls_first, count, wanted) in cases {
        let key = PlanKey {
            id: ColId(0),
            descending,
            nulls_first,
        };
        let sorted = sort_rows(&[key], rows(alloc, &cells)?)?;
        let first = first_rows(sorted, count);
        let given = shown(alloc, first.as_slice())?;
        assert!(rt; given.as_str() == wanted, "{given}");
    }
    Ok(())
}
