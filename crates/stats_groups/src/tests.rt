use crate::Groups;
use esql_plan::{AggFunction, Aggregate, GroupColumn};
use esql_types::{Cell, ColId, Failure, NodeId, Seq, Text, Value};
use std::alloc::{AllocError, Global};
use std::test::Fail;

fn longs(alloc: Global, numbers: &[i64]) -> Result<Cell, AllocError> {
    let mut cell = Cell::null(alloc);
    for number in numbers {
        cell.push(Value::Long(*number))?;
    }
    Ok(cell)
}

fn texts(alloc: Global, texts: &[&str]) -> Result<Cell, AllocError> {
    let mut cell = Cell::null(alloc);
    for text in texts {
        cell.push(Value::Text(Text::from_str(alloc, text)?))?;
    }
    Ok(cell)
}

// Aggregates of column 0, in the columns from 0 on.
fn aggregates(alloc: Global, functions: &[AggFunction]) -> Result<Seq<Aggregate>, AllocError> {
    let mut aggregates = Seq::new(alloc);
    let mut to = 0_u32;
    for function in functions {
        aggregates.push(Aggregate {
            node: NodeId(7),
            function: *function,
            input: Some(ColId(0)),
            to: ColId(to),
        })?;
        to = to.saturating_add(1);
    }
    Ok(aggregates)
}

// Columns of these numbers, in the second of those behind each.
fn columns(alloc: Global, numbers: &[u32]) -> Result<Seq<GroupColumn>, AllocError> {
    let mut columns = Seq::new(alloc);
    for number in numbers {
        columns.push(GroupColumn {
            id: ColId(*number),
            to: ColId(number.saturating_add(2)),
        })?;
    }
    Ok(columns)
}

fn push_cell(out: &mut String, cell: &Cell) -> Result<(), AllocError> {
    out.push_str("[")?;
    for value in cell.as_slice() {
        match value {
            Value::Long(number) => write!(out, "{number} ")?,
            Value::Text(text) => write!(out, "{} ", text.as_str())?,
            _ => out.push_str("? ")?,
        }
    }
    out.push_str("]")
}

fn shown(alloc: Global, rows: &[Seq<Cell>]) -> Result<String, AllocError> {
    let mut out = String::new(alloc);
    for row in rows {
        for cell in row.as_slice() {
            push_cell(&mut out, cell)?;
        }
        out.push_str(";")?;
    }
    Ok(out)
}

// ROW k = ["x", "x", "y"], j = null | STATS n = COUNT(*) BY k, j, and then two rows of one key.
#[test]
fn a_row_counts_in_each_of_its_groups(rt: HostRuntime) -> Result<(), Fail> {
    let alloc = rt.alloc();
    let by = columns(alloc, &[0, 1])?;
    let mut groups = Groups::new(alloc, by, aggregates(alloc, &[AggFunction::CountRows])?)?;
    let keys: [&[&str]; 3] = [&["x", "x", "y"], &["y"], &[]];
    for key in keys {
        let mut row = Seq::new(alloc);
        row.push(texts(alloc, key)?)?;
        row.push(Cell::null(alloc))?;
        groups.add_row(row)?;
    }
    let mut failures: Seq<Failure> = Seq::new(alloc);
    let rows = groups.finish(&mut failures)?;
    let given = shown(alloc, rows.as_slice())?;
    assert!(rt;
        given.as_str() == "[1 ][][x ][];[2 ][][y ][];[1 ][][][];",
        "{given}"
    );
    Ok(())
}

#[test]
fn aggregates_of_one_group(rt: HostRuntime) -> Result<(), Fail> {
    let alloc = rt.alloc();
    let functions = [
        AggFunction::CountRows,
        AggFunction::Count,
        AggFunction::CountDistinct,
        AggFunction::Sum,
        AggFunction::Min,
        AggFunction::Max,
        AggFunction::Values,
    ];
    let mut groups = Groups::new(alloc, Seq::new(alloc), aggregates(alloc, &functions)?)?;
    let cells: [&[i64]; 2] = [&[3, 1], &[3, 2]];
    for numbers in cells {
        let mut row = Seq::new(alloc);
        row.push(longs(alloc, numbers)?)?;
        groups.add_row(row)?;
    }
    let mut failures: Seq<Failure> = Seq::new(alloc);
    let rows = groups.finish(&mut failures)?;
    let given = shown(alloc, rows.as_slice())?;
    assert!(rt;
        given.as_str() == "[2 ][4 ][3 ][9 ][1 ][3 ][3 1 2 ];",
        "{given}"
    );
    Ok(())
}
