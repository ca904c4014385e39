use crate::sort_order;
use esql_plan::PlanKey;
use esql_types::{Cell, ColId, Seq, Value};
use std::alloc::{AllocError, Global};
use std::test::Fail;

fn row(alloc: Global, cells: &[&[i32]]) -> Result<Seq<Cell>, AllocError> {
    let mut row = Seq::new(alloc);
    for numbers in cells {
        row.push(cell(alloc, numbers)?)?;
    }
    Ok(row)
}

fn cell(alloc: Global, numbers: &[i32]) -> Result<Cell, AllocError> {
    let mut cell = Cell::null(alloc);
    for number in numbers {
        cell.push(Value::Int(*number))?;
    }
    Ok(cell)
}

#[test]
fn places_by_two_keys(rt: HostRuntime) -> Result<(), Fail> {
    let alloc = rt.alloc();
    let ascending = PlanKey {
        id: ColId(5),
        descending: false,
        nulls_first: false,
    };
    let descending = PlanKey {
        id: ColId(2),
        descending: true,
        nulls_first: true,
    };
    let mut rows = Vec::new(alloc);
    rows.push(row(alloc, &[&[], &[1]])?)?;
    rows.push(row(alloc, &[&[2, 7], &[3]])?)?;
    rows.push(row(alloc, &[&[2], &[1, 9]])?)?;
    rows.push(row(alloc, &[&[1], &[4]])?)?;
    rows.push(row(alloc, &[&[2], &[3]])?)?;
    rows.push(row(alloc, &[&[2], &[]])?)?;
    let places = sort_order(alloc, rows.as_slice(), &[ascending, descending])?;
    assert_eq!(rt; places.as_slice(), [3, 5, 2, 1, 4, 0].as_slice());
    Ok(())
}
