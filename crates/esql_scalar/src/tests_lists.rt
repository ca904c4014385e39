use crate::rows::{Shown, given};
use crate::trees::{NODE, call, column, number, one, two};
use esql_plan::Function;
use esql_types::{ColId, Kind};
use std::test::Fail;

#[test]
fn lists_in_the_reversed_order(rt: HostRuntime) -> Result<(), Fail> {
    let alloc = rt.alloc();
    let list = column(Kind::Integer, ColId(0));
    let sorted = call(
        NODE,
        Kind::Integer,
        Function::MvSortDesc,
        None,
        one(alloc, list)?,
    );
    let given = given(alloc, &sorted, &[Shown::Ints(&[3, 1, 3])])?;
    assert!(rt; given.is(Shown::Ints(&[3, 3, 1]), &[]));
    Ok(())
}

#[test]
fn each_value_once(rt: HostRuntime) -> Result<(), Fail> {
    let alloc = rt.alloc();
    let list = column(Kind::Integer, ColId(0));
    let distinct = call(
        NODE,
        Kind::Integer,
        Function::MvDedupe,
        None,
        one(alloc, list)?,
    );
    let given = given(alloc, &distinct, &[Shown::Ints(&[3, 1, 3])])?;
    assert!(rt; given.is(Shown::Ints(&[3, 1]), &[]));
    Ok(())
}

#[test]
fn counts(rt: HostRuntime) -> Result<(), Fail> {
    let alloc = rt.alloc();
    let list = column(Kind::Integer, ColId(0));
    let count = call(
        NODE,
        Kind::Integer,
        Function::MvCount,
        None,
        one(alloc, list)?,
    );
    let cases: [(&[i32], &[i32]); 3] = [(&[3, 1, 3], &[3]), (&[7], &[1]), (&[], &[])];
    for (list, cell) in cases {
        let given = given(alloc, &count, &[Shown::Ints(list)])?;
        assert!(rt; given.is(Shown::Ints(cell), &[]), "{list:?}");
    }
    Ok(())
}

#[test]
fn the_last_but_one(rt: HostRuntime) -> Result<(), Fail> {
    let alloc = rt.alloc();
    let list = column(Kind::Integer, ColId(0));
    let args = two(alloc, list, number(alloc, -2))?;
    let part = call(NODE, Kind::Integer, Function::MvSlice, None, args);
    let cases: [(&[i32], &[i32]); 4] = [
        (&[3, 1, 3], &[1]),
        (&[3, 1], &[3]),
        (&[3], &[]),
        (&[], &[]),
    ];
    for (list, cell) in cases {
        let given = given(alloc, &part, &[Shown::Ints(list)])?;
        assert!(rt; given.is(Shown::Ints(cell), &[]), "{list:?}");
    }
    Ok(())
}

#[test]
fn from_the_last_but_one_to_the_last(rt: HostRuntime) -> Result<(), Fail> {
    let alloc = rt.alloc();
    let list = column(Kind::Integer, ColId(0));
    let mut args = two(alloc, list, number(alloc, -2))?;
    args.push(number(alloc, -1))?;
    let part = call(NODE, Kind::Integer, Function::MvSlice, None, args);
    let given = given(alloc, &part, &[Shown::Ints(&[3, 1, 3])])?;
    assert!(rt; given.is(Shown::Ints(&[1, 3]), &[]));
    Ok(())
}
