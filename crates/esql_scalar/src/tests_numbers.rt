use crate::rows::{Shown, given};
use crate::trees::{NODE, call, column, number, one, two};
use esql_plan::Function;
use esql_types::{Cause, ColId, Kind, Value};
use std::test::Fail;

#[test]
fn sums(rt: HostRuntime) -> Result<(), Fail> {
    let alloc = rt.alloc();
    let left = column(Kind::Integer, ColId(0));
    let right = column(Kind::Integer, ColId(1));
    let sum = call(
        NODE,
        Kind::Integer,
        Function::Add,
        None,
        two(alloc, left, right)?,
    );
    let cases: [(&[i32], &[i32], &[i32], &[&str]); 10] = [
        (&[1], &[2], &[3], &[]),
        (&[1], &[1, 2], &[], &["several"]),
        (&[1, 2], &[3, 4], &[], &["several"]),
        (&[], &[1, 2], &[], &[]),
        (&[1, 2], &[], &[], &["several"]),
        (&[], &[], &[], &[]),
        (&[2147483647], &[1], &[], &["integer"]),
        (&[2147483647], &[0], &[2147483647], &[]),
        (&[-2147483648], &[-1], &[], &["integer"]),
        (&[-2147483648], &[2147483647], &[-1], &[]),
    ];
    for (left, right, cell, words) in cases {
        let given = given(alloc, &sum, &[Shown::Ints(left), Shown::Ints(right)])?;
        assert!(rt; given.is(Shown::Ints(cell), words), "{left:?} + {right:?}");
    }
    Ok(())
}

#[test]
fn quotients(rt: HostRuntime) -> Result<(), Fail> {
    let alloc = rt.alloc();
    let left = column(Kind::Integer, ColId(0));
    let right = column(Kind::Integer, ColId(1));
    let quotient = call(
        NODE,
        Kind::Integer,
        Function::Div,
        None,
        two(alloc, left, right)?,
    );
    let cases: [(&[i32], &[i32], &[i32], &[&str]); 5] = [
        (&[-7], &[2], &[-3], &[]),
        (&[-2147483648], &[-1], &[], &["integer"]),
        (&[-2147483648], &[0], &[], &["zero"]),
        (&[0], &[0], &[], &["zero"]),
        (&[], &[0], &[], &[]),
    ];
    for (left, right, cell, words) in cases {
        let given = given(alloc, &quotient, &[Shown::Ints(left), Shown::Ints(right)])?;
        assert!(rt; given.is(Shown::Ints(cell), words), "{left:?} / {right:?}");
    }
    Ok(())
}

#[test]
fn remainders(rt: HostRuntime) -> Result<(), Fail> {
    let alloc = rt.alloc();
    let left = column(Kind::Integer, ColId(0));
    let right = column(Kind::Integer, ColId(1));
    let remainder = call(
        NODE,
        Kind::Integer,
        Function::Mod,
        None,
        two(alloc, left, right)?,
    );
    let cases: [(&[i32], &[i32], &[i32], &[&str]); 4] = [
        (&[-7], &[2], &[-1], &[]),
        (&[-2147483648], &[-1], &[0], &[]),
        (&[-2147483648], &[0], &[], &["zero"]),
        (&[7, 8], &[0], &[], &["several"]),
    ];
    for (left, right, cell, words) in cases {
        let given = given(alloc, &remainder, &[Shown::Ints(left), Shown::Ints(right)])?;
        assert!(rt; given.is(Shown::Ints(cell), words), "{left:?} % {right:?}");
    }
    Ok(())
}

#[test]
fn an_integer_is_widened(rt: HostRuntime) -> Result<(), Fail> {
    let alloc = rt.alloc();
    let long = call(
        NODE,
        Kind::Long,
        Function::ToLong,
        None,
        one(alloc, number(alloc, 1))?,
    );
    let args = two(alloc, number(alloc, 2147483647), long)?;
    let sum = call(NODE, Kind::Long, Function::Add, None, args);
    let given = given(alloc, &sum, &[])?;
    assert!(rt; matches!(given.cell.as_slice(), [Value::Long(2147483648)]));
    assert_eq!(rt; given.failures.len(), 0);
    Ok(())
}

#[test]
fn texts_that_spell_numbers(rt: HostRuntime) -> Result<(), Fail> {
    let alloc = rt.alloc();
    let text = column(Kind::Keyword, ColId(0));
    let parsed = call(
        NODE,
        Kind::Integer,
        Function::ToInteger,
        None,
        one(alloc, text)?,
    );
    let cases: [(&[&str], &[i32], &[&str]); 10] = [
        (&["7"], &[7], &[]),
        (&["+7"], &[7], &[]),
        (&["-0"], &[0], &[]),
        (&["a01"], &[], &["text"]),
        (&[""], &[], &["text"]),
        (&["-"], &[], &["text"]),
        (&["-2147483648"], &[-2147483648], &[]),
        (&["2147483648"], &[], &["text"]),
        (&["1", "x", "3", ""], &[1, 3], &["text", "text"]),
        (&[], &[], &[]),
    ];
    for (texts, cell, words) in cases {
        let given = given(alloc, &parsed, &[Shown::Texts(texts)])?;
        assert!(rt; given.is(Shown::Ints(cell), words), "{texts:?}");
    }
    Ok(())
}

#[test]
fn a_text_that_spells_none_is_told(rt: HostRuntime) -> Result<(), Fail> {
    let alloc = rt.alloc();
    let text = column(Kind::Keyword, ColId(0));
    let parsed = call(
        NODE,
        Kind::Integer,
        Function::ToInteger,
        None,
        one(alloc, text)?,
    );
    let given = given(alloc, &parsed, &[Shown::Texts(&["a01"])])?;
    let cause = given.failures.at(0).map(|failure| &failure.cause);
    assert!(rt; matches!(cause, Some(Cause::CannotParse { text }) if text.as_str() == "a01"));
    Ok(())
}
