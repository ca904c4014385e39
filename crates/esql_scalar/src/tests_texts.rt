use crate::rows::{Shown, given, given_by};
use crate::trees::{NODE, call, column, free_pattern, text, three, two, whole_pattern};
use esql_plan::Function;
use esql_types::{ColId, Kind};
use std::test::Fail;

#[test]
fn patterns_of_whole_texts(rt: HostRuntime) -> Result<(), Fail> {
    let alloc = rt.alloc();
    let patterns = whole_pattern(alloc, "[a-z]+[0-9]{2}")?;
    let pattern = text(alloc, "[a-z]+[0-9]{2}")?;
    let args = two(alloc, column(Kind::Keyword, ColId(0)), pattern)?;
    let matched = call(NODE, Kind::Boolean, Function::Rlike, Some(0), args);
    for (text, truth) in [("ab12", true), ("ab123", false), ("", false)] {
        let given = given_by(alloc, &matched, &patterns, &[Shown::Text(text)])?;
        assert!(rt; given.is(Shown::Truth(truth), &[]), "{text}");
    }
    Ok(())
}

#[test]
fn each_match_is_replaced(rt: HostRuntime) -> Result<(), Fail> {
    let alloc = rt.alloc();
    let patterns = free_pattern(alloc, "[0-9]+")?;
    let pattern = text(alloc, "[0-9]+")?;
    let with = column(Kind::Keyword, ColId(1));
    let args = three(alloc, column(Kind::Keyword, ColId(0)), pattern, with)?;
    let replaced = call(NODE, Kind::Keyword, Function::Replace, Some(0), args);
    for (text, with, made) in [("ab12", "#", "ab#"), ("1a22", "$0", "$0a$0"), ("", "#", "")] {
        let row = [Shown::Text(text), Shown::Text(with)];
        let given = given_by(alloc, &replaced, &patterns, &row)?;
        assert!(rt; given.is(Shown::Text(made), &[]), "{text}, {with}");
    }
    Ok(())
}

#[test]
fn wildcards(rt: HostRuntime) -> Result<(), Fail> {
    let alloc = rt.alloc();
    let pattern = text(alloc, "a?1*")?;
    let args = two(alloc, column(Kind::Keyword, ColId(0)), pattern)?;
    let like = call(NODE, Kind::Boolean, Function::Like, None, args);
    for (text, truth) in [("ab12", true), ("a\u{1f600}1", true), ("a12", false)] {
        let given = given(alloc, &like, &[Shown::Text(text)])?;
        assert!(rt; given.is(Shown::Truth(truth), &[]), "{text}");
    }
    Ok(())
}

#[test]
fn parts_by_start_and_length(rt: HostRuntime) -> Result<(), Fail> {
    let alloc = rt.alloc();
    let start = column(Kind::Integer, ColId(1));
    let length = column(Kind::Integer, ColId(2));
    let args = three(alloc, column(Kind::Keyword, ColId(0)), start, length)?;
    let part = call(NODE, Kind::Keyword, Function::Substring, None, args);
    for (text, start, length, made) in [
        ("hello", -3, 2, "ll"),
        ("hello", 0, 2, "he"),
        ("hello", 6, 2, ""),
        ("hello", -2147483648, 2147483647, "hello"),
        ("a\u{1f600}bc", 2, 2, "\u{1f600}b"),
        ("", 1, 1, ""),
    ] {
        let row = [Shown::Text(text), Shown::Int(start), Shown::Int(length)];
        let given = given(alloc, &part, &row)?;
        assert!(rt;
            given.is(Shown::Text(made), &[]),
            "{text}, {start}, {length}"
        );
    }
    Ok(())
}

#[test]
fn parts_that_are_not_given(rt: HostRuntime) -> Result<(), Fail> {
    let alloc = rt.alloc();
    let start = column(Kind::Integer, ColId(0));
    let length = column(Kind::Integer, ColId(1));
    let args = three(alloc, text(alloc, "hello")?, start, length)?;
    let part = call(NODE, Kind::Keyword, Function::Substring, None, args);
    let cases: [(&[i32], &[i32], &[&str]); 4] = [
        (&[2], &[-1], &["length"]),
        (&[2], &[], &[]),
        (&[], &[1, 2], &[]),
        (&[1, 2], &[], &["several"]),
    ];
    for (start, length, words) in cases {
        let given = given(alloc, &part, &[Shown::Ints(start), Shown::Ints(length)])?;
        assert!(rt; given.is(Shown::Ints(&[]), words), "{start:?}, {length:?}");
    }
    Ok(())
}

#[test]
fn pieces(rt: HostRuntime) -> Result<(), Fail> {
    let alloc = rt.alloc();
    let delimiter = column(Kind::Keyword, ColId(1));
    let args = two(alloc, column(Kind::Keyword, ColId(0)), delimiter)?;
    let split = call(NODE, Kind::Keyword, Function::Split, None, args);
    let args = two(alloc, split, text(alloc, "|")?)?;
    let joined = call(NODE, Kind::Keyword, Function::MvConcat, None, args);
    for (text, delimiter, made) in [
        ("a,,b", ",", "a||b"),
        ("", ",", ""),
        (",", ",", "|"),
        ("abc", ", ", "abc"),
        ("aaa", "aa", "|a"),
        ("a\u{1f600}b", "\u{1f600}", "a|b"),
    ] {
        let row = [Shown::Text(text), Shown::Text(delimiter)];
        let given = given(alloc, &joined, &row)?;
        assert!(rt; given.is(Shown::Text(made), &[]), "{text}, {delimiter}");
    }
    Ok(())
}

#[test]
fn a_delimiter_is_not_empty(rt: HostRuntime) -> Result<(), Fail> {
    let alloc = rt.alloc();
    let delimiter = column(Kind::Keyword, ColId(1));
    let args = two(alloc, column(Kind::Keyword, ColId(0)), delimiter)?;
    let split = call(NODE, Kind::Keyword, Function::Split, None, args);
    let given = given(alloc, &split, &[Shown::Text("abc"), Shown::Text("")])?;
    assert!(rt; given.is(Shown::Ints(&[]), &["delimiter"]));
    Ok(())
}
