use crate::pieces::{TextBuilder, concat, join, split};
use crate::texts::{
    ends_with, left, length, right, starts_with, substring, substring_from, trim, trim_end,
    trim_start,
};
use esql_types::{Cell, Text, Value};
use std::test::Fail;

fn is_text(cell: &Cell, place: usize, wanted: &str) -> bool {
    matches!(cell.at(place), Some(Value::Text(text)) if text.as_str() == wanted)
}

#[test]
fn parts_by_start_and_count(rt: HostRuntime) -> Result<(), Fail> {
    for (text, start, count, wanted) in [
        ("hello", -3, 2, Ok("ll")),
        ("hello", 9, -1, Err(-1)),
        ("hello", 0, 2, Ok("he")),
        ("hello", -9, 2, Ok("he")),
        ("hello", 6, 2, Ok("")),
        ("hello", 4, 9, Ok("lo")),
        ("hello", 2, 0, Ok("")),
        ("", 1, 1, Ok("")),
        ("a\u{1f600}bc", 3, 2, Ok("bc")),
        ("ab", i64::MIN, i64::MAX, Ok("ab")),
        ("ab", i64::MAX, i64::MIN, Err(i64::MIN)),
    ] {
        assert_eq!(rt; substring(text, start, count), wanted);
    }
    Ok(())
}

#[test]
fn parts_at_the_ends(rt: HostRuntime) -> Result<(), Fail> {
    for (text, count, front, back) in [
        ("a\u{1f600}b", 2, "a\u{1f600}", "\u{1f600}b"),
        ("ab", i64::MIN, "", ""),
        ("ab", 0, "", ""),
        ("ab", i64::MAX, "ab", "ab"),
        ("", 1, "", ""),
    ] {
        assert_eq!(rt; left(text, count), front);
        assert_eq!(rt; right(text, count), back);
    }
    assert_eq!(rt; length("a\u{1f600}\u{1f600}b"), 4);
    assert_eq!(rt; substring_from("hello", -2), "lo");
    assert_eq!(rt; trim("\u{2003} a b\n"), "a b");
    assert_eq!(rt; trim_start(" a "), "a ");
    assert_eq!(rt; trim_end(" a "), " a");
    assert!(rt; starts_with("abc", "ab") && !ends_with("abc", "ab"));
    Ok(())
}

#[test]
fn pieces_of_texts(rt: HostRuntime) -> Result<(), Fail> {
    let pieces = split(rt.alloc(), "a,,b", ",")?;
    assert_eq!(rt; pieces.len(), 3);
    assert!(rt; is_text(&pieces, 0, "a"));
    assert!(rt; is_text(&pieces, 1, ""));
    assert!(rt; is_text(&pieces, 2, "b"));
    let whole = split(rt.alloc(), "a", ", ")?;
    assert!(rt; whole.len() == 1 && is_text(&whole, 0, "a"));
    let joined = join(rt.alloc(), "--", pieces.as_slice())?;
    assert_eq!(rt; joined.as_str(), "a----b");
    let texts = concat(rt.alloc(), &["a", "", "bc"])?;
    assert_eq!(rt; texts.as_str(), "abc");
    let mut builder = TextBuilder::new(rt.alloc());
    builder.push("a")?;
    builder.push("b")?;
    assert_eq!(rt; builder.finish().as_str(), "ab");
    Ok(())
}
