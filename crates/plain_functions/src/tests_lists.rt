use crate::lists::{append, count, distinct, first, greatest, last, least, slice, sort};
use crate::logic::{and, not, or};
use esql_types::{Cell, Text, Value};
use std::alloc::{AllocError, Global};
use std::test::Fail;

fn longs(alloc: Global, numbers: &[i64]) -> Result<Cell, AllocError> {
    let mut cell = Cell::null(alloc);
    for number in numbers {
        cell.push(Value::Long(*number))?;
    }
    Ok(cell)
}

fn texts(alloc: Global, texts: &[&str]) -> Result<Cell, AllocError> {
    let mut cell = Cell::null(alloc);
    for text in texts {
        cell.push(Value::Text(Text::from_str(alloc, text)?))?;
    }
    Ok(cell)
}

fn truths(alloc: Global, truths: &[bool]) -> Result<Cell, AllocError> {
    let mut cell = Cell::null(alloc);
    for truth in truths {
        cell.push(Value::Bool(*truth))?;
    }
    Ok(cell)
}

fn is_long(value: &Value, number: i64) -> bool {
    matches!(value, Value::Long(long) if *long == number)
}

fn are_longs(values: &[Value], numbers: &[i64]) -> bool {
    values.len() == numbers.len()
        && values
            .iter()
            .zip(numbers)
            .all(|(value, number)| is_long(value, *number))
}

fn found(value: Option<&Value>, number: i64) -> bool {
    match value {
        Some(value) => is_long(value, number),
        None => false,
    }
}

#[test]
fn slices(rt: HostRuntime) -> Result<(), Fail> {
    let cases: [(&[i64], i64, i64, &[i64]); 10] = [
        (&[], 0, 0, &[]),
        (&[7], 0, 0, &[7]),
        (&[1, 2, 3], -9, 0, &[1]),
        (&[3, 1, 3], -2, -2, &[1]),
        (&[3, 1, 3], 2, 1, &[]),
        (&[3, 1, 3], 1, 9, &[1, 3]),
        (&[3, 1, 3], 3, 9, &[]),
        (&[3, 1, 3], i64::MIN, i64::MAX, &[3, 1, 3]),
        (&[3, 1, 3], i64::MAX, i64::MAX, &[]),
        (&[3, 1, 3], 0, i64::MIN, &[]),
    ];
    for (numbers, start, end, expected) in cases {
        let cell = longs(rt.alloc(), numbers)?;
        assert!(rt; are_longs(slice(cell.as_slice(), start, end), expected));
    }
    Ok(())
}

#[test]
fn orders(rt: HostRuntime) -> Result<(), Fail> {
    let cases: [(&[i64], &[i64], &[i64], &[i64]); 4] = [
        (&[], &[], &[], &[]),
        (&[7], &[7], &[7], &[7]),
        (&[3, 1, 3], &[1, 3, 3], &[3, 3, 1], &[3, 1]),
        (&[2, -9, 2, 5], &[-9, 2, 2, 5], &[5, 2, 2, -9], &[2, -9, 5]),
    ];
    for (numbers, ascending, descending, distinct_ones) in cases {
        let cell = longs(rt.alloc(), numbers)?;
        let values = cell.as_slice();
        assert!(rt; are_longs(sort(rt.alloc(), values, false)?.as_slice(), ascending));
        assert!(rt; are_longs(sort(rt.alloc(), values, true)?.as_slice(), descending));
        assert!(rt; are_longs(distinct(rt.alloc(), values)?.as_slice(), distinct_ones));
    }
    Ok(())
}

#[test]
fn single_values(rt: HostRuntime) -> Result<(), Fail> {
    let none: &[Value] = &[];
    assert_eq!(rt; count(none), 0);
    assert!(rt; first(none).is_none());
    assert!(rt; last(none).is_none());
    assert!(rt; least(none).is_none());
    assert!(rt; greatest(none).is_none());

    let cell = longs(rt.alloc(), &[2, -9, 5, 3])?;
    let values = cell.as_slice();
    assert_eq!(rt; count(values), 4);
    assert!(rt; found(first(values), 2));
    assert!(rt; found(last(values), 3));
    assert!(rt; found(least(values), -9));
    assert!(rt; found(greatest(values), 5));
    let more = append(rt.alloc(), values, values)?;
    assert!(rt; are_longs(more.as_slice(), &[2, -9, 5, 3, 2, -9, 5, 3]));
    Ok(())
}

#[test]
fn orders_of_texts_and_truths(rt: HostRuntime) -> Result<(), Fail> {
    let words = texts(rt.alloc(), &["b", "ä", "", "Z"])?;
    let words = words.as_slice();
    assert!(rt; matches!(least(words), Some(Value::Text(text)) if text.as_str() == ""));
    assert!(rt; matches!(greatest(words), Some(Value::Text(text)) if text.as_str() == "ä"));
    let both = truths(rt.alloc(), &[true, false])?;
    let sorted = sort(rt.alloc(), both.as_slice(), false)?;
    assert!(rt; matches!(sorted.at(0), Some(Value::Bool(false))));
    Ok(())
}

#[test]
fn truths_not_known(rt: HostRuntime) -> Result<(), Fail> {
    assert_eq!(rt; and(None, Some(false)), Some(false));
    assert_eq!(rt; and(Some(true), None), None);
    assert_eq!(rt; or(None, Some(true)), Some(true));
    assert_eq!(rt; or(Some(false), None), None);
    assert_eq!(rt; not(None), None);
    assert_eq!(rt; not(Some(true)), Some(false));
    Ok(())
}
