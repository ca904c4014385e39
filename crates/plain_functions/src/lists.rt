//! The functions on lists of values, in the sense of the multivalue functions of the ES|QL language reference. A list
//! without values stands for null.

ghost use Rattle.std.specs.Prelude.{◌≡◌, ◌≢◌, ◌++◌, pos, length, map, IfNone, IfOk, IfSome, OnOk};
ghost use Rattle.std.specs.Option.{option_copied, option_to_list};
ghost use Rattle.std.specs.Bool.{Decides};
ghost use Rattle.std.specs.List.{Any};
ghost use Rattle.esql_types.specs.Values.{kind_of_value, value_cmp};
ghost use Rattle.esql_types.specs.declared.value.Kind.TheVariants.{Integer, Long as LongKind};
ghost use Rattle.esql_types.specs.declared.value.Value.{Value as PlainValue};
ghost use Rattle.esql_types.specs.declared.value.Value.TheVariants.{Int, Long};
ghost use Rattle.function_rules.specs.Lists.{count_of, distinct_of, first_of, greatest_of, last_of, least_of, place_of, slice_of, sorted_by};
ghost use Rattle.plain_functions.specs.Values.{directed_cmp, value_same};

use crate::value_key::ValueKey;
use esql_types::{Cell, Value, compare_values};
use std::alloc::{AllocError, Global};
use std::cmp::Ordering;
use std::collections::BTreeSet;

/// MV_COUNT: how many values there are, at most 2147483647. Takes no memory.
pub fn count(values: &[Value]) -> i32
    ensures { result ≡ pos (count_of values.now) }
{
    i32::try_from(values.len()).unwrap_or(i32::MAX)
}

/// MV_FIRST: the first value, or `None` of no values. Takes no memory.
pub fn first(values: &[Value]) -> Option<&Value>
    ensures { option_to_list (option_copied result) ≡ first_of values.now }
{
    values.first()
}

/// MV_LAST: the last value, or `None` of no values. Takes no memory.
pub fn last(values: &[Value]) -> Option<&Value>
    ensures { option_to_list (option_copied result) ≡ last_of values.now }
{
    values.last()
}

/// MV_MIN: the least value, or `None` of no values. Takes no memory.
pub fn least(values: &[Value]) -> Option<&Value>
    ensures { option_to_list (option_copied result) ≡ least_of value_cmp values.now }
{
    let (mut best, others) = values.split_first()?;
    for value in others {
        if compare_values(value, best) == Ordering::Less {
            best = value;
        }
    }
    Some(best)
}

/// MV_MAX: the greatest value, or `None` of no values. Takes no memory.
pub fn greatest(values: &[Value]) -> Option<&Value>
    ensures { option_to_list (option_copied result) ≡ greatest_of value_cmp values.now }
{
    let (mut best, others) = values.split_first()?;
    for value in others {
        if compare_values(value, best) == Ordering::Greater {
            best = value;
        }
    }
    Some(best)
}

/// MV_DEDUPE: each value once, by its first place.
pub fn distinct(alloc: Global, values: &[Value]) -> Result<Cell, AllocError>
    ensures { IfOk result (λ cell. cell ≡ distinct_of value_same values.now) }
{
    let mut cell = Cell::null(alloc);
    let mut seen = BTreeSet::new(alloc);
    for value in values {
        if seen.insert(ValueKey::new(value))? {
            cell.push(value.copy()?)?;
        }
    }
    Ok(cell)
}

/// MV_SORT: the values in their order, or where `descending` in the reversed order.
pub fn sort(alloc: Global, values: &[Value], descending: bool) -> Result<Cell, AllocError>
    ensures { IfOk result (λ cell. cell ≡ sorted_by (directed_cmp descending) values.now) }
{
    // The values of a cell are of one kind, so the first tells how all are sorted.
    match values.first() {
        Some(Value::Long(_)) => sort_longs(alloc, values, descending),
        Some(Value::Int(_)) => sort_integers(alloc, values, descending),
        _ => sort_values(alloc, values, descending),
    }
}

fn sort_values(alloc: Global, values: &[Value], descending: bool) -> Result<Cell, AllocError>
    ensures { IfOk result (λ cell. cell ≡ sorted_by (directed_cmp descending) values.now) }
{
    let mut sorted = copies(alloc, values)?;
    sorted.sort_unstable_by(
        |left: &Value, right: &Value| -> Ordering
            ensures { result ≡ directed_cmp descending left.now right.now }
        { compare_directed(descending, left, right) },
    );
    cell_of(alloc, sorted)
}

/// Sorts as numbers the values that are all longs.
fn sort_longs(alloc: Global, values: &[Value], descending: bool) -> Result<Cell, AllocError>
    ensures { IfOk result (λ cell. cell ≡ sorted_by (directed_cmp descending) values.now) }
{
    let Some(mut numbers) = longs_in(alloc, values)? else {
        return sort_values(alloc, values, descending);
    };
    numbers.sort_unstable();
    if descending {
        numbers.reverse();
    }
    cell_of_longs(alloc, &numbers)
}

/// The numbers of values that are all longs, or `None` where one is not.
fn longs_in(alloc: Global, values: &[Value]) -> Result<Option<Vec<i64>>, AllocError>
    ensures some { IfOk result (λ found. IfSome found (λ numbers. map Long numbers.items ≡ values.now)) }
    ensures none { IfOk result (λ found. IfNone found (Any (λ value. kind_of_value value ≢ LongKind) values.now)) }
{
    let mut numbers = Vec::with_capacity(alloc, values.len())?;
    for value in values {
        let Value::Long(number) = value else {
            return Ok(None);
        };
        numbers.push(*number)?;
    }
    Ok(Some(numbers))
}

fn cell_of_longs(alloc: Global, numbers: &[i64]) -> Result<Cell, AllocError>
    ensures { IfOk result (λ cell. cell ≡ map Long numbers.now) }
{
    let mut cell = Cell::null(alloc);
    for number in numbers {
        cell.push(Value::Long(*number))?;
    }
    Ok(cell)
}

/// Sorts as numbers the values that are all integers.
fn sort_integers(alloc: Global, values: &[Value], descending: bool) -> Result<Cell, AllocError>
    ensures { IfOk result (λ cell. cell ≡ sorted_by (directed_cmp descending) values.now) }
{
    let Some(mut numbers) = integers_in(alloc, values)? else {
        return sort_values(alloc, values, descending);
    };
    numbers.sort_unstable();
    if descending {
        numbers.reverse();
    }
    cell_of_integers(alloc, &numbers)
}

/// The numbers of values that are all integers, or `None` where one is not.
fn integers_in(alloc: Global, values: &[Value]) -> Result<Option<Vec<i32>>, AllocError>
    ensures some { IfOk result (λ found. IfSome found (λ numbers. map Int numbers.items ≡ values.now)) }
    ensures none { IfOk result (λ found. IfNone found (Any (λ value. kind_of_value value ≢ Integer) values.now)) }
{
    let mut numbers = Vec::with_capacity(alloc, values.len())?;
    for value in values {
        let Value::Int(number) = value else {
            return Ok(None);
        };
        numbers.push(*number)?;
    }
    Ok(Some(numbers))
}

fn cell_of_integers(alloc: Global, numbers: &[i32]) -> Result<Cell, AllocError>
    ensures { IfOk result (λ cell. cell ≡ map Int numbers.now) }
{
    let mut cell = Cell::null(alloc);
    for number in numbers {
        cell.push(Value::Int(*number))?;
    }
    Ok(cell)
}

fn compare_directed(descending: bool, left: &Value, right: &Value) -> Ordering
    ensures { result ≡ directed_cmp descending left.now right.now }
{
    if descending {
        compare_values(right, left)
    } else {
        compare_values(left, right)
    }
}

fn copies(alloc: Global, values: &[Value]) -> Result<Vec<Value>, AllocError>
    ensures { IfOk result (λ copies. copies.items ≡ values.now) }
{
    let mut copies = Vec::with_capacity(alloc, values.len())?;
    for value in values {
        copies.push(value.copy()?)?;
    }
    Ok(copies)
}

fn cell_of(alloc: Global, values: Vec<Value>) -> Result<Cell, AllocError>
    ensures { IfOk result (λ cell. cell ≡ values.items) }
{
    let mut cell = Cell::null(alloc);
    for value in values {
        cell.push(value)?;
    }
    Ok(cell)
}

/// MV_SLICE: the values from the place `start` to the place `end`, those that are there. Places count from 0, and those
/// below 0 count from the end. Takes no memory.
pub fn slice(values: &[Value], start: i64, end: i64) -> &[Value]
    ensures { result.now ≡ slice_of values.now start end }
{
    let Ok(end) = usize::try_from(place_in(values, end)) else {
        return &[];
    };
    let front = values.get(..=end).unwrap_or(values);
    let start = usize::try_from(place_in(values, start)).unwrap_or(0);
    front.get(start..).unwrap_or(&[])
}

/// A place counted from the start, which may be below 0.
fn place_in(values: &[Value], place: i64) -> i64
    ensures { result ≡ place_of place (length values.now) }
{
    if place < 0 {
        place + values.len() as i64
    } else {
        place
    }
}

/// Adds copies of values at the end of a cell.
fn push_copies(cell: &mut Cell, values: &[Value]) -> Result<(), AllocError>
    ensures { OnOk result (cell.new ≡ cell.old ++ values.now) }
{
    for value in values {
        cell.push(value.copy()?)?;
    }
    Ok(())
}

/// MV_APPEND: the values of the left list, then those of the right one.
pub fn append(alloc: Global, left: &[Value], right: &[Value]) -> Result<Cell, AllocError>
    ensures { IfOk result (λ cell. cell ≡ left.now ++ right.now) }
{
    let mut cell = Cell::null(alloc);
    push_copies(&mut cell, left)?;
    push_copies(&mut cell, right)?;
    Ok(cell)
}

/// A law: two values are the same exactly where they are equal.
pub fn same_values_are_equal()
    ensures { (left right : PlainValue) → Decides (value_same left right) (left ≡ right) }
{}
