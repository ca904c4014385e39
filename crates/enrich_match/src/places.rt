ghost use Rattle.std.specs.Prelude.{◌≡◌, ◌<◌, ◌≤◌, List, length, IfOk, OnOk, if◌then◌else◌};
ghost use Rattle.std.specs.List.{flat_map};
ghost use Rattle.esql_types.specs.declared.value.Value.{Value as PlainValue};
ghost use Rattle.plain_functions.specs.Values.{value_same};
ghost use Rattle.enrich_match.specs.Places.{IsEachOnce, gathered, places_after, places_at, with_place};

use crate::key::MatchKey;
use esql_types::{Seq, Value};
use indexmap::IndexMap;
use std::alloc::{AllocError, Global};

/// Keeps a row's place for each of its values. The places of other rows are before it.
pub(crate) fn add_places(
    alloc: Global,
    places: &mut IndexMap<MatchKey, Seq<usize>>,
    key: &[Value],
    place: usize,
) -> Result<(), AllocError>
    ensures { OnOk result ((value : PlainValue) → places_at places.new.entries value ≡ places_after value place key.now (places_at places.old.entries value)) }
{
    for value in key {
        add_place(alloc, places, MatchKey::of(value)?, place)?;
    }
    Ok(())
}

/// Keeps a row's place for a value, once.
fn add_place(
    alloc: Global,
    places: &mut IndexMap<MatchKey, Seq<usize>>,
    key: MatchKey,
    place: usize,
) -> Result<(), AllocError>
    ensures { OnOk result ((value : PlainValue) → places_at places.new.entries value ≡ (if value_same value key then with_place (places_at places.old.entries value) place else places_at places.old.entries value)) }
{
    match places.get_index_of(&key) {
        Some(at) => {
            push_place(&mut places[at], place)?;
            Ok(())
        }
        None => {
            let mut first = Seq::new(alloc);
            push_place(&mut first, place)?;
            places.insert(key, first)?;
            Ok(())
        }
    }
}

/// Adds a place at the end, unless it is the last.
fn push_place(places: &mut Seq<usize>, place: usize) -> Result<(), AllocError>
    ensures { OnOk result (places.new ≡ with_place places.old place) }
{
    match places.as_slice().last() {
        Some(last) if *last == place => Ok(()),
        _ => Ok(places.push(place)?),
    }
}

/// The places of the rows that have one of a cell's values, each once and in order.
pub(crate) fn places_of(
    alloc: Global,
    places: &IndexMap<MatchKey, Seq<usize>>,
    cell: &[Value],
) -> Result<Vec<usize>, AllocError>
    ensures single { IfOk result (λ found. length cell.now ≤ 1 → found.items ≡ gathered places.now.entries cell.now) }
    ensures several { IfOk result (λ found. 1 < length cell.now → IsEachOnce (gathered places.now.entries cell.now) found.items) }
{
    let mut found = gathered(alloc, places, cell)?;
    if cell.len() > 1 {
        put_in_order(&mut found);
    }
    Ok(found)
}

/// The places of each of a cell's values, one after another.
fn gathered(
    alloc: Global,
    places: &IndexMap<MatchKey, Seq<usize>>,
    cell: &[Value],
) -> Result<Vec<usize>, AllocError>
    ensures { IfOk result (λ found. found.items ≡ gathered places.now.entries cell.now) }
{
    let mut found = Vec::new(alloc);
    for value in cell {
        if let Some(these) = places.get(&MatchKey::of(value)?) {
            found.extend_from_slice(these.as_slice())?;
        }
    }
    Ok(found)
}

/// Puts places in order, and leaves each once.
fn put_in_order(places: &mut Vec<usize>)
    ensures { IsEachOnce places.old.items places.new.items }
{
    places.sort_unstable();
    places.dedup();
}
