//! A value walked once, for all the columns that it reaches.
ghost use Rattle.std.specs.Prelude.{◌≡◌, ◌≤◌, ◌<◌, ◌++◌, [], ◌∷◌, length, OnOk};
ghost use Rattle.serde_json.specs.View.{view, items_view, members_view};
ghost use Rattle.std.specs.String.{string_bytes};
ghost use Rattle.ndjson_load.specs.Gathering.{gather, gather_items, gather_members, gather_rest, rest_of};
ghost use Rattle.ndjson_load.specs.Spreading.{AreOpen, AreRange, IsPlace, Spreads, at_key, nothing, under_key};

use crate::reach::{Reach, ending, goes_on, key_place, may_go_under, under};
use crate::take::{TakeError, take};
use crate::{MappedColumn, RowCause};
use esql_types::Cell;
use serde_json::{Map, Value as Json};
use std::alloc::Global;

/// Adds to the cells of a range of columns what each takes of a value, if none takes a bad one.
#[cycle(spread)]
pub(crate) fn spread(
    alloc: Global,
    value: &Json,
    reach: Reach,
    columns: &[MappedColumn],
    cells: &mut [Cell],
) -> Result<(), TakeError>
    requires range { AreRange columns.now reach.depth reach.low reach.high }
    requires wide { length cells.old ≡ length columns.now }
    ensures { OnOk result (Spreads columns.now reach.depth reach.low reach.high (gather (view value.now)) nothing cells.old cells.new) }
{
    if goes_on(columns, reach) {
        return spread_open(alloc, value, reach, columns, cells);
    }
    let low = reach.low;
    take(alloc, value, &[], &columns[low], &mut cells[low])?;
    let open = Reach {
        low: low + 1,
        ..reach
    };
    spread_open(alloc, value, open, columns, cells)
}

/// The same where no name ends here.
#[cycle(spread)]
fn spread_open(
    alloc: Global,
    value: &Json,
    reach: Reach,
    columns: &[MappedColumn],
    cells: &mut [Cell],
) -> Result<(), TakeError>
    requires range { AreRange columns.now reach.depth reach.low reach.high }
    requires open { AreOpen columns.now reach.depth reach.low reach.high }
    requires wide { length cells.old ≡ length columns.now }
    ensures { OnOk result (Spreads columns.now reach.depth reach.low reach.high (gather (view value.now)) nothing cells.old cells.new) }
{
    match value {
        Json::Array(items) => spread_items(alloc, items, reach, columns, cells),
        Json::Object(members) => spread_members(alloc, members, reach, columns, cells),
        Json::Null => Ok(()),
        Json::Bool(_) | Json::Number(_) | Json::String(_) => if reach.low < reach.high {
            Err(TakeError::Bad(RowCause::WantsObject))
        } else {
            Ok(())
        },
    }
}

#[cycle(spread)]
fn spread_items(
    alloc: Global,
    items: &Vec<Json>,
    reach: Reach,
    columns: &[MappedColumn],
    cells: &mut [Cell],
) -> Result<(), TakeError>
    requires range { AreRange columns.now reach.depth reach.low reach.high }
    requires open { AreOpen columns.now reach.depth reach.low reach.high }
    requires wide { length cells.old ≡ length columns.now }
    ensures { OnOk result (Spreads columns.now reach.depth reach.low reach.high (gather_items (items_view items.now.items)) nothing cells.old cells.new) }
{
    for item in items {
        spread_open(alloc, item, reach, columns, cells)?;
    }
    Ok(())
}

#[cycle(spread)]
fn spread_members(
    alloc: Global,
    members: &Map<String, Json>,
    reach: Reach,
    columns: &[MappedColumn],
    cells: &mut [Cell],
) -> Result<(), TakeError>
    requires range { AreRange columns.now reach.depth reach.low reach.high }
    requires wide { length cells.old ≡ length columns.now }
    ensures { OnOk result (Spreads columns.now reach.depth reach.low reach.high (gather_members (members_view members.now.entries)) nothing cells.old cells.new) }
{
    for (key, member) in members.iter() {
        spread_member(alloc, member, key.as_bytes(), reach, columns, cells)?;
    }
    Ok(())
}

#[cycle(spread)]
fn spread_member(
    alloc: Global,
    member: &Json,
    key: &[u8],
    reach: Reach,
    columns: &[MappedColumn],
    cells: &mut [Cell],
) -> Result<(), TakeError>
    requires range { AreRange columns.now reach.depth reach.low reach.high }
    requires wide { length cells.old ≡ length columns.now }
    ensures { OnOk result (Spreads columns.now reach.depth reach.low reach.high (λ path. gather_rest (view member.now) (rest_of key.now path)) nothing cells.old cells.new) }
{
    let place = key_place(columns, reach, key);
    take_ending(alloc, member, key, place, reach, columns, cells)?;
    if may_go_under(columns, reach, key, place) {
        spread_under(alloc, member, key, reach, columns, cells)
    } else {
        Ok(())
    }
}

/// Adds what the column takes of whose name the key of a member is left.
fn take_ending(
    alloc: Global,
    member: &Json,
    key: &[u8],
    place: usize,
    reach: Reach,
    columns: &[MappedColumn],
    cells: &mut [Cell],
) -> Result<(), TakeError>
    requires range { AreRange columns.now reach.depth reach.low reach.high }
    requires place { IsPlace columns.now reach.depth reach.low reach.high key.now place }
    requires wide { length cells.old ≡ length columns.now }
    ensures { OnOk result (Spreads columns.now reach.depth reach.low reach.high (at_key key.now (gather (view member.now))) nothing cells.old cells.new) }
{
    match ending(columns, reach, key, place) {
        None => Ok(()),
        Some(place) => take(alloc, member, &[], &columns[place], &mut cells[place]),
    }
}

/// Adds what the columns take whose names go on under the key of a member.
#[cycle(spread)]
fn spread_under(
    alloc: Global,
    member: &Json,
    key: &[u8],
    reach: Reach,
    columns: &[MappedColumn],
    cells: &mut [Cell],
) -> Result<(), TakeError>
    requires range { AreRange columns.now reach.depth reach.low reach.high }
    requires wide { length cells.old ≡ length columns.now }
    ensures { OnOk result (Spreads columns.now reach.depth reach.low reach.high (under_key key.now (gather (view member.now))) nothing cells.old cells.new) }
{
    match under(columns, reach, key) {
        None => Ok(()),
        Some(deeper) => spread(alloc, member, deeper, columns, cells),
    }
}
