//! What a column takes of a JSON value.
ghost use Rattle.std.specs.Prelude.{◌≡◌, [], ◌∷◌, ◌++◌, Err, Some, IfSome, option_map, alloc_error};
ghost use Rattle.std.specs.Option.{option_copied};
ghost use Rattle.serde_json.specs.Data.{array, object};
ghost use Rattle.serde_json.specs.View.{view, items_view, members_view};
ghost use Rattle.std.specs.String.{string_bytes};
ghost use Rattle.ndjson_load.specs.declared.take.TakeError.TheVariants.{Memory};
ghost use Rattle.ndjson_load.specs.Gathering.{value as plain, explicit_null, gather, gather_items, gather_members, gather_rest, rest_of, after_key};
ghost use Rattle.ndjson_load.specs.Joining.{after};
ghost use Rattle.ndjson_load.specs.Rows.{taken, bad_value};
ghost use Rattle.ndjson_load.specs.Loading.{Takes};

use crate::accept::accept;
use crate::{MappedColumn, RowCause};
use esql_types::{Cell, Kind};
use serde_json::{Map, Value as Json};
use std::alloc::{AllocError, Global};

/// Why a cell was not taken.
#[derive(Clone, Copy, Debug, Drop)]
pub(crate) enum TakeError {
    Bad(RowCause),
    Memory(AllocError),
}

impl From<AllocError> for TakeError {
    ghost from_gives = { λ error result. result ≡ Memory error };

    fn from(error: AllocError) -> TakeError {
        TakeError::Memory(error)
    }
}

/// Adds to a cell what a column takes of a value under a path.
#[cycle(take)]
pub(crate) fn take(
    alloc: Global,
    value: &Json,
    path: &[u8],
    column: &MappedColumn,
    cell: &mut Cell,
) -> Result<(), TakeError>
    ensures { Takes (after cell.old (taken column.now (gather (view value.now) path.now))) result cell.new }
{
    match value {
        Json::Array(items) => take_items(alloc, items, path, column, cell),
        Json::Object(members) => if path.is_empty() {
            Err(TakeError::Bad(RowCause::WantsValue))
        } else {
            take_members(alloc, members, path, column, cell)
        },
        Json::Null => if path.is_empty() {
            take_null(column, cell)
        } else {
            Ok(())
        },
        Json::Bool(_) | Json::Number(_) | Json::String(_) => if path.is_empty() {
            take_value(alloc, value, column, cell)
        } else {
            Err(TakeError::Bad(RowCause::WantsObject))
        },
    }
}

#[cycle(take)]
fn take_items(
    alloc: Global,
    items: &Vec<Json>,
    path: &[u8],
    column: &MappedColumn,
    cell: &mut Cell,
) -> Result<(), TakeError>
    ensures { Takes (after cell.old (taken column.now (gather_items (items_view items.now.items) path.now))) result cell.new }
{
    for item in items {
        take(alloc, item, path, column, cell)?;
    }
    Ok(())
}

#[cycle(take)]
fn take_members(
    alloc: Global,
    members: &Map<String, Json>,
    path: &[u8],
    column: &MappedColumn,
    cell: &mut Cell,
) -> Result<(), TakeError>
    ensures { Takes (after cell.old (taken column.now (gather_members (members_view members.now.entries) path.now))) result cell.new }
{
    for (key, member) in members.iter() {
        take_member(alloc, member, key.as_bytes(), path, column, cell)?;
    }
    Ok(())
}

#[cycle(take)]
fn take_member(
    alloc: Global,
    member: &Json,
    key: &[u8],
    path: &[u8],
    column: &MappedColumn,
    cell: &mut Cell,
) -> Result<(), TakeError>
    ensures { Takes (after cell.old (taken column.now (gather_rest (view member.now) (rest_of key.now path.now)))) result cell.new }
{
    match rest_of(key, path) {
        None => Ok(()),
        Some(rest) => take(alloc, member, rest, column, cell),
    }
}

/// The rest of a path after a key that is the path or is followed in it by a dot.
fn rest_of<'a>(key: &[u8], path: &'a [u8]) -> Option<&'a [u8]>
    ensures { option_map (λ rest. rest.now) result ≡ rest_of key.now path.now }
{
    if !path.starts_with(key) {
        return None;
    }
    let (_, back) = path.split_at(key.len());
    match back {
        [] => Some(back),
        [b'.', rest @ ..] => Some(rest),
        _ => None,
    }
}

fn take_null(column: &MappedColumn, cell: &mut Cell) -> Result<(), TakeError>
    ensures { Takes (after cell.old (taken column.now (explicit_null ∷ []))) result cell.new }
{
    match &column.null_value {
        None => Ok(()),
        Some(value) => {
            cell.push(value.copy()?)?;
            Ok(())
        }
    }
}

fn take_value(
    alloc: Global,
    value: &Json,
    column: &MappedColumn,
    cell: &mut Cell,
) -> Result<(), TakeError>
    ensures { Takes (after cell.old (taken column.now (plain (view value.now) ∷ []))) result cell.new }
{
    let kind = column.column.kind;
    match accept(alloc, kind, value)? {
        Some(accepted) => {
            cell.push(accepted)?;
            Ok(())
        }
        None => if column.ignore_malformed {
            Ok(())
        } else {
            Err(TakeError::Bad(bad_value(kind)))
        },
    }
}

fn bad_value(kind: Kind) -> RowCause
    ensures { result ≡ bad_value kind }
{
    match kind {
        Kind::Integer | Kind::Long => RowCause::BadNumber,
        Kind::Boolean => RowCause::BadBoolean,
        Kind::Keyword | Kind::Null => RowCause::BadText,
    }
}
