//! Mappings: which columns a table has.
ghost use Rattle.std.specs.Prelude.{◌≡◌, [], ◌++◌, None, Ok, IfOk, IfErr, option_map, All};
ghost use Rattle.ndjson_load.specs.Shapes.{IsLoadable, NamesRise};
ghost use Rattle.std.specs.Ordering.{nat_cmp};
ghost use Rattle.std.specs.Cmp.Lexicographic.{slice_cmp};
ghost use Rattle.serde_json.specs.View.{view, members_view};
ghost use Rattle.ndjson_load.specs.Mappings.{IsMapping, IsMappingFault, IsTwice, AreOrdered, IfBad, Gives, found_columns, first_twice, begins_with_name, properties_of, properties_under, mappings_under, only_member};

use crate::document::read_document;
use crate::walk::walk_properties;
use crate::{MappedColumn, MappingCause, MappingError};
use esql_types::Seq;
use serde_json::{Map, Value as Json};
use std::alloc::Global;
use std::cmp::Ordering;

/// The columns of a mapping, in byte order of their names, which are the names of the properties with dots between them.
///
/// The document is an object with the member `mappings`, or of one member with such an object, as the server answers it. Of
/// the causes the one that comes first is named: `NotJson`, `NoMappings`, then those of the properties in byte order of
/// their keys, a property before those in it, and `Twice` for the least name where there is no other.
pub fn read_mapping(alloc: Global, bytes: &[u8]) -> Result<Seq<MappedColumn>, MappingError>
    ensures ok { IfOk result (IsMapping bytes.now) }
    ensures loadable { IfOk result (All IsLoadable) }
    ensures rise { IfOk result NamesRise }
    ensures bad { IfErr result (λ error. IfBad error (IsMappingFault bytes.now)) }
{
    let found = find_columns(alloc, bytes)?;
    in_order(found)
}

/// The columns that a mapping names, as they are found.
fn find_columns(alloc: Global, bytes: &[u8]) -> Result<Vec<MappedColumn>, MappingError>
    ensures ok { IfOk result (λ found. found_columns bytes.now ≡ Ok found.items) }
    ensures bad { IfErr result (λ error. IfBad error (λ cause. found_columns bytes.now ≡ Err cause)) }
{
    let Some(document) = read_document(alloc, bytes)? else {
        return Err(MappingError::Bad {
            cause: MappingCause::NotJson,
        });
    };
    let Some(properties) = properties_in(&document) else {
        return Err(MappingError::Bad {
            cause: MappingCause::NoMappings,
        });
    };
    let mut found = Vec::new(alloc);
    walk_properties(alloc, properties, "", &mut found)?;
    Ok(found)
}

/// The columns in byte order of their names, which differ.
fn in_order(mut found: Vec<MappedColumn>) -> Result<Seq<MappedColumn>, MappingError>
    ensures ok { IfOk result (λ columns. AreOrdered found.items columns × (first_twice columns ≡ None)) }
    ensures twice { IfErr result (λ error. IfBad error (IsTwice found.items)) }
{
    sort_by_name(&mut found);
    match find_twice(found.as_slice()) {
        None => Ok(Seq::from_vec(found)),
        Some(column) => {
            let path = column.column.name.copy()?;
            Err(MappingError::Bad {
                cause: MappingCause::Twice { path },
            })
        }
    }
}

fn sort_by_name(columns: &mut Vec<MappedColumn>)
    ensures { AreOrdered columns.old.items columns.new.items }
{
    columns.sort_unstable_by(|left, right| compare_names(left, right));
}

pub(crate) fn compare_names(left: &MappedColumn, right: &MappedColumn) -> Ordering
    ensures { result ≡ slice_cmp nat_cmp left.now.column.name right.now.column.name }
{
    left.column.name.as_str().cmp(right.column.name.as_str())
}

/// The first column that has the name of the next.
fn find_twice(columns: &[MappedColumn]) -> Option<&MappedColumn>
    ensures { option_map (λ column. column.now.column.name) result ≡ first_twice columns.now }
{
    let mut rest = columns;
    'pairs: while let [column, tail @ ..] = rest {
        if begins_with_name(tail, column.column.name.as_str()) {
            return Some(column);
        }
        rest = tail;
    }
    None
}

fn begins_with_name(columns: &[MappedColumn], name: &str) -> bool
    ensures { result ≡ begins_with_name name.now columns.now }
{
    match columns {
        [] => false,
        [column, ..] => column.column.name.as_str() == name,
    }
}

fn properties_in(document: &Json) -> Option<&Map<String, Json>>
    ensures { option_map (λ m. members_view m.now.entries) result ≡ properties_of (view document.now) }
{
    let Json::Object(members) = document else {
        return None;
    };
    match document.get("mappings") {
        Some(mappings) => properties_under(mappings),
        None => mappings_under(only_member(members)?),
    }
}

fn properties_under(mappings: &Json) -> Option<&Map<String, Json>>
    ensures { option_map (λ m. members_view m.now.entries) result ≡ properties_under (view mappings.now) }
{
    mappings.get("properties")?.as_object()
}

fn mappings_under(value: &Json) -> Option<&Map<String, Json>>
    ensures { option_map (λ m. members_view m.now.entries) result ≡ mappings_under (view value.now) }
{
    properties_under(value.get("mappings")?)
}

fn only_member(members: &Map<String, Json>) -> Option<&Json>
    ensures { option_map (λ member. view member.now) result ≡ only_member (members_view members.now.entries) }
{
    let mut values = members.values();
    let first = values.next()?;
    match values.next() {
        None => Some(first),
        Some(_) => None,
    }
}
