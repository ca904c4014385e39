//! The properties of a mapping, and those in them.
ghost use Rattle.std.specs.Prelude.{◌≡◌, ◌∷◌, [], ◌++◌, IfOk};
ghost use Rattle.std.specs.String.{string_bytes};
ghost use Rattle.serde_json.specs.View.{view, members_view};
ghost use Rattle.ndjson_load.specs.Joining.{after};
ghost use Rattle.ndjson_load.specs.Mappings.{Gives, columns_of, property_columns, inner_columns};

use crate::leaf::{add_leaf, is_branch, wants_object};
use crate::{MappedColumn, MappingError};
use serde_json::{Map, Value as Json};
use std::alloc::{AllocError, Global};

/// Adds the columns of properties, in byte order of their keys, with a prefix before their names.
#[cycle(walk)]
pub(crate) fn walk_properties(
    alloc: Global,
    properties: &Map<String, Json>,
    prefix: &str,
    found: &mut Vec<MappedColumn>,
) -> Result<(), MappingError>
    ensures { Gives (after found.old.items (columns_of prefix.now (members_view properties.now.entries))) result found.new.items }
{
    for (key, property) in properties.iter() {
        let path = joined(alloc, prefix, key.as_str())?;
        walk_property(alloc, property, path.as_str(), found)?;
    }
    Ok(())
}

#[cycle(walk)]
fn walk_property(
    alloc: Global,
    property: &Json,
    path: &str,
    found: &mut Vec<MappedColumn>,
) -> Result<(), MappingError>
    ensures { Gives (after found.old.items (property_columns path.now (view property.now))) result found.new.items }
{
    let Json::Object(members) = property else {
        return Err(wants_object(alloc, path));
    };
    if !is_branch(property) {
        return add_leaf(alloc, property, path, found);
    }
    match members.get("properties") {
        None => Ok(()),
        Some(inner) => walk_inner(alloc, inner, path, found),
    }
}

#[cycle(walk)]
fn walk_inner(
    alloc: Global,
    inner: &Json,
    path: &str,
    found: &mut Vec<MappedColumn>,
) -> Result<(), MappingError>
    ensures { Gives (after found.old.items (inner_columns path.now (view inner.now))) result found.new.items }
{
    let Json::Object(properties) = inner else {
        return Err(wants_object(alloc, path));
    };
    let prefix = joined(alloc, path, ".")?;
    walk_properties(alloc, properties, prefix.as_str(), found)
}

fn joined(alloc: Global, front: &str, back: &str) -> Result<String, AllocError>
    ensures { IfOk result (λ text. string_bytes text ≡ front.now ++ back.now) }
{
    let mut text = String::from_str(alloc, front)?;
    text.push_str(back)?;
    Ok(text)
}
