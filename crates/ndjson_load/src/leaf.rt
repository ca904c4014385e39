//! The column of one property of a mapping.
ghost use Rattle.std.specs.Prelude.{◌≡◌, Ok, IfOk, IfErr, OnOk};
ghost use Rattle.serde_json.specs.View.{view};
ghost use Rattle.ndjson_load.specs.Joining.{after};
ghost use Rattle.ndjson_load.specs.Mappings.{Gives, IfBad, kind_of_type, may_ignore, ignores_of, null_of, null_from, column_from, typed_column, leaf_of, is_branch};
ghost use Rattle.ndjson_load.specs.declared.cause.MappingCause.TheVariants.{BadParameter, WantsText, WantsObject};

use crate::accept::{accept, boolean_in};
use crate::{MappedColumn, MappingCause, MappingError};
use esql_types::{Column, Kind, Text, Value};
use serde_json::Value as Json;
use std::alloc::{AllocError, Global};

/// A property is a branch where its type is `object` or not there.
pub(crate) fn is_branch(property: &Json) -> bool
    ensures { result ≡ is_branch (view property.now) }
{
    match property.get("type") {
        None => true,
        Some(Json::String(name)) => name.as_str() == "object",
        Some(_) => false,
    }
}

/// Adds the column of a property that is no branch, if its type gives one.
pub(crate) fn add_leaf(
    alloc: Global,
    property: &Json,
    path: &str,
    found: &mut Vec<MappedColumn>,
) -> Result<(), MappingError>
    ensures { Gives (after found.old.items (leaf_of path.now (view property.now))) result found.new.items }
{
    match property.get("type") {
        Some(Json::String(name)) => add_typed(alloc, property, name.as_str(), path, found),
        _ => Err(wants_text(alloc, path)),
    }
}

fn add_typed(
    alloc: Global,
    property: &Json,
    name: &str,
    path: &str,
    found: &mut Vec<MappedColumn>,
) -> Result<(), MappingError>
    ensures { Gives (after found.old.items (typed_column path.now name.now (kind_of_type name.now) (view property.now))) result found.new.items }
{
    match kind_of_type(name) {
        None => Ok(()),
        Some(kind) => add_column(alloc, property, name, kind, path, found),
    }
}

fn add_column(
    alloc: Global,
    property: &Json,
    name: &str,
    kind: Kind,
    path: &str,
    found: &mut Vec<MappedColumn>,
) -> Result<(), MappingError>
    ensures { Gives (after found.old.items (column_from path.now kind (ignores_of kind (view property.now)) (null_of name.now kind (view property.now)))) result found.new.items }
{
    let Some(ignore_malformed) = ignores_in(property, kind) else {
        return Err(bad_parameter(alloc, path));
    };
    let Some(null_value) = null_in(alloc, property, name, kind)? else {
        return Err(bad_parameter(alloc, path));
    };
    let name = Text::from_str(alloc, path)?;
    let column = Column { name, kind };
    found.push(MappedColumn {
        column,
        ignore_malformed,
        null_value,
    })?;
    Ok(())
}

fn kind_of_type(name: &str) -> Option<Kind>
    ensures { result ≡ kind_of_type name.now }
{
    match name {
        "integer" | "short" | "byte" => Some(Kind::Integer),
        "long" => Some(Kind::Long),
        "boolean" => Some(Kind::Boolean),
        "keyword" | "text" => Some(Kind::Keyword),
        _ => None,
    }
}

fn ignores_in(property: &Json, kind: Kind) -> Option<bool>
    ensures { result ≡ ignores_of kind (view property.now) }
{
    if matches!(kind, Kind::Keyword | Kind::Null) {
        return Some(false);
    }
    match property.get("ignore_malformed") {
        None => Some(false),
        Some(flag) => boolean_in(flag),
    }
}

fn null_in(
    alloc: Global,
    property: &Json,
    name: &str,
    kind: Kind,
) -> Result<Option<Option<Value>>, AllocError>
    ensures { IfOk result (λ null. null ≡ null_of name.now kind (view property.now)) }
{
    if name == "text" {
        return Ok(Some(None));
    }
    match property.get("null_value") {
        None | Some(Json::Null) => Ok(Some(None)),
        Some(Json::Array(_) | Json::Object(_)) => Ok(None),
        Some(json) => Ok(accept(alloc, kind, json)?.map(Some)),
    }
}

pub(crate) fn wants_object(alloc: Global, path: &str) -> MappingError
    ensures { IfBad result (λ cause. cause ≡ WantsObject path.now) }
{
    match Text::from_str(alloc, path) {
        Ok(path) => MappingError::Bad {
            cause: MappingCause::WantsObject { path },
        },
        Err(error) => MappingError::Memory(error),
    }
}

fn wants_text(alloc: Global, path: &str) -> MappingError
    ensures { IfBad result (λ cause. cause ≡ WantsText path.now) }
{
    match Text::from_str(alloc, path) {
        Ok(path) => MappingError::Bad {
            cause: MappingCause::WantsText { path },
        },
        Err(error) => MappingError::Memory(error),
    }
}

fn bad_parameter(alloc: Global, path: &str) -> MappingError
    ensures { IfBad result (λ cause. cause ≡ BadParameter path.now) }
{
    match Text::from_str(alloc, path) {
        Ok(path) => MappingError::Bad {
            cause: MappingCause::BadParameter { path },
        },
        Err(error) => MappingError::Memory(error),
    }
}
