//! What a kind accepts of JSON.
ghost use Rattle.std.specs.Prelude.{◌≡◌, IfOk};
ghost use Rattle.serde_json.specs.View.{view};
ghost use Rattle.number_rules.specs.Spelled.{spelled_long};
ghost use Rattle.ndjson_load.specs.Accepted.{accepted, long_of, integer_of, boolean_of, keyword_of, spelled_truth, integer_from, truth_text};
ghost use Rattle.std.specs.String.{string_bytes};
ghost use Rattle.std.specs.Prelude.{option_map};

use esql_types::{Kind, Text, Value};
use serde_json::Value as Json;
use std::alloc::{AllocError, Global};

/// The value of a kind that JSON is accepted as, or `None` where the kind does not accept it.
pub(crate) fn accept(alloc: Global, kind: Kind, json: &Json) -> Result<Option<Value>, AllocError>
    ensures { IfOk result (λ value. value ≡ accepted kind (view json.now)) }
{
    match kind {
        Kind::Integer => Ok(integer_in(json).map(Value::Int)),
        Kind::Long => Ok(long_in(json).map(Value::Long)),
        Kind::Boolean => Ok(boolean_in(json).map(Value::Bool)),
        Kind::Keyword => Ok(keyword_in(alloc, json)?.map(Value::Text)),
        Kind::Null => Ok(None),
    }
}

fn integer_in(json: &Json) -> Option<i32>
    ensures { result ≡ integer_of (view json.now) }
{
    let long = long_in(json)?;
    i32::try_from(long).ok()
}

fn long_in(json: &Json) -> Option<i64>
    ensures { result ≡ long_of (view json.now) }
{
    match json {
        Json::Number(number) => number.as_i64(),
        Json::String(text) => spelled(text.as_str()),
        _ => None,
    }
}

fn spelled(text: &str) -> Option<i64>
    ensures { result ≡ spelled_long text.now }
{
    text.parse().ok()
}

pub(crate) fn boolean_in(json: &Json) -> Option<bool>
    ensures { result ≡ boolean_of (view json.now) }
{
    match json {
        Json::Bool(truth) => Some(*truth),
        Json::String(text) => truth_in(text.as_str()),
        _ => None,
    }
}

fn truth_in(text: &str) -> Option<bool>
    ensures { result ≡ spelled_truth text.now }
{
    if text == "true" {
        return Some(true);
    }
    if text == "false" {
        return Some(false);
    }
    None
}

fn keyword_in(alloc: Global, json: &Json) -> Result<Option<Text>, AllocError>
    ensures { IfOk result (λ text. text ≡ keyword_of (view json.now)) }
{
    match json {
        Json::String(text) => Ok(Some(Text::from_str(alloc, text.as_str())?)),
        Json::Number(number) => match number.as_i64() {
            Some(long) => Ok(Some(Text::from_string(long.to_string(alloc)?))),
            None => Ok(None),
        },
        Json::Bool(true) => Ok(Some(Text::from_str(alloc, "true")?)),
        Json::Bool(false) => Ok(Some(Text::from_str(alloc, "false")?)),
        _ => Ok(None),
    }
}
