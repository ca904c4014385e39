//! Texts of a document, one or several.
ghost use Rattle.std.specs.Prelude.{◌≡◌, not, IfOk, option_and_then};
ghost use Rattle.std.specs.List.{list_all};
ghost use Rattle.serde_json.specs.Find.{as_str};
ghost use Rattle.serde_json.specs.View.{view, items_view};
ghost use Rattle.policy_json.specs.Policies.{at_least_one, has_hash, names_of, texts_in, texts_of};

use esql_types::{Seq, Text};
use serde_json::Value as Json;
use std::alloc::{AllocError, Global};

/// The names of tables that a value is: texts without `#`.
pub(crate) fn names_of(alloc: Global, value: &Json) -> Result<Option<Seq<Text>>, AllocError>
    ensures { IfOk result (λ names. names ≡ names_of (view value.now)) }
{
    let Some(names) = texts_of(alloc, value)? else {
        return Ok(None);
    };
    if are_without_hash(names.as_slice()) {
        Ok(Some(names))
    } else {
        Ok(None)
    }
}

/// The texts that a value is: one, or an array of at least one.
pub(crate) fn texts_of(alloc: Global, value: &Json) -> Result<Option<Seq<Text>>, AllocError>
    ensures { IfOk result (λ texts. texts ≡ texts_of (view value.now)) }
{
    match value {
        Json::String(text) => {
            let mut texts = Seq::new(alloc);
            texts.push(Text::from_str(alloc, text.as_str())?)?;
            Ok(Some(texts))
        }
        Json::Array(items) => some_texts(alloc, items),
        _ => Ok(None),
    }
}

/// The text that a value is.
pub(crate) fn text_of(alloc: Global, value: &Json) -> Result<Option<Text>, AllocError>
    ensures { IfOk result (λ text. text ≡ as_str (view value.now)) }
{
    match value {
        Json::String(text) => Ok(Some(Text::from_str(alloc, text.as_str())?)),
        _ => Ok(None),
    }
}

fn some_texts(alloc: Global, items: &Vec<Json>) -> Result<Option<Seq<Text>>, AllocError>
    ensures { IfOk result (λ texts. texts ≡ option_and_then at_least_one (texts_in (items_view items.now.items))) }
{
    match texts_in(alloc, items)? {
        None => Ok(None),
        Some(texts) => Ok(at_least_one(texts)),
    }
}

fn at_least_one(texts: Seq<Text>) -> Option<Seq<Text>>
    ensures { result ≡ at_least_one texts }
{
    if texts.len() == 0 { None } else { Some(texts) }
}

fn texts_in(alloc: Global, items: &Vec<Json>) -> Result<Option<Seq<Text>>, AllocError>
    ensures { IfOk result (λ texts. texts ≡ texts_in (items_view items.now.items)) }
{
    let mut texts = Seq::new(alloc);
    for item in items {
        let Json::String(text) = item else {
            return Ok(None);
        };
        texts.push(Text::from_str(alloc, text.as_str())?)?;
    }
    Ok(Some(texts))
}

fn are_without_hash(names: &[Text]) -> bool
    ensures { result ≡ list_all (λ name. not (has_hash name)) names.now }
{
    names.iter().all(|name| !has_hash(name.as_str()))
}

fn has_hash(text: &str) -> bool
    ensures { result ≡ has_hash text.now }
{
    text.as_bytes().contains(&b'#')
}
