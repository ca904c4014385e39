//! The keys of a pattern.
ghost use Rattle.std.specs.Prelude.{◌≡◌, None, Some, MatchOption, option_map};
ghost use Rattle.dissect_grok.specs.Patterns as spec;
ghost use Rattle.dissect_grok.specs.Parts.{part_in};

use crate::error::DissectError;
use crate::texts::{before_back, behind_front, cut_at};
use esql_types::{Seq, Text};
use std::alloc::Global;

/// What becomes of the text that a key takes.
#[derive(Debug, Drop)]
pub(crate) enum Form {
    Skipped,
    /// The text of the name alone.
    Named(Text),
    /// One of the texts of the name, with the number by which they are ordered.
    Appended(Text, u32),
}

/// A key, with the literal behind it, which is empty at most behind the last.
#[derive(Debug, Drop)]
pub(crate) struct Key {
    pub(crate) form: Form,
    /// Whether further copies of the delimiter are passed.
    pub(crate) repeats: bool,
    pub(crate) delimiter: Text,
}

/// A key as it is written, and the pattern behind the `%{` of the next.
#[derive(Clone, Copy)]
struct Part<'a> {
    text: &'a str,
    delimiter: &'a str,
    rest: Option<&'a str>,
}

fn is_sign(byte: u8) -> bool
    ensures { result ≡ spec.is_sign byte }
{
    byte == b'+' || byte == b'?' || byte == b'*' || byte == b'&'
}

fn begins_with_sign(text: &str) -> bool
    ensures { result ≡ spec.begins_with_sign text.now }
{
    match text.as_bytes() {
        [first, ..] => is_sign(*first),
        [] => false,
    }
}

fn has_slash(text: &str) -> bool
    ensures { result ≡ spec.has_slash text.now }
{
    text.as_bytes().contains(&b'/')
}

fn is_plain(text: &str) -> bool
    ensures { result ≡ spec.is_plain text.now }
{
    !begins_with_sign(text) && !has_slash(text)
}

fn is_name(text: &str) -> bool
    ensures { result ≡ spec.is_name text.now }
{
    !text.is_empty() && is_plain(text)
}

// The number of 32 bits that decimal digits spell; `parse` takes a plus, and digits have none.
fn number_of(text: &str) -> Option<u32>
    ensures { result ≡ spec.number_of text.now }
{
    if text.starts_with('+') {
        return None;
    }
    text.parse::<u32>().ok()
}

// A key with `+` of a name and a number, where they are one.
fn appended_form(alloc: Global, name: &str, order: Option<u32>) -> Result<Form, DissectError>
    ensures { spec.IsRead (spec.appended_form name.now order) result }
{
    match order {
        Some(order) if is_name(name) => Ok(Form::Appended(Text::from_str(alloc, name)?, order)),
        _ => Err(DissectError::Bad),
    }
}

// `+name` or `+name/n`, behind the `+`.
fn appended_of(alloc: Global, text: &str) -> Result<Form, DissectError>
    ensures { spec.IsRead (spec.appended_of text.now) result }
{
    match cut_at(text, "/") {
        Some((name, digits)) => appended_form(alloc, name, number_of(digits)),
        None => appended_form(alloc, text, Some(0)),
    }
}

// An empty key, or a name.
fn unsigned_form(alloc: Global, text: &str) -> Result<Form, DissectError>
    ensures { spec.IsRead (spec.unsigned_form text.now) result }
{
    if text.is_empty() {
        Ok(Form::Skipped)
    } else if is_name(text) {
        Ok(Form::Named(Text::from_str(alloc, text)?))
    } else {
        Err(DissectError::Bad)
    }
}

fn skipped_form(name: &str) -> Result<Form, DissectError>
    ensures { spec.IsRead (spec.form_if (spec.is_plain name.now) Form.Skipped) result }
{
    if is_plain(name) {
        Ok(Form::Skipped)
    } else {
        Err(DissectError::Bad)
    }
}

fn form_of(alloc: Global, text: &str) -> Result<Form, DissectError>
    ensures { spec.IsRead (spec.form_of text.now) result }
{
    if let Some(name) = behind_front(text, "?") {
        return skipped_form(name);
    }
    match behind_front(text, "+") {
        Some(rest) => appended_of(alloc, rest),
        None => unsigned_form(alloc, text),
    }
}

fn key_with(alloc: Global, text: &str, repeats: bool, delimiter: &str) -> Result<Key, DissectError>
    ensures { spec.IsRead (option_map (spec.key_with repeats delimiter.now) (spec.form_of text.now)) result }
{
    let form = form_of(alloc, text)?;
    let delimiter = Text::from_str(alloc, delimiter)?;
    Ok(Key {
        form,
        repeats,
        delimiter,
    })
}

fn key_of(alloc: Global, text: &str, delimiter: &str) -> Result<Key, DissectError>
    ensures { spec.IsRead (spec.key_of text.now delimiter.now) result }
{
    match before_back(text, "->") {
        Some(front) => key_with(alloc, front, true, delimiter),
        None => key_with(alloc, text, false, delimiter),
    }
}

// The part behind `%{`, which the first `}` ends; a delimiter before the next `%{` is not empty.
fn first_part(text: &str) -> Option<Part<'_>>
    ensures { MatchOption result (spec.first_part text.now ≡ None) (λ part. spec.first_part text.now ≡ Some (part_in part)) }
{
    let (text, behind) = cut_at(text, "}")?;
    match cut_at(behind, "%{") {
        Some((delimiter, _)) if delimiter.is_empty() => None,
        Some((delimiter, rest)) => Some(Part {
            text,
            delimiter,
            rest: Some(rest),
        }),
        None => Some(Part {
            text,
            delimiter: behind,
            rest: None,
        }),
    }
}

/// The keys behind the first `%{` of a pattern.
pub(crate) fn keys_of(alloc: Global, text: &str) -> Result<Seq<Key>, DissectError>
    ensures { spec.IsRead (spec.keys_of text.now) result }
{
    let mut keys = Seq::new(alloc);
    let mut behind = text;
    while let Some(part) = first_part(behind) {
        keys.push(key_of(alloc, part.text, part.delimiter)?)?;
        match part.rest {
            Some(rest) => behind = rest,
            None => return Ok(keys),
        }
    }
    Err(DissectError::Bad)
}
