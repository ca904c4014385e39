//! The groups of the places of a pattern of GROK, and the texts that they take.
ghost use Rattle.std.specs.Prelude.{◌≡◌, ◌++◌, ◌∷◌, [], map, if◌then◌else◌, IfOk, OnOk, option_map, slice_range};
ghost use Rattle.std.specs.List.{filter_map};
ghost use Rattle.esql_types.specs.declared.names.Column.{Column};
ghost use Rattle.regex.specs.Names.{IsIndexOf, span_at};
ghost use Rattle.regex.specs.Strings.{captures_haystack, captures_span, regex_names};
ghost use Rattle.dissect_grok.specs.GrokParts.{group_text, groups_in};
ghost use Rattle.dissect_grok.specs.Groks.{group_name};
ghost use Rattle.dissect_grok.specs.Groups.{index_of};

use crate::expansion::group_name;
use crate::place::Place;
use esql_types::{Column, Seq, Text};
use regex::{Captures, Regex};
use std::alloc::{AllocError, Global};

fn group_of(alloc: Global, regex: &Regex, number: usize) -> Result<Option<usize>, AllocError>
    ensures { IfOk result (λ group. group ≡ index_of (group_name number) (regex_names regex.now)) }
{
    let name = group_name(alloc, number)?;
    Ok(regex.capture_index(name.as_str()))
}

// Adds the group of a place that has a name.
fn add_group(
    alloc: Global,
    groups: &mut Seq<Option<usize>>,
    regex: &Regex,
    number: usize,
    is_named: bool,
) -> Result<(), AllocError>
    ensures { OnOk result (groups.new ≡ groups.old
        ++ (if is_named then index_of (group_name number) (regex_names regex.now) ∷ [] else [])) }
{
    if is_named {
        groups.push(group_of(alloc, regex, number)?)?;
    }
    Ok(())
}

// The groups of the places that have a name.
fn groups_of(
    alloc: Global,
    regex: &Regex,
    places: &[Place],
    name: &str,
) -> Result<Seq<Option<usize>>, AllocError>
    ensures { IfOk result (λ groups. groups ≡ groups_in (regex_names regex.now) places.now name.now) }
{
    let mut groups = Seq::new(alloc);
    for (number, place) in places.iter().enumerate() {
        let is_named = name == place.name.as_str();
        add_group(alloc, &mut groups, regex, number, is_named)?;
    }
    Ok(groups)
}

/// The groups of the places of each column.
pub(crate) fn groups_of_each(
    alloc: Global,
    regex: &Regex,
    places: &[Place],
    columns: &[Column],
) -> Result<Seq<Seq<Option<usize>>>, AllocError>
    ensures { IfOk result (λ groups. groups ≡ map (λ (column : Column). groups_in (regex_names regex.now) places.now column.name) columns.now) }
{
    let mut groups = Seq::new(alloc);
    for column in columns {
        groups.push(groups_of(alloc, regex, places, column.name.as_str())?)?;
    }
    Ok(groups)
}

fn text_of<'h>(captures: &Captures<'_, 'h>, group: Option<usize>) -> Option<&'h str>
    ensures { option_map (λ text. text.now) result ≡ group_text (captures_haystack captures.now) (captures_span captures.now) group }
{
    match group {
        Some(group) => match captures.get(group) {
            Some(found) => Some(found.as_str()),
            None => None,
        },
        None => None,
    }
}

// Adds the text of a group that took part.
fn add_text(
    alloc: Global,
    texts: &mut Seq<Text>,
    captures: &Captures<'_, '_>,
    group: Option<usize>,
) -> Result<(), AllocError>
    ensures { OnOk result (texts.new ≡ texts.old
        ++ filter_map (group_text (captures_haystack captures.now) (captures_span captures.now)) (group ∷ [])) }
{
    if let Some(text) = text_of(captures, group) {
        texts.push(Text::from_str(alloc, text)?)?;
    }
    Ok(())
}

fn texts_of(
    alloc: Global,
    captures: &Captures<'_, '_>,
    groups: &[Option<usize>],
) -> Result<Seq<Text>, AllocError>
    ensures { IfOk result (λ texts. texts ≡ filter_map (group_text (captures_haystack captures.now) (captures_span captures.now)) groups.now) }
{
    let mut texts = Seq::new(alloc);
    for group in groups {
        add_text(alloc, &mut texts, captures, *group)?;
    }
    Ok(texts)
}

/// The texts of the groups that took part, for each column.
pub(crate) fn texts_of_each(
    alloc: Global,
    captures: &Captures<'_, '_>,
    groups: &[Seq<Option<usize>>],
) -> Result<Seq<Seq<Text>>, AllocError>
    ensures { IfOk result (λ lists. lists ≡ map (filter_map (group_text (captures_haystack captures.now) (captures_span captures.now))) groups.now) }
{
    let mut lists = Seq::new(alloc);
    for column in groups {
        lists.push(texts_of(alloc, captures, column.as_slice())?)?;
    }
    Ok(lists)
}
