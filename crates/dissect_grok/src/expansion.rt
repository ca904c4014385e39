//! Patterns of GROK, written out.
ghost use Rattle.std.specs.Prelude.{◌≡◌, ◌++◌, None, Some, IfOk, OnOk, option_map, if◌then◌else◌};
ghost use Rattle.std.specs.String.{string_bytes};
ghost use Rattle.dissect_grok.specs.Groks as spec;
ghost use Rattle.dissect_grok.specs.GrokParts.{place_in, read_in};
ghost use Rattle.dissect_grok.specs.Library.{unnamed_group};

use crate::library::written_out;
use crate::place::Place;
use crate::reference::{Named, reference_of};
use crate::texts::cut_at;
use esql_types::{Seq, Text};
use std::alloc::{AllocError, Global};

/// What is read of a pattern so far.
#[derive(Drop)]
pub(crate) struct Expansion {
    pub(crate) text: String,
    pub(crate) places: Seq<Place>,
}

fn add_unnamed(text: &mut String, expression: &str) -> Result<(), AllocError>
    ensures { OnOk result (string_bytes text.new ≡ string_bytes text.old ++ unnamed_group expression.now) }
{
    text.push_str("(?:")?;
    text.push_str(expression)?;
    text.push_str(")")
}

/// The name of the group of a place.
pub(crate) fn group_name(alloc: Global, number: usize) -> Result<String, AllocError>
    ensures { IfOk result (λ name. string_bytes name ≡ spec.group_name number) }
{
    format!(in alloc; "f{number}")
}

fn add_named(
    alloc: Global,
    text: &mut String,
    number: usize,
    expression: &str,
) -> Result<(), AllocError>
    ensures { OnOk result (string_bytes text.new ≡ string_bytes text.old ++ spec.named_group number expression.now) }
{
    let name = group_name(alloc, number)?;
    text.push_str("(?P<")?;
    text.push_str(name.as_str())?;
    text.push_str(">")?;
    text.push_str(expression)?;
    text.push_str(")")
}

impl Expansion {
    fn add_group(
        &mut self,
        alloc: Global,
        place: Option<Named<'_>>,
        expression: &str,
    ) -> Result<(), AllocError>
        ensures { OnOk result (read_in self.new ≡ spec.with_group (read_in self.old) (option_map place_in place.entry) expression.now) }
    {
        match place {
            Some(place) => {
                let name = Text::from_str(alloc, place.name)?;
                add_named(alloc, &mut self.text, self.places.len(), expression)?;
                self.places.push(Place {
                    name,
                    kind: place.kind,
                })
            }
            None => add_unnamed(&mut self.text, expression),
        }
    }

    // Adds the group of a reference; answers whether it is one.
    fn add_reference(&mut self, alloc: Global, text: &str) -> Result<bool, AllocError>
        ensures { IfOk result (λ added. spec.with_reference (read_in self.old) (spec.reference_of text.now)
            ≡ (if added then Some (read_in self.new) else None)) }
    {
        let Some(reference) = reference_of(text) else {
            return Ok(false);
        };
        let Some(expression) = written_out(reference.syntax) else {
            return Ok(false);
        };
        self.add_group(alloc, reference.place, expression)?;
        Ok(true)
    }
}

/// A pattern written out, or `None` where it has something that begins as a reference and is none.
pub(crate) fn expansion_of(alloc: Global, pattern: &str) -> Result<Option<Expansion>, AllocError>
    ensures { IfOk result (λ read. option_map read_in read ≡ spec.read_from spec.nothing_read pattern.now) }
{
    let mut read = Expansion {
        text: String::new(alloc),
        places: Seq::new(alloc),
    };
    let mut left = pattern;
    while let Some((literal, behind)) = cut_at(left, "%{") {
        read.text.push_str(literal)?;
        let Some((reference, rest)) = cut_at(behind, "}") else {
            return Ok(None);
        };
        if !read.add_reference(alloc, reference)? {
            return Ok(None);
        }
        left = rest;
    }
    read.text.push_str(left)?;
    Ok(Some(read))
}
