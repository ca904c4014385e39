ghost use Rattle.std.specs.Prelude.{◌≡◌, ◌≤◌, Err, IfOk, None, Some, option_map};
ghost use Rattle.esql_types.specs.Counts.{Rose};
ghost use Rattle.esql_types.specs.Patterns.{IsReadable, IsReading, IsUnreadable};
ghost use Rattle.regex.specs.Strings.{regex_source};
ghost use Rattle.dissect_grok.specs.GrokParts.{read_in};
ghost use Rattle.dissect_grok.specs.Groks.{GrokRead, grok_columns, grok_of, grok_takes};

use crate::columns::{are_good, columns_of};
use crate::error::GrokError;
use crate::expansion::{Expansion, expansion_of};
use crate::groups::{groups_of_each, texts_of_each};
use crate::place::Place;
use esql_types::{Column, Maker, PatternError, Seq, Text};
use regex::Regex;
use std::alloc::{AllocError, Global};
use std::marker::Model;

/// A pattern of GROK, which contracts see as what it is read as: the regular expression that it stands for, and its places.
#[derive(Drop)]
pub struct Grok {
    regex: Regex,
    places: Seq<Place>,
    columns: Seq<Column>,
    groups: Seq<Seq<Option<usize>>>,
}

impl Model for Grok {
    ghost use Rattle.dissect_grok.specs.Groks.{GrokRead};
    ghost use Rattle.dissect_grok.specs.GrokHeld.{grok_in, HoldsGroups};

    ghost Value = { GrokRead };

    ghost view = { grok_in };

    ghost invariant = { HoldsGroups };
}

// What is read of a pattern that is not bad.
fn good_read(alloc: Global, pattern: &str) -> Result<Option<Expansion>, AllocError>
    ensures { IfOk result (λ read. option_map read_in read ≡ grok_of pattern.now) }
{
    let Some(read) = expansion_of(alloc, pattern)? else {
        return Ok(None);
    };
    if are_good(alloc, read.places.as_slice())? {
        Ok(Some(read))
    } else {
        Ok(None)
    }
}

fn grok_with(alloc: Global, regex: Regex, places: Seq<Place>) -> Result<Grok, AllocError>
    requires { IsReading (regex_source regex) regex }
    ensures expansion { IfOk result (λ grok. grok.expansion ≡ regex_source regex) }
    ensures places { IfOk result (λ grok. grok.places ≡ places) }
{
    let columns = columns_of(alloc, places.as_slice())?;
    let groups = groups_of_each(alloc, &regex, places.as_slice(), columns.as_slice())?;
    Ok(Grok {
        regex,
        places,
        columns,
        groups,
    })
}

impl Grok {
    /// Reads a pattern; the maker is called at most once, for the regular expression that it stands for.
    ///
    /// Refused: a bad pattern; one whose expression is not readable; one whose expression is too large, where the maker counted
    /// a refusal and noted the expression; and want of memory.
    pub fn read<M: Maker>(alloc: Global, maker: &mut M, pattern: &str) -> Result<Grok, GrokError>
        ensures read { IfOk result (λ grok. grok_of pattern.now ≡ Some grok) }
        ensures bad { result ≡ Err GrokError.Bad → grok_of pattern.now ≡ None }
        ensures readable { IfOk result (λ grok. IsReadable grok.expansion) }
        ensures not_read { result ≡ Err GrokError.NotRead
            → (read : GrokRead) × (grok_of pattern.now ≡ Some read) × IsUnreadable read.expansion }
        ensures rose { result ≡ Err GrokError.TooLarge → Rose (M.refused maker.old) (M.refused maker.new) }
        ensures noted { result ≡ Err GrokError.TooLarge
            → (read : GrokRead) × (grok_of pattern.now ≡ Some read) × (M.last maker.new ≡ read.expansion) }
        ensures count { M.refused maker.old ≤ M.refused maker.new }
        ensures kept { (result ≡ Err GrokError.TooLarge → ⊥) → M.last maker.new ≡ M.last maker.old }
        ensures uncounted { (result ≡ Err GrokError.TooLarge → ⊥) → M.refused maker.new ≡ M.refused maker.old }
    {
        let read = match good_read(alloc, pattern) {
            Ok(Some(read)) => read,
            Ok(None) => return Err(GrokError::Bad),
            Err(error) => return Err(GrokError::Memory(error)),
        };
        let regex = match maker.build(alloc, read.text.as_str()) {
            Ok(regex) => regex,
            Err(PatternError::NotRead) => return Err(GrokError::NotRead),
            Err(PatternError::TooLarge) => return Err(GrokError::TooLarge),
            Err(PatternError::Memory(error)) => return Err(GrokError::Memory(error)),
        };
        match grok_with(alloc, regex, read.places) {
            Ok(grok) => Ok(grok),
            Err(error) => Err(GrokError::Memory(error)),
        }
    }

    /// The columns, each name once, by its first place in the pattern.
    pub fn columns(&self) -> &Seq<Column>
        ensures { result.now ≡ grok_columns self.now }
    {
        &self.columns
    }

    /// The texts for each column, or `None` exactly where the text has no match. The error is want of memory.
    pub fn take(&self, alloc: Global, text: &str) -> Result<Option<Seq<Seq<Text>>>, AllocError>
        ensures { IfOk result (λ taken. taken ≡ grok_takes self.now text.now) }
    {
        let mut matcher = self.regex.matcher(alloc)?;
        match matcher.captures(text) {
            Some(captures) => {
                let lists = texts_of_each(alloc, &captures, self.groups.as_slice())?;
                Ok(Some(lists))
            }
            None => Ok(None),
        }
    }
}
