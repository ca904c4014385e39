use crate::cuts::{join_each, texts_of};
use crate::error::DissectError;
use crate::keys::{Key, keys_of};
use crate::names::{have_name_twice, names_of};
use crate::texts::{behind_front, cut_at};
use crate::turns::{Turn, turns_of_each};
use esql_types::{Seq, Text};
use std::alloc::{AllocError, Global};
use std::marker::Model;

/// A pattern of DISSECT, which contracts see as its first literal, its keys, and the separator of the texts of one name.
#[derive(Debug, Drop)]
pub struct Dissect {
    first: Text,
    keys: Seq<Key>,
    separator: Text,
    names: Seq<Text>,
    turns: Seq<Seq<Turn>>,
}

impl Model for Dissect {
    ghost use Rattle.dissect_grok.specs.Patterns.{Reading};

    ghost Value = { Reading };

    ghost use Rattle.dissect_grok.specs.Dissects.{reading_in, HoldsNames};

    ghost view = { reading_in };

    ghost invariant = { HoldsNames };
}

impl Dissect {
    ghost use Rattle.std.specs.Prelude.{◌≡◌, IfOk};
    ghost use Rattle.dissect_grok.specs.Patterns.{IsRead, names_of, reading_of};
    ghost use Rattle.dissect_grok.specs.Cuts.{cut_of};

    /// Reads a pattern. `Bad` is exactly what is no pattern; the other error is want of memory.
    pub fn read(alloc: Global, pattern: &str, separator: &str) -> Result<Dissect, DissectError>
        ensures { IsRead (reading_of pattern.now separator.now) result }
    {
        let Some((first, behind)) = cut_at(pattern, "%{") else {
            return Err(DissectError::Bad);
        };
        let keys = keys_of(alloc, behind)?;
        let names = names_of(alloc, keys.as_slice())?;
        if names.len() == 0 || have_name_twice(alloc, keys.as_slice())? {
            return Err(DissectError::Bad);
        }
        let turns = turns_of_each(alloc, names.as_slice(), keys.as_slice())?;
        Ok(Dissect {
            first: Text::from_str(alloc, first)?,
            keys,
            separator: Text::from_str(alloc, separator)?,
            names,
            turns,
        })
    }

    /// The names of the columns, each once, by its first place in the pattern.
    pub fn names(&self) -> &Seq<Text>
        ensures { result.now ≡ names_of self.now.keys }
    {
        &self.names
    }

    /// A text for each name, or `None` exactly where the text does not match. The error is want of memory.
    pub fn cut(&self, alloc: Global, text: &str) -> Result<Option<Seq<Text>>, AllocError>
        ensures { IfOk result (λ cut. cut ≡ cut_of self.now text.now) }
    {
        let Some(rest) = behind_front(text, self.first.as_str()) else {
            return Ok(None);
        };
        match texts_of(alloc, self.keys.as_slice(), rest)? {
            Some(texts) => {
                let separator = self.separator.as_str();
                let cut = join_each(alloc, separator, self.turns.as_slice(), &texts)?;
                Ok(Some(cut))
            }
            None => Ok(None),
        }
    }
}
