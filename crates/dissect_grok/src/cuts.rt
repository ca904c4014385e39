//! What the keys of a pattern take of a text.
ghost use Rattle.std.specs.Prelude.{◌≡◌, map, option_map, None, Some, IfOk, MatchOption};
ghost use Rattle.dissect_grok.specs.Cuts as spec;
ghost use Rattle.dissect_grok.specs.Joined.{joined_turns};

use crate::keys::Key;
use crate::texts::{behind_copies, cut_at};
use crate::turns::{Turn, join};
use esql_types::{Seq, Text};
use std::alloc::{AllocError, Global};

// The text that a key takes, and the text that is left.
fn taken_by<'a>(key: &Key, text: &'a str) -> Option<(&'a str, &'a str)>
    ensures { MatchOption result (spec.taken_by key.now text.now ≡ None) (λ parts. spec.taken_by key.now text.now ≡ Some (parts.0.now, parts.1.now)) }
{
    let delimiter = key.delimiter.as_str();
    if delimiter.is_empty() {
        return Some((text, ""));
    }
    let (taken, behind) = cut_at(text, delimiter)?;
    if key.repeats {
        Some((taken, behind_copies(behind, delimiter)))
    } else {
        Some((taken, behind))
    }
}

/// The texts that keys take, one after another, where a text matches them.
pub(crate) fn texts_of<'a>(
    alloc: Global,
    keys: &[Key],
    text: &'a str,
) -> Result<Option<Vec<&'a str>>, AllocError>
    ensures { IfOk result (λ taken. spec.texts_of keys.now text.now ≡ option_map (λ texts. map (λ text. text.now) texts.items) taken) }
{
    let mut texts = Vec::with_capacity(alloc, keys.len())?;
    let mut left = text;
    for key in keys {
        match taken_by(key, left) {
            Some((taken, behind)) => {
                texts.push(taken)?;
                left = behind;
            }
            None => return Ok(None),
        }
    }
    Ok(Some(texts))
}

/// A text for each name, by its turns.
pub(crate) fn join_each(
    alloc: Global,
    separator: &str,
    turns: &[Seq<Turn>],
    texts: &[&str],
) -> Result<Seq<Text>, AllocError>
    ensures { IfOk result (λ cut. cut ≡ map (joined_turns separator.now (map (λ text. text.now) texts.now)) turns.now) }
{
    let mut cut = Seq::new(alloc);
    for name in turns {
        cut.push(join(alloc, separator, name.as_slice(), texts)?)?;
    }
    Ok(cut)
}
