//! The names of a pattern's keys.
ghost use Rattle.std.specs.Prelude.{◌≡◌, ◌||◌, is_some, List, ℕ, IfOk, MatchOption, None, OnOk, Some};
ghost use Rattle.dissect_grok.specs.Patterns as spec;
ghost use Rattle.dissect_grok.specs.Numbered.{AreDistinct, IsIndex, is_noted, number_at};

use crate::index::{Index, add_name};
use crate::keys::{Form, Key};
use esql_types::{Seq, Text};
use std::alloc::{AllocError, Global};
use std::collections::BTreeMap;

/// The name of a key that is not skipped.
pub(crate) fn name_in(form: &Form) -> Option<&str>
    ensures { MatchOption result (spec.name_in form.now ≡ None) (λ name. spec.name_in form.now ≡ Some name.now) }
{
    match form {
        Form::Skipped => None,
        Form::Named(name) => Some(name.as_str()),
        Form::Appended(name, _) => Some(name.as_str()),
    }
}

// Adds the name of a key where it is not among the names.
fn add_name_of<'a>(
    alloc: Global,
    names: &mut Seq<Text>,
    index: &mut Index<'a>,
    form: &'a Form,
) -> Result<(), AllocError>
    requires index { IsIndex names.old index.old }
    ensures names { OnOk result (names.new ≡ spec.with_name names.old (spec.name_in form.now)) }
    ensures index { OnOk result (IsIndex names.new index.new) }
{
    if let Some(name) = name_in(form) {
        if add_name(index, name, names.len())? {
            names.push(Text::from_str(alloc, name)?)?;
        }
    }
    Ok(())
}

/// The names of keys, each once, by its first place.
pub(crate) fn names_of(alloc: Global, keys: &[Key]) -> Result<Seq<Text>, AllocError>
    ensures names { IfOk result (λ names. names ≡ spec.names_of keys.now) }
    ensures distinct { IfOk result (λ names. AreDistinct names) }
{
    let mut names = Seq::new(alloc);
    let mut index = BTreeMap::new(alloc);
    for key in keys {
        add_name_of(alloc, &mut names, &mut index, &key.form)?;
    }
    Ok(names)
}

// Notes the name of a key that has it without `+`; answers whether it was noted before.
fn note_again<'a>(noted: &mut Index<'a>, form: &'a Form) -> Result<bool, AllocError>
    ensures again { IfOk result (λ again. again ≡ is_noted (number_at noted.old) form.now) }
    ensures noted { OnOk result ((name : List ℕ) → is_some (number_at noted.new name)
        ≡ (spec.is_named name form.now || is_some (number_at noted.old name))) }
{
    match form {
        Form::Named(name) => Ok(!add_name(noted, name.as_str(), 0)?),
        Form::Skipped | Form::Appended(_, _) => Ok(false),
    }
}

/// Whether two keys have one name without `+`.
pub(crate) fn have_name_twice(alloc: Global, keys: &[Key]) -> Result<bool, AllocError>
    ensures { IfOk result (λ twice. twice ≡ spec.have_name_twice keys.now) }
{
    let mut noted = BTreeMap::new(alloc);
    let mut place = keys.len();
    while place > 0 {
        place -= 1;
        if note_again(&mut noted, &keys[place].form)? {
            return Ok(true);
        }
    }
    Ok(false)
}
