//! The order in which the texts of one name are joined.
ghost use Rattle.std.specs.Prelude.{◌≡◌, map, option_and_then, IfOk, OnOk};
ghost use Rattle.function_rules.specs.Lists.{sorted_by};
ghost use Rattle.dissect_grok.specs.Joined as spec;
ghost use Rattle.dissect_grok.specs.Numbered.{AreDistinct, number_at, put_at, turn_order, turns_at};
ghost use Rattle.dissect_grok.specs.Patterns.{name_in};

use crate::index::{Index, index_of};
use crate::keys::{Form, Key};
use crate::lists::{add_at, empty_lists};
use crate::names::name_in;
use esql_types::{Seq, Text};
use std::alloc::{AllocError, Global};
use std::cmp::Ordering;

/// The place of a key among the keys, and the number by which its text is ordered.
#[derive(Clone, Copy, Debug, Drop)]
pub(crate) struct Turn {
    pub(crate) order: u32,
    pub(crate) place: usize,
}

fn order_in(form: &Form) -> u32
    ensures { result ≡ spec.order_in form.now }
{
    match form {
        Form::Skipped | Form::Named(_) => 0,
        Form::Appended(_, order) => *order,
    }
}

// Adds the turn of a key to the turns of its name.
fn add_turn(
    lists: &mut Vec<Seq<Turn>>,
    index: &Index<'_>,
    form: &Form,
    place: usize,
) -> Result<(), AllocError>
    ensures { OnOk result (lists.new.items
        ≡ put_at (option_and_then (number_at index.now) (name_in form.now)) lists.old.items (record { order = spec.order_in form.now; place = place })) }
{
    let Some(name) = name_in(form) else {
        return Ok(());
    };
    match index.get(name) {
        Some(number) => {
            let order = order_in(form);
            add_at(lists, *number, Turn { order, place })
        }
        None => Ok(()),
    }
}

// The turns of each name by the places of their keys.
fn turns_by_place(alloc: Global, names: &[Text], keys: &[Key]) -> Result<Vec<Seq<Turn>>, AllocError>
    requires { AreDistinct names.now }
    ensures { IfOk result (λ lists. lists.items ≡ map (turns_at 0 keys.now) names.now) }
{
    let index = index_of(alloc, names)?;
    let mut lists = empty_lists(alloc, names.len())?;
    for (place, key) in keys.iter().enumerate() {
        add_turn(&mut lists, &index, &key.form, place)?;
    }
    Ok(lists)
}

fn compare_turns(left: &Turn, right: &Turn) -> Ordering
    ensures { result ≡ turn_order left.now right.now }
{
    left.order
        .cmp(&right.order)
        .then(left.place.cmp(&right.place))
}

fn in_order(turns: Seq<Turn>) -> Seq<Turn>
    ensures { result ≡ sorted_by turn_order turns }
{
    let mut turns = turns.into_vec();
    turns.sort_unstable_by(|left, right| compare_turns(left, right));
    Seq::from_vec(turns)
}

/// The turns of each name.
pub(crate) fn turns_of_each(
    alloc: Global,
    names: &[Text],
    keys: &[Key],
) -> Result<Seq<Seq<Turn>>, AllocError>
    requires { AreDistinct names.now }
    ensures { IfOk result (λ turns. turns ≡ map (spec.turns_of keys.now) names.now) }
{
    let mut turns = Seq::new(alloc);
    for list in turns_by_place(alloc, names, keys)? {
        turns.push(in_order(list))?;
    }
    Ok(turns)
}

// The text of the key whose turn it is.
fn text_at<'a>(texts: &[&'a str], turn: Turn) -> &'a str
    ensures { result.now ≡ spec.text_at (map (λ text. text.now) texts.now) turn }
{
    match texts.get(turn.place) {
        Some(text) => *text,
        None => "",
    }
}

/// The texts of a name, in the order of its turns, with a separator between each two.
pub(crate) fn join(
    alloc: Global,
    separator: &str,
    turns: &[Turn],
    texts: &[&str],
) -> Result<Text, AllocError>
    ensures { IfOk result (λ whole. whole ≡ spec.joined_turns separator.now (map (λ text. text.now) texts.now) turns.now) }
{
    let mut whole = String::new(alloc);
    if let Some((first, rest)) = turns.split_first() {
        whole.push_str(text_at(texts, *first))?;
        for turn in rest {
            whole.push_str(separator)?;
            whole.push_str(text_at(texts, *turn))?;
        }
    }
    Ok(Text::from_string(whole))
}
