// Values that are made of some of others.
ghost use Rattle.std.specs.Prelude.{◌≡◌, ◌+◌, ◌<◌, ◌≤◌, [], ◌∷◌, ◌++◌, if◌then◌else◌, length, take, drop, map, IfOk, OnOk, slice_index_or};
ghost use Rattle.col_blocks.specs.Kept.{kept_by};
ghost use Rattle.col_blocks.specs.Stored.{values_of, kind_of};

use crate::texts::Texts;
use crate::values::Values;
use bit_masks::Mask;
use std::alloc::{AllocError, Global};

/// The values at the set places of the mask.
pub fn kept_values(alloc: Global, values: &Values, keep: &Mask) -> Result<Values, AllocError>
    requires { length keep.now ≡ length (values_of values.now) }
    ensures kind { IfOk result (λ new. kind_of new ≡ kind_of values.now) }
    ensures values { IfOk result (λ new. values_of new ≡ kept_by keep.now (values_of values.now)) }
{
    match values {
        Values::Integers(numbers) => Ok(Values::Integers(kept_items(
            alloc,
            numbers.as_slice(),
            keep,
        )?)),
        Values::Longs(numbers) => Ok(Values::Longs(kept_items(alloc, numbers.as_slice(), keep)?)),
        Values::Booleans(truths) => Ok(Values::Booleans(kept_items(
            alloc,
            truths.as_slice(),
            keep,
        )?)),
        Values::Keywords(texts) => Ok(Values::Keywords(kept_texts(alloc, texts, keep)?)),
        Values::Nulls => Ok(Values::Nulls),
    }
}

fn kept_items<T: Copy>(alloc: Global, items: &[T], keep: &Mask) -> Result<Vec<T>, AllocError>
    requires { length keep.now ≡ length items.now }
    ensures { IfOk result (λ new. new.items ≡ kept_by keep.now items.now) }
{
    let mut new = Vec::with_capacity(alloc, keep.count())?;
    for place in 0..items.len() {
        push_item_if(&mut new, keep.get(place), items[place])?;
    }
    Ok(new)
}

fn push_item_if<T: Copy>(new: &mut Vec<T>, keep: bool, item: T) -> Result<(), AllocError>
    ensures { OnOk result (new.new.items ≡ new.old.items ++ (if keep then item ∷ [] else [])) }
{
    if keep {
        new.push(item)?;
    }
    Ok(())
}

fn kept_texts(alloc: Global, texts: &Texts, keep: &Mask) -> Result<Texts, AllocError>
    requires { length keep.now ≡ length texts.now }
    ensures { IfOk result (λ new. new ≡ kept_by keep.now texts.now) }
{
    let mut new = Texts::new(alloc);
    for place in 0..texts.len() {
        push_text_if(&mut new, keep.get(place), texts.at(place))?;
    }
    Ok(new)
}

fn push_text_if(new: &mut Texts, keep: bool, text: &str) -> Result<(), AllocError>
    ensures { OnOk result (new.new ≡ new.old ++ (if keep then text.now ∷ [] else [])) }
{
    if keep {
        new.push(text)?;
    }
    Ok(())
}

/// The `len` values from `start` on.
pub fn part_of_values(
    alloc: Global,
    values: &Values,
    start: usize,
    len: usize,
) -> Result<Values, AllocError>
    requires { start + len ≤ length (values_of values.now) }
    ensures kind { IfOk result (λ new. kind_of new ≡ kind_of values.now) }
    ensures values { IfOk result (λ new. values_of new ≡ take len (drop start (values_of values.now))) }
{
    match values {
        Values::Integers(numbers) => Ok(Values::Integers(part_of_items(
            alloc,
            numbers.as_slice(),
            start,
            len,
        )?)),
        Values::Longs(numbers) => Ok(Values::Longs(part_of_items(
            alloc,
            numbers.as_slice(),
            start,
            len,
        )?)),
        Values::Booleans(truths) => Ok(Values::Booleans(part_of_items(
            alloc,
            truths.as_slice(),
            start,
            len,
        )?)),
        Values::Keywords(texts) => Ok(Values::Keywords(part_of_texts(alloc, texts, start, len)?)),
        Values::Nulls => Ok(Values::Nulls),
    }
}

fn part_of_items<T: Copy>(
    alloc: Global,
    items: &[T],
    start: usize,
    len: usize,
) -> Result<Vec<T>, AllocError>
    requires { start + len ≤ length items.now }
    ensures { IfOk result (λ new. new.items ≡ take len (drop start items.now)) }
{
    Vec::from_slice(alloc, &items[start..start + len])
}

fn part_of_texts(
    alloc: Global,
    texts: &Texts,
    start: usize,
    len: usize,
) -> Result<Texts, AllocError>
    requires { start + len ≤ length texts.now }
    ensures { IfOk result (λ new. new ≡ take len (drop start texts.now)) }
{
    let mut new = Texts::new(alloc);
    // What bounds `start + place`.
    let _count = texts.len();
    for place in 0..len {
        new.push(texts.at(start + place))?;
    }
    Ok(new)
}
