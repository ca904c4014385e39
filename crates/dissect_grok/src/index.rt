//! Names by their numbers.
ghost use Rattle.std.specs.Prelude.{◌≡◌, not, is_some, List, ℕ, IfOk, OnOk};
ghost use Rattle.dissect_grok.specs.Numbered.{IsIndex, number_at, number_or};

use esql_types::Text;
use std::alloc::{AllocError, Global};
use std::collections::BTreeMap;

/// The number of each name.
pub(crate) type Index<'a> = BTreeMap<&'a str, usize>;

/// Adds a name with a number; one that is there keeps its number. Answers whether the name is new.
pub(crate) fn add_name<'a>(
    index: &mut Index<'a>,
    name: &'a str,
    number: usize,
) -> Result<bool, AllocError>
    ensures new { IfOk result (λ new. new ≡ not (is_some (number_at index.old name.now))) }
    ensures numbers { OnOk result ((other : List ℕ) → number_at index.new other ≡ number_or (number_at index.old other) name.now number other) }
{
    if index.contains_key(name) {
        return Ok(false);
    }
    index.insert(name, number)?;
    Ok(true)
}

/// The number of the first of each name, from 0.
pub(crate) fn index_of<'a>(alloc: Global, names: &'a [Text]) -> Result<Index<'a>, AllocError>
    ensures { IfOk result (IsIndex names.now) }
{
    let mut index = BTreeMap::new(alloc);
    for (number, name) in names.iter().enumerate() {
        add_name(&mut index, name.as_str(), number)?;
    }
    Ok(index)
}
