ghost use Rattle.std.specs.Prelude.{◌≡◌, List, ℕ, IfOk, OnOk};
ghost use Rattle.source_columns.specs.Index.{IsIndex, number_at, number_or};

use esql_plan::TableShape;
use std::alloc::{AllocError, Global};
use std::collections::BTreeMap;

/// Where the first table of each name stands.
pub(crate) type Index<'a> = BTreeMap<&'a str, usize>;

/// The index of tables.
pub(crate) fn index_of<'a>(alloc: Global, tables: &'a [TableShape]) -> Result<Index<'a>, AllocError>
    ensures { IfOk result (IsIndex tables.now) }
{
    let mut index = BTreeMap::new(alloc);
    for (number, table) in tables.iter().enumerate() {
        add_name(&mut index, table.name.as_str(), number)?;
    }
    Ok(index)
}

// A name that is there keeps its number.
fn add_name<'a>(index: &mut Index<'a>, name: &'a str, number: usize) -> Result<(), AllocError>
    ensures { OnOk result ((other : List ℕ) → number_at index.new other ≡ number_or (number_at index.old other) name.now number other) }
{
    if !index.contains_key(name) {
        index.insert(name, number)?;
    }
    Ok(())
}
