ghost use Rattle.std.specs.Prelude.{◌≡◌, ℕ, List, IfOk, OnOk};
ghost use Rattle.std.specs.BTreeMap.{get_by_text};
ghost use Rattle.visible_columns.specs.Names.{FirstsOf, known_or, put_name};

use esql_plan::OutColumn;
use esql_types::ColId;
use std::alloc::{AllocError, Global};
use std::collections::BTreeMap;

/// What is known of a name: the columns of the name can be seen from a slot on, under a number in the place of their own if
/// there is one.
#[derive(Clone, Copy, Drop)]
pub(crate) struct Known {
    pub(crate) from: usize,
    pub(crate) number: Option<ColId>,
}

pub(crate) type Names = BTreeMap<String, Known>;

/// The names, of which one is known otherwise now.
pub(crate) fn put_name(
    alloc: Global,
    names: &mut Names,
    name: &str,
    known: Known,
) -> Result<(), AllocError>
    ensures { OnOk result ((other : List ℕ) → get_by_text names.new other ≡ put_name name.now known (get_by_text names.old) other) }
{
    let name = String::from_str(alloc, name)?;
    names.insert(name, known)?;
    Ok(())
}

// A name that is known stays as it is.
fn add_first(alloc: Global, names: &mut Names, name: &str, slot: usize) -> Result<(), AllocError>
    ensures { OnOk result ((other : List ℕ) → get_by_text names.new other ≡ known_or (get_by_text names.old other) name.now slot other) }
{
    if names.contains_key(name) {
        return Ok(());
    }
    put_name(
        alloc,
        names,
        name,
        Known {
            from: slot,
            number: None,
        },
    )
}

/// Each name of the columns from the first slot on that has it.
pub(crate) fn names_of(alloc: Global, columns: &[OutColumn]) -> Result<Names, AllocError>
    ensures { IfOk result (λ names. FirstsOf columns.now (get_by_text names)) }
{
    let mut names = BTreeMap::new(alloc);
    for (slot, column) in columns.iter().enumerate() {
        add_first(alloc, &mut names, column.name.as_str(), slot)?;
    }
    Ok(names)
}
