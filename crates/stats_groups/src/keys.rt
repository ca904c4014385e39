ghost use Rattle.std.specs.Prelude.{◌≡◌, ◌∷◌, ◌++◌, map, IfOk, OnOk};
ghost use Rattle.std.specs.List.{flat_map};
ghost use Rattle.std.specs.Option.{option_copied, option_to_list};
ghost use Rattle.plan_semantics.specs.Groups.{key_cells, keys_of_cells};

use crate::group_key::GroupKey;
use esql_types::{Cell, Value};
use plain_functions::lists::distinct;
use std::alloc::{AllocError, Global};

/// The keys of a row by its cells, the first cell varying slowest.
pub(crate) fn keys_of_cells(alloc: Global, cells: &[Cell]) -> Result<Vec<GroupKey>, AllocError>
    ensures { IfOk result (λ keys. keys.items ≡ keys_of_cells cells.now) }
{
    let mut keys = vec![in alloc; GroupKey::of(Vec::new(alloc))]?;
    for back in 0..cells.len() {
        keys = behind_cell(alloc, &cells[cells.len() - 1 - back], &keys)?;
    }
    Ok(keys)
}

/// Keys with each of a cell's distinct values before them, or null where it has none.
fn behind_cell(alloc: Global, cell: &Cell, keys: &[GroupKey]) -> Result<Vec<GroupKey>, AllocError>
    ensures { IfOk result (λ all. all.items ≡ flat_map (λ one. map (λ more. one ∷ more) keys.now) (key_cells cell.now)) }
{
    let mut all = Vec::new(alloc);
    if cell.len() == 0 {
        push_behind(alloc, &mut all, None, keys)?;
        return Ok(all);
    }
    let values = distinct(alloc, cell.as_slice())?;
    for value in values.as_slice() {
        push_behind(alloc, &mut all, Some(value), keys)?;
    }
    Ok(all)
}

/// Adds keys with a value before them.
fn push_behind(
    alloc: Global,
    all: &mut Vec<GroupKey>,
    value: Option<&Value>,
    keys: &[GroupKey],
) -> Result<(), AllocError>
    ensures { OnOk result (all.new.items ≡ all.old.items ++ map (λ more. option_to_list (option_copied value.entry) ∷ more) keys.now) }
{
    for key in keys {
        all.push(key.behind(alloc, cell_of(alloc, value)?)?)?;
    }
    Ok(())
}

fn cell_of(alloc: Global, value: Option<&Value>) -> Result<Cell, AllocError>
    ensures { IfOk result (λ cell. cell ≡ option_to_list (option_copied value.entry)) }
{
    match value {
        Some(value) => Ok(Cell::one(alloc, value.copy()?)),
        None => Ok(Cell::null(alloc)),
    }
}
