ghost use Rattle.std.specs.Prelude.{◌≡◌, [], fold, IfOk, slice_index_or};
ghost use Rattle.std.specs.List.{list_all};
ghost use Rattle.plan_semantics.specs.Groups.{same_key};
ghost use Rattle.stats_groups.specs.Entries.{cells_of};
ghost use Rattle.stats_groups.specs.Keys.{key_hashed};
ghost use Rattle.stats_groups.specs.Maps.{is_single};

use crate::group_key::GroupKey;
use crate::hashes::hash_cell;
use crate::same::same_values;
use esql_plan::GroupColumn;
use esql_types::{Cell, ColId, Seq, Value};
use indexmap::Equivalent;
use std::alloc::{AllocError, Global};
use std::hash::{Hash, Hasher};

/// The cells of a row at the columns that rows are grouped by, read where they stand: a key, where each has one value or none.
#[derive(Clone, Copy)]
pub(crate) struct RowKey<'a> {
    pub(crate) groups: &'a [GroupColumn],
    pub(crate) row: &'a [Cell],
}

/// The values of a row at a column.
pub(crate) fn values_at(row: &[Cell], id: ColId) -> &[Value]
    ensures { result.now ≡ slice_index_or row.now id.0 [] }
{
    match row.get(id.0 as usize) {
        Some(cell) => cell.as_slice(),
        None => &[],
    }
}

/// Whether no cell has several values.
pub(crate) fn is_single_key(key: RowKey<'_>) -> bool
    ensures { result ≡ list_all is_single (cells_of key.entry.groups.now key.entry.row.now) }
{
    for group in key.groups {
        if values_at(key.row, group.id).len() > 1 {
            return false;
        }
    }
    true
}

/// The cells of a row at the columns that rows are grouped by; where there is one column, its cell is not copied.
pub(crate) fn key_of_row(
    alloc: Global,
    groups: &[GroupColumn],
    row: Seq<Cell>,
) -> Result<GroupKey, AllocError>
    ensures { IfOk result (λ key. key ≡ cells_of groups.now row) }
{
    if groups.len() == 1 {
        return Ok(GroupKey::one(cell_taken(alloc, row, groups[0].id)));
    }
    cells_of_key(
        alloc,
        RowKey {
            groups,
            row: row.as_slice(),
        },
    )
}

/// The cell of a row at a column.
fn cell_taken(alloc: Global, row: Seq<Cell>, id: ColId) -> Cell
    ensures { result ≡ slice_index_or row id.0 [] }
{
    let mut cells = row;
    if (id.0 as usize) < cells.len() {
        return cells.replace(id.0 as usize, Cell::null(alloc));
    }
    Cell::null(alloc)
}

/// Copies of the cells.
pub(crate) fn cells_of_key(alloc: Global, key: RowKey<'_>) -> Result<GroupKey, AllocError>
    ensures { IfOk result (λ cells. cells ≡ cells_of key.entry.groups.now key.entry.row.now) }
{
    let mut cells = Vec::with_capacity(alloc, key.groups.len())?;
    for group in key.groups {
        cells.push(cell_at(alloc, key.row, group.id)?)?;
    }
    Ok(GroupKey::of(cells))
}

fn cell_at(alloc: Global, row: &[Cell], id: ColId) -> Result<Cell, AllocError>
    ensures { IfOk result (λ cell. cell ≡ slice_index_or row.now id.0 []) }
{
    match row.get(id.0 as usize) {
        Some(cell) => cell.copy(),
        None => Ok(Cell::null(alloc)),
    }
}

/// Whether the cells are those of a key.
fn is_key(key: RowKey<'_>, cells: &[Cell]) -> bool
    ensures { result ≡ same_key (cells_of key.entry.groups.now key.entry.row.now) cells.now }
{
    if key.groups.len() != cells.len() {
        return false;
    }
    for place in 0..cells.len() {
        if !same_values(
            values_at(key.row, key.groups[place].id),
            cells[place].as_slice(),
        ) {
            return false;
        }
    }
    true
}

/// Whether two rows have the same cells.
fn are_same(this: RowKey<'_>, that: RowKey<'_>) -> bool
    ensures { result ≡ same_key (cells_of this.entry.groups.now this.entry.row.now) (cells_of that.entry.groups.now that.entry.row.now) }
{
    if this.groups.len() != that.groups.len() {
        return false;
    }
    for place in 0..this.groups.len() {
        let values = values_at(this.row, this.groups[place].id);
        let others = values_at(that.row, that.groups[place].id);
        if !same_values(values, others) {
            return false;
        }
    }
    true
}

fn hash_key<H: Hasher>(key: RowKey<'_>, state: &mut H)
    ensures { state.new ≡ fold H.write state.old (key_hashed (cells_of key.entry.groups.now key.entry.row.now)) }
{
    for group in key.groups {
        hash_cell(values_at(key.row, group.id), state);
    }
}

impl PartialEq for RowKey<'_> {
    ghost use Rattle.std.specs.Cmp.{partial_equiv_from_equiv, on_equiv};
    ghost use Rattle.plan_semantics.specs.Groups.{same_key};
    ghost use Rattle.stats_groups.specs.Entries.{cells_of};
    ghost use Rattle.stats_groups.specs.Keys.{key_equivalence};

    ghost eq = { λ x y. same_key (cells_of x.groups.now x.row.now) (cells_of y.groups.now y.row.now) };

    ghost laws = { partial_equiv_from_equiv (on_equiv (λ x. cells_of x.groups.now x.row.now) key_equivalence) };

    fn eq(&self, other: &RowKey<'_>) -> bool {
        are_same(*self, *other)
    }
}

impl Eq for RowKey<'_> {
    ghost use Rattle.std.specs.Cmp.{on_equiv};
    ghost use Rattle.stats_groups.specs.Entries.{cells_of};
    ghost use Rattle.stats_groups.specs.Keys.{key_equivalence};

    ghost laws = { on_equiv (λ x. cells_of x.groups.now x.row.now) key_equivalence };
}

impl Hash for RowKey<'_> {
    ghost use Rattle.std.specs.Hash.{same_Alike};
    ghost use Rattle.stats_groups.specs.Entries.{cells_of};
    ghost use Rattle.stats_groups.specs.Keys.{key_hashed, key_decides};

    ghost hash_input = { λ x. key_hashed (cells_of x.groups.now x.row.now) };

    ghost respects_eq = { λ x y. (same_Alike key_hashed key_decides).fed (cells_of x.groups.now x.row.now) (cells_of y.groups.now y.row.now) };

    fn hash<H: Hasher>(&self, state: &mut H) {
        hash_key(*self, state);
    }
}

impl Equivalent<GroupKey> for RowKey<'_> {
    ghost use Rattle.std.specs.Hash.{same_Alike};
    ghost use Rattle.plan_semantics.specs.Groups.{same_key};
    ghost use Rattle.stats_groups.specs.Entries.{cells_of};
    ghost use Rattle.stats_groups.specs.Keys.{key_hashed, key_decides, key_equivalence};

    ghost equivalent = { λ x key. same_key (cells_of x.groups.now x.row.now) key };

    ghost respects_hash = { λ x key. (same_Alike key_hashed key_decides).fed (cells_of x.groups.now x.row.now) key };

    ghost respects_eq = { λ x. key_equivalence.congr (cells_of x.groups.now x.row.now) };

    fn equivalent(&self, key: &GroupKey) -> bool {
        is_key(*self, key.as_slice())
    }
}
