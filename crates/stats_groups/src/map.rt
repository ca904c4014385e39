ghost use Rattle.std.specs.Prelude.{◌≡◌, ◌++◌, ◌∷◌, [], map, length, IfOk, OnOk};
ghost use Rattle.std.specs.List.{flat_map};
ghost use Rattle.plan_semantics.specs.Groups.{keys_of_cells};
ghost use Rattle.stats_groups.specs.Cells.{put_cells};
ghost use Rattle.stats_groups.specs.Entries.{cells_of, inputs_of};
ghost use Rattle.stats_groups.specs.Maps.{with_row, with_row_at, groups_before, row_of_group, failures_of_group};

use crate::cells::{behind, width_of};
use crate::group_key::GroupKey;
use crate::group_states::GroupStates;
use crate::keys::keys_of_cells;
use crate::row_key::{RowKey, cells_of_key, is_single_key, key_of_row};
use esql_plan::{Aggregate, GroupColumn};
use esql_types::{Cell, ColId, Failure, Seq};
use indexmap::IndexMap;
use std::alloc::{AllocError, Global};

/// The groups before the first row: where rows are grouped by no column there is one.
pub(crate) fn groups_before(
    alloc: Global,
    columns: usize,
    aggregates: &[Aggregate],
) -> Result<IndexMap<GroupKey, GroupStates>, AllocError>
    ensures { IfOk result (λ groups. groups.entries ≡ groups_before columns aggregates.now) }
{
    let mut groups = IndexMap::new(alloc);
    if columns == 0 {
        groups.insert(
            GroupKey::of(Vec::new(alloc)),
            GroupStates::new(alloc, aggregates)?,
        )?;
    }
    Ok(groups)
}

/// Adds a row to the groups of its keys. A row of one key is looked up where it stands.
pub(crate) fn add_row(
    alloc: Global,
    groups: &mut IndexMap<GroupKey, GroupStates>,
    aggregates: &[Aggregate],
    columns: &[GroupColumn],
    row: Seq<Cell>,
) -> Result<(), AllocError>
    ensures { OnOk result (groups.new.entries ≡ with_row_at aggregates.now (keys_of_cells (cells_of columns.now row)) (inputs_of aggregates.now row) groups.old.entries) }
{
    let cells = row.as_slice();
    let key = RowKey {
        groups: columns,
        row: cells,
    };
    if is_single_key(key) {
        return add_to_group_of_row(alloc, groups, aggregates, columns, row);
    }
    let whole = cells_of_key(alloc, key)?;
    for one in keys_of_cells(alloc, whole.as_slice())? {
        add_to_group(alloc, groups, aggregates, one, cells)?;
    }
    Ok(())
}

/// Adds a row to the group of its cells; a new group goes last.
fn add_to_group_of_row(
    alloc: Global,
    groups: &mut IndexMap<GroupKey, GroupStates>,
    aggregates: &[Aggregate],
    columns: &[GroupColumn],
    row: Seq<Cell>,
) -> Result<(), AllocError>
    ensures { OnOk result (groups.new.entries ≡ with_row aggregates.now (cells_of columns.now row) (inputs_of aggregates.now row) groups.old.entries) }
{
    let cells = row.as_slice();
    let key = RowKey {
        groups: columns,
        row: cells,
    };
    match groups.get_index_of(key) {
        Some(place) => {
            groups[place].add(aggregates, cells)?;
            Ok(())
        }
        None => {
            let mut states = GroupStates::new(alloc, aggregates)?;
            states.add(aggregates, cells)?;
            groups.insert(key_of_row(alloc, columns, row)?, states)?;
            Ok(())
        }
    }
}

/// Adds a row to the group of a key; a new group goes last.
fn add_to_group(
    alloc: Global,
    groups: &mut IndexMap<GroupKey, GroupStates>,
    aggregates: &[Aggregate],
    key: GroupKey,
    row: &[Cell],
) -> Result<(), AllocError>
    ensures { OnOk result (groups.new.entries ≡ with_row aggregates.now key (inputs_of aggregates.now row.now) groups.old.entries) }
{
    match groups.get_index_of(&key) {
        Some(place) => {
            groups[place].add(aggregates, row)?;
            Ok(())
        }
        None => {
            let mut states = GroupStates::new(alloc, aggregates)?;
            states.add(aggregates, row)?;
            groups.insert(key, states)?;
            Ok(())
        }
    }
}

/// A row for each group, with its cells at columns; the failures of aggregates are added to others.
pub(crate) fn rows_of_groups(
    alloc: Global,
    columns: &[ColId],
    groups: IndexMap<GroupKey, GroupStates>,
    failures: &mut Seq<Failure>,
) -> Result<Seq<Seq<Cell>>, AllocError>
    ensures rows { IfOk result (λ rows. rows ≡ map (λ group. put_cells [] columns.now (row_of_group group)) groups.entries) }
    ensures failures { OnOk result (failures.new ≡ failures.old ++ flat_map failures_of_group groups.entries) }
{
    let width = width_of(columns);
    let mut rows = Seq::from_vec(Vec::with_capacity(alloc, groups.len())?);
    for (key, states) in groups {
        rows.push(row_of_group(alloc, columns, width, key, states, failures)?)?;
    }
    Ok(rows)
}

/// The row of a group, with room for so many cells.
#[inline(always)]
fn row_of_group(
    alloc: Global,
    columns: &[ColId],
    room: usize,
    key: GroupKey,
    states: GroupStates,
    failures: &mut Seq<Failure>,
) -> Result<Seq<Cell>, AllocError>
    ensures row { IfOk result (λ row. row ≡ put_cells [] columns.now (row_of_group (key, states))) }
    ensures failures { OnOk result (failures.new ≡ failures.old ++ failures_of_group (key, states)) }
{
    let mut row = Seq::from_vec(Vec::with_capacity(alloc, room)?);
    let key_columns = behind(columns, states.len());
    states.put_cells(alloc, columns, &mut row, failures)?;
    key.put_cells(alloc, key_columns, &mut row)?;
    Ok(row)
}
