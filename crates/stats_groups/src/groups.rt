ghost use Rattle.std.specs.Prelude.{◌≡◌, map, IfOk};
ghost use Rattle.esql_plan.specs.declared.step.Aggregate.{Aggregate as AggregateOf};
ghost use Rattle.plan_semantics.specs.Stats.{stats_columns};

use crate::entries::{AddedRow, Entries};
use crate::group_key::GroupKey;
use crate::group_states::GroupStates;
use crate::map::{add_row, groups_before, rows_of_groups};
use esql_plan::{Aggregate, GroupColumn};
use esql_types::{Cell, ColId, Failure, Seq};
use indexmap::IndexMap;
use std::alloc::{AllocError, Global};
use std::marker::Model;

/// Groups of rows by their keys, with the running aggregates of each. Nothing is kept of a row beyond these.
///
/// Contracts see the columns that rows are grouped by, the aggregates, and what groups look at in the rows that were added, in
/// order. After want of memory in `add_row` there are no such rows: the groups are of no further use, and every call answers
/// `AllocError`.
#[derive(Drop)]
pub struct Groups {
    alloc: Global,
    columns: Seq<GroupColumn>,
    aggregates: Seq<Aggregate>,
    groups: IndexMap<GroupKey, GroupStates>,
    entries: Entries,
    is_broken: bool,
}

impl Model for Groups {
    ghost use Rattle.stats_groups.specs.Grouped.{Grouped};

    ghost Value = { Grouped };

    ghost use Rattle.stats_groups.specs.Held.{grouped_of, HoldsGroups};

    ghost view = { grouped_of };

    ghost invariant = { HoldsGroups };
}

impl Groups {
    ghost use Rattle.std.specs.Prelude.{◌≡◌, [], ◌++◌, length, Some, None, option_map, IsSome, IfOk, OnOk, OnErr};
    ghost use Rattle.stats_groups.specs.Entries.{entry_of_row};
    ghost use Rattle.stats_groups.specs.Grouped.{with_entry, rows_grouped, failures_grouped};

    /// Groups by these columns, before the first row.
    pub fn new(
        alloc: Global,
        columns: Seq<GroupColumn>,
        aggregates: Seq<Aggregate>,
    ) -> Result<Groups, AllocError>
        ensures { IfOk result (λ groups. groups ≡ record { columns = columns; aggregates = aggregates; entries = Some [] }) }
    {
        let groups = groups_before(alloc, columns.len(), aggregates.as_slice())?;
        Ok(Groups {
            alloc,
            columns,
            aggregates,
            groups,
            entries: Entries::new(),
            is_broken: false,
        })
    }

    /// Adds a row, by its cells in the order of the column numbers; a cell that is not there is null. A row counts in the group
    /// of each choice of one of the distinct values of each key cell, or null where it has none.
    ///
    /// # Errors
    /// Want of memory, here or in an earlier call; the groups are then of no further use.
    pub fn add_row(&mut self, row: Seq<Cell>) -> Result<(), AllocError>
        ensures ok { OnOk result (self.new ≡ with_entry (entry_of_row self.old.columns self.old.aggregates row) self.old) }
        ensures some { OnOk result (IsSome self.old.entries) }
        ensures err { OnErr result (self.new ≡ record self.old { entries = None }) }
    {
        if self.is_broken {
            return Err(AllocError);
        }
        let entries = self.entries.then(&AddedRow {
            columns: &self.columns,
            aggregates: &self.aggregates,
            row: &row,
        });
        let added = add_row(
            self.alloc,
            &mut self.groups,
            self.aggregates.as_slice(),
            self.columns.as_slice(),
            row,
        );
        match added {
            Ok(()) => {
                self.entries = entries;
                Ok(())
            }
            Err(error) => {
                self.is_broken = true;
                Err(error)
            }
        }
    }

    /// A row for each group, in the order of the groups' first rows, with the cells of the aggregates and those of the key at the
    /// columns that are made of them, and null before and between these. The failures of the aggregates are added to others, group
    /// after group; after want of memory some of them may be there.
    ///
    /// # Errors
    /// Want of memory, here or in an earlier call.
    pub fn finish(self, failures: &mut Seq<Failure>) -> Result<Seq<Seq<Cell>>, AllocError>
        ensures rows { IfOk result (λ rows. Some rows ≡ rows_grouped self) }
        ensures failures { OnOk result (Some failures.new ≡ option_map (λ new. failures.old ++ new) (failures_grouped self)) }
    {
        let Groups {
            alloc,
            columns,
            aggregates,
            groups,
            is_broken,
            ..
        } = self;
        if is_broken {
            return Err(AllocError);
        }
        let made = columns_made(alloc, aggregates.as_slice(), columns.as_slice())?;
        let rows = rows_of_groups(alloc, made.as_slice(), groups, failures)?;
        Ok(rows)
    }
}

/// The columns that are made, those of the aggregates before those of the groups.
fn columns_made(
    alloc: Global,
    aggregates: &[Aggregate],
    groups: &[GroupColumn],
) -> Result<Seq<ColId>, AllocError>
    ensures { IfOk result (λ made. made ≡ stats_columns aggregates.now groups.now) }
{
    let mut made = aggregate_columns(alloc, aggregates)?;
    for group in groups {
        made.push(group.to)?;
    }
    Ok(made)
}

fn aggregate_columns(alloc: Global, aggregates: &[Aggregate]) -> Result<Seq<ColId>, AllocError>
    ensures { IfOk result (λ made. made ≡ map (λ (aggregate : AggregateOf). aggregate.to) aggregates.now) }
{
    let mut made = Seq::new(alloc);
    for aggregate in aggregates {
        made.push(aggregate.to)?;
    }
    Ok(made)
}
