ghost use Rattle.std.specs.Prelude.{◌≡◌, [], ◌++◌, length, map, IfOk, OnOk, slice_index_or};
ghost use Rattle.std.specs.List.{flat_map};
ghost use Rattle.plan_semantics.specs.Stats.{input_cell};
ghost use Rattle.stats_groups.specs.Cells.{put_cells};
ghost use Rattle.stats_groups.specs.Entries.{inputs_of, numbered};
ghost use Rattle.stats_groups.specs.States.{running_before, running_after, cell_of_running, failures_of_running};

use crate::cells::{behind, put_first};
use crate::row_key::values_at;
use crate::state::{Running, State};
use esql_plan::Aggregate;
use esql_types::{Cell, ColId, Failure, Seq, Value};
use std::alloc::{AllocError, Global};
use std::marker::Model;

/// The running aggregates of a group, which contracts see as a list.
#[derive(Drop)]
pub(crate) struct GroupStates {
    states: Vec<Running>,
}

impl Model for GroupStates {
    ghost use Rattle.std.specs.Prelude.{List};
    ghost use Rattle.stats_groups.specs.declared.state.Running.{Running as State};

    ghost Value = { List State };

    ghost view = { λ it. it.states.items };
}

impl GroupStates {
    /// The aggregates over no rows.
    #[inline(always)]
    pub(crate) fn new(alloc: Global, aggregates: &[Aggregate]) -> Result<GroupStates, AllocError>
        ensures { IfOk result (λ states. states ≡ running_before aggregates.now) }
    {
        let mut states = Vec::with_capacity(alloc, aggregates.len())?;
        for aggregate in aggregates {
            states.push(Running {
                node: aggregate.node,
                state: State::new(alloc, aggregate.function)?,
            })?;
        }
        Ok(GroupStates { states })
    }

    /// Takes one more row, by its cells of the aggregates' inputs.
    #[inline(always)]
    pub(crate) fn add(&mut self, aggregates: &[Aggregate], row: &[Cell]) -> Result<(), AllocError>
        ensures { OnOk result (self.new ≡ running_after 0 self.old (inputs_of aggregates.now row.now)) }
    {
        for place in 0..self.states.len() {
            self.states[place]
                .state
                .add(input_at(aggregates, place, row))?;
        }
        Ok(())
    }

    pub(crate) fn len(&self) -> usize
        ensures { result ≡ length self.now }
    {
        self.states.len()
    }

    /// Puts the aggregates' cells at columns of a row, as far as there are columns, and adds their failures to others.
    #[inline(always)]
    pub(crate) fn put_cells(
        self,
        alloc: Global,
        columns: &[ColId],
        row: &mut Seq<Cell>,
        failures: &mut Seq<Failure>,
    ) -> Result<(), AllocError>
        ensures row { OnOk result (row.new ≡ put_cells row.old columns.now (map cell_of_running self)) }
        ensures failures { OnOk result (failures.new ≡ failures.old ++ flat_map failures_of_running self) }
    {
        let GroupStates { states } = self;
        let mut left = columns;
        for running in states {
            let cell = running.finish(alloc, failures)?;
            put_first(alloc, row, left, cell)?;
            left = behind(left, 1);
        }
        Ok(())
    }
}

/// The values of a row for the aggregate at a place.
#[inline(always)]
fn input_at<'a>(aggregates: &[Aggregate], place: usize, row: &'a [Cell]) -> &'a [Value]
    ensures { result.now ≡ slice_index_or (inputs_of aggregates.now row.now) place [] }
{
    match aggregates.get(place) {
        Some(aggregate) => input_values(aggregate.input, row),
        None => &[],
    }
}

/// The values of a row at a column, none where there is no column.
#[inline(always)]
fn input_values(input: Option<ColId>, row: &[Cell]) -> &[Value]
    ensures { result.now ≡ input_cell (numbered row.now) input }
{
    match input {
        Some(id) => values_at(row, id),
        None => &[],
    }
}
