ghost use Rattle.std.specs.Prelude.{◌≡◌, ◌++◌, fold, IfOk, OnOk};
ghost use Rattle.std.specs.Option.{option_to_list};
ghost use Rattle.std.specs.Ordering.{is_lt, is_gt};
ghost use Rattle.esql_plan.specs.Values.{failures_at};
ghost use Rattle.plan_semantics.specs.Groups.{count_given};
ghost use Rattle.stats_groups.specs.States.{best_after, replaces, state_before, state_after, given_of_sum, failures_of_running, cell_of_running};

use crate::distinct::DistinctValues;
use crate::sum::LongSum;
use esql_plan::AggFunction;
use esql_types::{Cause, Cell, Failure, NodeId, Seq, Value, compare_values};
use std::alloc::{AllocError, Global};

/// What is kept of the values of a group for an aggregate.
#[derive(Drop)]
pub(crate) enum State {
    Rows(u64),
    Count(u64),
    CountDistinct(DistinctValues),
    Summed(LongSum),
    Least(Option<Value>),
    Greatest(Option<Value>),
    Values(DistinctValues),
}

/// The state of an aggregate of a group, with the aggregate's node.
#[derive(Drop)]
pub(crate) struct Running {
    pub(crate) node: NodeId,
    pub(crate) state: State,
}

impl State {
    /// The state over no rows.
    pub(crate) fn new(alloc: Global, function: AggFunction) -> Result<State, AllocError>
        ensures { IfOk result (λ state. state ≡ state_before function) }
    {
        match function {
            AggFunction::CountRows => Ok(State::Rows(0)),
            AggFunction::Count => Ok(State::Count(0)),
            AggFunction::CountDistinct => Ok(State::CountDistinct(DistinctValues::new(alloc)?)),
            AggFunction::Sum => Ok(State::Summed(LongSum::new())),
            AggFunction::Min => Ok(State::Least(None)),
            AggFunction::Max => Ok(State::Greatest(None)),
            AggFunction::Values => Ok(State::Values(DistinctValues::new(alloc)?)),
        }
    }

    /// Takes one more row, by the values of its input.
    #[inline(always)]
    pub(crate) fn add(&mut self, values: &[Value]) -> Result<(), AllocError>
        ensures { OnOk result (self.new ≡ state_after self.old values.now) }
    {
        match self {
            State::Rows(count) => *count = count.saturating_add(1),
            State::Count(count) => *count = count.saturating_add(values.len() as u64),
            State::CountDistinct(kept) => kept.add(values)?,
            State::Summed(sum) => sum.add(values),
            State::Least(best) => add_least(best, values)?,
            State::Greatest(best) => add_greatest(best, values)?,
            State::Values(kept) => kept.add(values)?,
        }
        Ok(())
    }
}

impl Running {
    /// The cell of the aggregate; its failures are added to others.
    #[inline(always)]
    pub(crate) fn finish(
        self,
        alloc: Global,
        failures: &mut Seq<Failure>,
    ) -> Result<Cell, AllocError>
        ensures cell { IfOk result (λ cell. cell ≡ cell_of_running self) }
        ensures failures { OnOk result (failures.new ≡ failures.old ++ failures_of_running self) }
    {
        let Running { node, state } = self;
        match state {
            State::Rows(count) => Ok(count_cell(alloc, count)),
            State::Count(count) => Ok(count_cell(alloc, count)),
            State::CountDistinct(kept) => Ok(count_cell(alloc, kept.len() as u64)),
            State::Summed(sum) => sum_cell(alloc, node, sum, failures),
            State::Least(best) => Ok(best_cell(alloc, best)),
            State::Greatest(best) => Ok(best_cell(alloc, best)),
            State::Values(kept) => kept.into_cell(alloc),
        }
    }
}

/// Takes the least of the least value so far and some values.
#[inline(always)]
fn add_least(best: &mut Option<Value>, values: &[Value]) -> Result<(), AllocError>
    ensures { OnOk result (best.new ≡ fold (best_after is_lt) best.old values.now) }
{
    for value in values {
        if is_less(value, best) {
            *best = Some(value.copy()?);
        }
    }
    Ok(())
}

/// Takes the greatest of the greatest value so far and some values.
#[inline(always)]
fn add_greatest(best: &mut Option<Value>, values: &[Value]) -> Result<(), AllocError>
    ensures { OnOk result (best.new ≡ fold (best_after is_gt) best.old values.now) }
{
    for value in values {
        if is_greater(value, best) {
            *best = Some(value.copy()?);
        }
    }
    Ok(())
}

/// Whether a value is less than the least one so far, or the first.
#[inline(always)]
fn is_less(value: &Value, best: &Option<Value>) -> bool
    ensures { result ≡ replaces is_lt best.now value.now }
{
    match best {
        Some(best) => compare_values(value, best).is_lt(),
        None => true,
    }
}

/// Whether a value is greater than the greatest one so far, or the first.
#[inline(always)]
fn is_greater(value: &Value, best: &Option<Value>) -> bool
    ensures { result ≡ replaces is_gt best.now value.now }
{
    match best {
        Some(best) => compare_values(value, best).is_gt(),
        None => true,
    }
}

#[inline(always)]
fn count_cell(alloc: Global, count: u64) -> Cell
    ensures { result ≡ (count_given count).cell }
{
    Cell::one(alloc, Value::Long(i64::try_from(count).unwrap_or(i64::MAX)))
}

#[inline(always)]
fn best_cell(alloc: Global, best: Option<Value>) -> Cell
    ensures { result ≡ option_to_list best }
{
    match best {
        Some(value) => Cell::one(alloc, value),
        None => Cell::null(alloc),
    }
}

#[inline(always)]
fn sum_cell(
    alloc: Global,
    node: NodeId,
    sum: LongSum,
    failures: &mut Seq<Failure>,
) -> Result<Cell, AllocError>
    ensures cell { IfOk result (λ cell. cell ≡ (given_of_sum sum).cell) }
    ensures failures { OnOk result (failures.new ≡ failures.old ++ failures_at node (given_of_sum sum).causes) }
{
    if sum.is_empty {
        return Ok(Cell::null(alloc));
    }
    match sum.total.long() {
        Some(total) => Ok(Cell::one(alloc, Value::Long(total))),
        None => {
            failures.push(Failure {
                node,
                cause: Cause::LongOverflow,
            })?;
            Ok(Cell::null(alloc))
        }
    }
}
