ghost use Rattle.std.specs.Prelude.{◌≡◌, [], length, IfOk, OnOk};
ghost use Rattle.stats_groups.specs.States.{with_values};

use crate::key_value::KeyValue;
use esql_types::{Cell, Value};
use indexmap::IndexSet;
use std::alloc::{AllocError, Global};
use std::marker::Model;

/// Values that differ, by first occurrence, on the heap, so that other states stay small. Contracts see the list of them.
#[derive(Drop)]
pub(crate) struct DistinctValues {
    values: Box<IndexSet<KeyValue>>,
}

impl Model for DistinctValues {
    ghost use Rattle.std.specs.Prelude.{List};
    ghost use Rattle.esql_types.specs.declared.value.Value.{Value as PlainValue};

    ghost Value = { List PlainValue };

    ghost view = { λ distinct. distinct.values.value.keys };
}

impl DistinctValues {
    pub(crate) fn new(alloc: Global) -> Result<DistinctValues, AllocError>
        ensures { IfOk result (λ values. values ≡ []) }
    {
        Ok(DistinctValues {
            values: Box::new(alloc, IndexSet::new(alloc))?,
        })
    }

    /// Adds those of some values that are not there yet.
    pub(crate) fn add(&mut self, values: &[Value]) -> Result<(), AllocError>
        ensures { OnOk result (self.new ≡ with_values self.old values.now) }
    {
        for value in values {
            self.values.insert(KeyValue::of(value)?)?;
        }
        Ok(())
    }

    pub(crate) fn len(&self) -> usize
        ensures { result ≡ length self.now }
    {
        self.values.len()
    }

    pub(crate) fn into_cell(self, alloc: Global) -> Result<Cell, AllocError>
        ensures { IfOk result (λ cell. cell ≡ self) }
    {
        let DistinctValues { values } = self;
        let mut cell = Cell::null(alloc);
        for value in Box::into_inner(values) {
            cell.push(value.into_value())?;
        }
        Ok(cell)
    }
}
