ghost use Rattle.std.specs.Prelude.{◌≡◌, [], ◌∷◌, ◌++◌, ◌<◌, length, slice_get, IfOk, OnOk, OnErr, OnSome};
ghost use Rattle.std.specs.Option.{option_copied};

use crate::Value;
use smallvec::SmallVec;
use std::alloc::{AllocError, Global};
use std::marker::Model;

/// A cell of a table: a list of values of one kind in document order, repeats kept. Null is the empty list.
///
/// Contracts see it as the list of its values.
#[derive(Debug, Drop)]
pub struct Cell {
    values: SmallVec<Value, 1>,
}

impl Model for Cell {
    ghost use Rattle.std.specs.Prelude.{List};
    ghost use Rattle.esql_types.specs.declared.value.Value.{Value as CellValue};

    ghost Value = { List CellValue };

    ghost view = { λ c. c.values.items };
}

impl Cell {
    /// The cell without a value. Takes no memory.
    pub fn null(alloc: Global) -> Cell
        ensures { result ≡ [] }
    {
        Cell {
            values: SmallVec::new(alloc),
        }
    }

    /// The cell of one value. Takes no memory.
    pub fn one(alloc: Global, value: Value) -> Cell
        ensures { result ≡ value ∷ [] }
    {
        let mut values = SmallVec::new(alloc);
        values.push_reserved(value);
        Cell { values }
    }

    /// Adds a value at the end; where memory is refused the cell is as before, and the value is dropped.
    pub fn push(&mut self, value: Value) -> Result<(), AllocError>
        ensures ok { OnOk result (self.new ≡ self.old ++ value ∷ []) }
        ensures err { OnErr result (self.new ≡ self.old) }
    {
        self.values.push(value)?;
        Ok(())
    }

    pub fn len(&self) -> usize
        ensures { result ≡ length self.now }
    {
        self.values.len()
    }

    pub fn as_slice(&self) -> &[Value]
        ensures { result.now ≡ self.now }
    {
        self.values.as_slice()
    }

    /// The value at a place, or `None` exactly where the place is not below the length.
    pub fn at(&self, place: usize) -> Option<&Value>
        ensures value { option_copied result ≡ slice_get self.now place }
        ensures within { OnSome result (place < length self.now) }
    {
        self.values.as_slice().get(place)
    }

    pub fn copy(&self) -> Result<Cell, AllocError>
        ensures { IfOk result (λ c. c ≡ self.now) }
    {
        let mut values = SmallVec::new(*self.values.allocator());
        for value in self.values.as_slice() {
            values.push(value.copy()?)?;
        }
        Ok(Cell { values })
    }
}

impl Value {
    pub fn copy(&self) -> Result<Value, AllocError>
        ensures { IfOk result (λ v. v ≡ self.now) }
    {
        match self {
            Value::Int(number) => Ok(Value::Int(*number)),
            Value::Long(number) => Ok(Value::Long(*number)),
            Value::Bool(truth) => Ok(Value::Bool(*truth)),
            Value::Text(text) => Ok(Value::Text(text.copy()?)),
        }
    }
}
