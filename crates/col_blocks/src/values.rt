ghost use Rattle.std.specs.Prelude.{◌≡◌, [], ◌∷◌, ◌++◌, ◌<◌, length, slice_get, Some, IfOk, OnOk, OnErr, option_map};
ghost use Rattle.std.specs.Option.{option_copied};
ghost use Rattle.esql_types.specs.Values.{kind_of_value};
ghost use Rattle.esql_types.specs.declared.value.Value.TheVariants.{Int, Long, Bool as Boolean, Text as Keyword};
ghost use Rattle.col_blocks.specs.Stored.{values_of, kind_of, value_read, ints_of, longs_of};

use crate::texts::Texts;
use esql_types::{Cell, Kind, Text, Value, ValueRef};
use std::alloc::{AllocError, Global};

/// Values of one kind, kept together.
#[derive(Debug, Drop)]
pub enum Values {
    Integers(Vec<i32>),
    Longs(Vec<i64>),
    Booleans(Vec<bool>),
    Keywords(Texts),
    /// Those of the kind of NULL, which has none.
    Nulls,
}

impl Values {
    pub fn new(alloc: Global, kind: Kind) -> Values
        ensures kind { kind_of result ≡ kind }
        ensures values { values_of result ≡ [] }
    {
        match kind {
            Kind::Integer => Values::Integers(Vec::new(alloc)),
            Kind::Long => Values::Longs(Vec::new(alloc)),
            Kind::Boolean => Values::Booleans(Vec::new(alloc)),
            Kind::Keyword => Values::Keywords(Texts::new(alloc)),
            Kind::Null => Values::Nulls,
        }
    }

    pub fn len(&self) -> usize
        ensures { result ≡ length (values_of self.now) }
    {
        match self {
            Values::Integers(numbers) => numbers.len(),
            Values::Longs(numbers) => numbers.len(),
            Values::Booleans(truths) => truths.len(),
            Values::Keywords(texts) => texts.len(),
            Values::Nulls => 0,
        }
    }

    pub fn at(&self, place: usize) -> ValueRef<'_>
        requires { place < length (values_of self.now) }
        ensures value { slice_get (values_of self.now) place ≡ Some (value_read result) }
        ensures kind { kind_of_value (value_read result) ≡ kind_of self.now }
    {
        match self {
            Values::Integers(numbers) => ValueRef::Int(numbers[place]),
            Values::Longs(numbers) => ValueRef::Long(numbers[place]),
            Values::Booleans(truths) => ValueRef::Bool(truths[place]),
            Values::Keywords(texts) => ValueRef::Text(texts.at(place)),
            Values::Nulls => unreachable!(),
        }
    }

    /// The numbers where they are integers.
    pub fn ints(&self) -> Option<&[i32]>
        ensures { option_copied result ≡ ints_of self.now }
    {
        match self {
            Values::Integers(numbers) => Some(numbers.as_slice()),
            _ => None,
        }
    }

    /// The numbers where they are longs.
    pub fn longs(&self) -> Option<&[i64]>
        ensures { option_copied result ≡ longs_of self.now }
    {
        match self {
            Values::Longs(numbers) => Some(numbers.as_slice()),
            _ => None,
        }
    }

    pub fn push_int(&mut self, number: i32) -> Result<(), AllocError>
        requires { kind_of self.old ≡ Kind.Integer }
        ensures kind { kind_of self.new ≡ kind_of self.old }
        ensures ok { OnOk result (values_of self.new ≡ values_of self.old ++ Int number ∷ []) }
        ensures err { OnErr result (values_of self.new ≡ values_of self.old) }
    {
        match self {
            Values::Integers(numbers) => numbers.push(number)?,
            _ => unreachable!(),
        }
        Ok(())
    }

    pub fn push_long(&mut self, number: i64) -> Result<(), AllocError>
        requires { kind_of self.old ≡ Kind.Long }
        ensures kind { kind_of self.new ≡ kind_of self.old }
        ensures ok { OnOk result (values_of self.new ≡ values_of self.old ++ Long number ∷ []) }
        ensures err { OnErr result (values_of self.new ≡ values_of self.old) }
    {
        match self {
            Values::Longs(numbers) => numbers.push(number)?,
            _ => unreachable!(),
        }
        Ok(())
    }

    pub fn push_bool(&mut self, truth: bool) -> Result<(), AllocError>
        requires { kind_of self.old ≡ Kind.Boolean }
        ensures kind { kind_of self.new ≡ kind_of self.old }
        ensures ok { OnOk result (values_of self.new ≡ values_of self.old ++ Boolean truth ∷ []) }
        ensures err { OnErr result (values_of self.new ≡ values_of self.old) }
    {
        match self {
            Values::Booleans(truths) => truths.push(truth)?,
            _ => unreachable!(),
        }
        Ok(())
    }

    pub fn push_text(&mut self, text: &str) -> Result<(), AllocError>
        requires { kind_of self.old ≡ Kind.Keyword }
        ensures kind { kind_of self.new ≡ kind_of self.old }
        ensures ok { OnOk result (values_of self.new ≡ values_of self.old ++ Keyword text.now ∷ []) }
        ensures err { OnErr result (values_of self.new ≡ values_of self.old) }
    {
        match self {
            Values::Keywords(texts) => texts.push(text)?,
            _ => unreachable!(),
        }
        Ok(())
    }

    pub fn push(&mut self, value: ValueRef<'_>) -> Result<(), AllocError>
        requires { kind_of_value (value_read value) ≡ kind_of self.old }
        ensures kind { kind_of self.new ≡ kind_of self.old }
        ensures ok { OnOk result (values_of self.new ≡ values_of self.old ++ value_read value.entry ∷ []) }
        ensures err { OnErr result (values_of self.new ≡ values_of self.old) }
    {
        match value {
            ValueRef::Int(number) => self.push_int(number),
            ValueRef::Long(number) => self.push_long(number),
            ValueRef::Bool(truth) => self.push_bool(truth),
            ValueRef::Text(text) => self.push_text(text),
        }
    }
}

/// The value, read where it stands.
pub fn read(value: &Value) -> ValueRef<'_>
    ensures { value_read result ≡ value.now }
{
    match value {
        Value::Int(number) => ValueRef::Int(*number),
        Value::Long(number) => ValueRef::Long(*number),
        Value::Bool(truth) => ValueRef::Bool(*truth),
        Value::Text(text) => ValueRef::Text(text.as_str()),
    }
}

/// The value at a place of a cell, read where it stands.
pub fn read_at(cell: &Cell, place: usize) -> Option<ValueRef<'_>>
    ensures { option_map value_read result ≡ slice_get cell.now place }
{
    match cell.at(place) {
        Some(value) => Some(read(value)),
        None => None,
    }
}

/// A value of its own, as the one that is read.
pub fn owned(alloc: Global, value: ValueRef<'_>) -> Result<Value, AllocError>
    ensures { IfOk result (λ own. own ≡ value_read value.entry) }
{
    match value {
        ValueRef::Int(number) => Ok(Value::Int(number)),
        ValueRef::Long(number) => Ok(Value::Long(number)),
        ValueRef::Bool(truth) => Ok(Value::Bool(truth)),
        ValueRef::Text(text) => Ok(Value::Text(Text::from_str(alloc, text)?)),
    }
}
