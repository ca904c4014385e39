//! Rows of tables for tests, and what is given on them.
ghost use Rattle.std.specs.Prelude.{[]};
ghost use Rattle.esql_plan.specs.Fits.{ExprFits};

use crate::evaluate;
use crate::trees::no_patterns;
use esql_plan::TypedExpr;
use esql_types::{Cause, Cell, Failure, Seq, Text, Value};
use std::alloc::{AllocError, Global};
use text_match::Patterns;

/// The values of a cell in a table.
#[derive(Clone, Copy, Debug)]
pub(crate) enum Shown<'a> {
    Int(i32),
    Truth(bool),
    Text(&'a str),
    Ints(&'a [i32]),
    Truths(&'a [bool]),
    Texts(&'a [&'a str]),
}

fn ints(alloc: Global, numbers: &[i32]) -> Result<Cell, AllocError> {
    let mut cell = Cell::null(alloc);
    for number in numbers {
        cell.push(Value::Int(*number))?;
    }
    Ok(cell)
}

fn truths(alloc: Global, truths: &[bool]) -> Result<Cell, AllocError> {
    let mut cell = Cell::null(alloc);
    for truth in truths {
        cell.push(Value::Bool(*truth))?;
    }
    Ok(cell)
}

fn texts(alloc: Global, texts: &[&str]) -> Result<Cell, AllocError> {
    let mut cell = Cell::null(alloc);
    for text in texts {
        cell.push(Value::Text(Text::from_str(alloc, text)?))?;
    }
    Ok(cell)
}

fn cell(alloc: Global, shown: Shown<'_>) -> Result<Cell, AllocError> {
    match shown {
        Shown::Int(number) => Ok(Cell::one(alloc, Value::Int(number))),
        Shown::Truth(truth) => Ok(Cell::one(alloc, Value::Bool(truth))),
        Shown::Text(text) => {
            let text = Text::from_str(alloc, text)?;
            Ok(Cell::one(alloc, Value::Text(text)))
        }
        Shown::Ints(numbers) => ints(alloc, numbers),
        Shown::Truths(these) => truths(alloc, these),
        Shown::Texts(these) => texts(alloc, these),
    }
}

fn row(alloc: Global, cells: &[Shown<'_>]) -> Result<Seq<Cell>, AllocError> {
    let mut row = Seq::new(alloc);
    for shown in cells {
        row.push(cell(alloc, *shown)?)?;
    }
    Ok(row)
}

/// What an expression gives on a row: its cell and the failures.
#[derive(Drop)]
pub(crate) struct Evaluated {
    pub cell: Cell,
    pub failures: Seq<Failure>,
}

pub(crate) fn given_by(
    alloc: Global,
    expr: &TypedExpr,
    patterns: &Patterns,
    cells: &[Shown<'_>],
) -> Result<Evaluated, AllocError>
    requires { ExprFits patterns.now.whole patterns.now.free expr.now }
{
    let mut failures = Seq::new(alloc);
    let cell = evaluate(alloc, expr, &row(alloc, cells)?, patterns, &mut failures)?;
    Ok(Evaluated { cell, failures })
}

/// The same without patterns.
pub(crate) fn given(
    alloc: Global,
    expr: &TypedExpr,
    cells: &[Shown<'_>],
) -> Result<Evaluated, AllocError>
    requires { ExprFits [] [] expr.now }
{
    given_by(alloc, expr, &no_patterns(alloc), cells)
}

fn is_int(value: &Value, number: i32) -> bool {
    matches!(value, Value::Int(own) if *own == number)
}

fn is_truth(value: &Value, truth: bool) -> bool {
    matches!(value, Value::Bool(own) if *own == truth)
}

fn is_text(value: &Value, text: &str) -> bool {
    matches!(value, Value::Text(own) if own.as_str() == text)
}

fn are(cell: &Cell, shown: Shown<'_>) -> bool {
    let values = cell.as_slice();
    match shown {
        Shown::Int(number) => matches!(values, [value] if is_int(value, number)),
        Shown::Truth(truth) => matches!(values, [value] if is_truth(value, truth)),
        Shown::Text(text) => matches!(values, [value] if is_text(value, text)),
        Shown::Ints(wanted) => {
            values.len() == wanted.len()
                && values
                    .iter()
                    .zip(wanted)
                    .all(|(value, number)| is_int(value, *number))
        }
        Shown::Truths(wanted) => {
            values.len() == wanted.len()
                && values
                    .iter()
                    .zip(wanted)
                    .all(|(value, truth)| is_truth(value, *truth))
        }
        Shown::Texts(wanted) => {
            values.len() == wanted.len()
                && values
                    .iter()
                    .zip(wanted)
                    .all(|(value, text)| is_text(value, text))
        }
    }
}

/// A word for a cause.
fn word_of(cause: &Cause) -> &'static str {
    match cause {
        Cause::Multi => "several",
        Cause::IntegerOverflow => "integer",
        Cause::LongOverflow => "long",
        Cause::ByZero => "zero",
        Cause::CannotParse { text: _ } => "text",
        Cause::OutOfInteger { value: _ } => "range",
        Cause::NegativeLength { value: _ } => "length",
        Cause::EmptyDelimiter => "delimiter",
    }
}

impl Evaluated {
    /// Whether these values are given, and failures of causes with these words, in order.
    pub(crate) fn is(&self, shown: Shown<'_>, words: &[&str]) -> bool {
        are(&self.cell, shown)
            && self.failures.len() == words.len()
            && self
                .failures
                .as_slice()
                .iter()
                .zip(words)
                .all(|(failure, word)| word_of(&failure.cause) == *word)
    }
}
