//! DISSECT and GROK: what the values of a column give, in new columns.
ghost use Rattle.std.specs.Prelude.{◌≡◌, ◌++◌, ◌∷◌, [], ℕ, List, None, Some, length, map, All, IfOk, OnOk, slice_get};
ghost use Rattle.std.specs.List.{flat_map};
ghost use Rattle.esql_types.specs.declared.value.Value.{Value as Held};
ghost use Rattle.esql_plan.specs.Values.{applied, silent};
ghost use Rattle.esql_scalar.specs.Rows.{row_of};
ghost use Rattle.dissect_grok.specs.Groks.{GrokRead};
ghost use Rattle.dissect_grok.specs.Patterns.{Reading};
ghost use Rattle.plan_semantics.specs.Laws.{AreBelow};
ghost use Rattle.plan_semantics.specs.Taken.{dissected_by, grokked_by, converted, converted_columns, conversion_to, taken_of_cell, text_cell, joined_cells, nulls};
ghost use Rattle.scalar_functions.specs.Taken.{branches_of};
ghost use Rattle.warn_log.specs.Logs.{logged};
ghost use Rattle.plan_rows.specs.Kept.{kept_taken, kept_new, values_behind};
ghost use Rattle.plan_rows.specs.Runs.{TakenBelow};

use crate::steps::note_failures;
use dissect_grok::{Cutter, Dissect, Grok};
use esql_plan::{Function, NewColumn};
use esql_types::{Cell, ColId, Column, Failure, Kind, NodeId, Seq, Text, Value};
use scalar_functions::apply;
use stats_groups::put_cell;
use std::alloc::{AllocError, Global};
use text_match::Patterns;
use warn_log::Log;

/// The pattern of DISSECT of a number.
pub(crate) fn dissect_at(cutters: &[Cutter], number: u32) -> &Dissect
    requires { (reading : Reading) × (slice_get cutters.now number ≡ Some (Cutter.Dissect reading)) }
    ensures { slice_get cutters.now number ≡ Some (Cutter.Dissect result.now) }
{
    match cutters.get(number as usize) {
        Some(Cutter::Dissect(dissect)) => dissect,
        Some(Cutter::Grok(_)) | None => unreachable!(),
    }
}

/// The pattern of GROK of a number.
pub(crate) fn grok_at(cutters: &[Cutter], number: u32) -> &Grok
    requires { (reading : GrokRead) × (slice_get cutters.now number ≡ Some (Cutter.Grok reading)) }
    ensures { slice_get cutters.now number ≡ Some (Cutter.Grok result.now) }
{
    match cutters.get(number as usize) {
        Some(Cutter::Grok(grok)) => grok,
        Some(Cutter::Dissect(_)) | None => unreachable!(),
    }
}

/// Puts the texts that a pattern of DISSECT cuts out of a column into new columns of each row.
pub(crate) fn dissect_rows(
    alloc: Global,
    input: ColId,
    dissect: &Dissect,
    to: &[NewColumn],
    rows: Seq<Seq<Cell>>,
) -> Result<Seq<Seq<Cell>>, AllocError>
    ensures { IfOk result (λ new. new ≡ flat_map (kept_taken (λ count cell. taken_of_cell count (dissected_by (Some dissect.now)) cell) input to.now) rows) }
{
    let mut new = Seq::new(alloc);
    for row in rows.into_vec() {
        let cells = dissect_row(alloc, input, dissect, to.len(), &row)?;
        new.push(put_new(alloc, row, to, cells)?)?;
    }
    Ok(new)
}

/// What a row's cell of a column gives for so many columns.
fn dissect_row(
    alloc: Global,
    input: ColId,
    dissect: &Dissect,
    count: usize,
    row: &Seq<Cell>,
) -> Result<Seq<Cell>, AllocError>
    ensures { IfOk result (λ cells. cells ≡ (taken_of_cell count (dissected_by (Some dissect.now)) (row_of row.now input.0)).cells) }
{
    match row.at(input.0 as usize) {
        Some(cell) => cut_cell(alloc, dissect, count, cell),
        None => no_cells(alloc, count),
    }
}

/// What the values of a cell give one after another.
fn cut_cell(
    alloc: Global,
    dissect: &Dissect,
    count: usize,
    cell: &Cell,
) -> Result<Seq<Cell>, AllocError>
    ensures { IfOk result (λ cells. cells ≡ (taken_of_cell count (dissected_by (Some dissect.now)) cell.now).cells) }
{
    let mut cells = no_cells(alloc, count)?;
    for value in cell.as_slice() {
        let more = cut_value(alloc, dissect, value)?;
        cells = joined(alloc, cells, more)?;
    }
    Ok(cells)
}

fn cut_value(alloc: Global, dissect: &Dissect, value: &Value) -> Result<Seq<Cell>, AllocError>
    ensures { IfOk result (λ cells. cells ≡ (dissected_by (Some dissect.now) value.now).cells) }
{
    let Value::Text(text) = value else {
        return Ok(Seq::new(alloc));
    };
    match dissect.cut(alloc, text.as_str())? {
        Some(texts) => text_cells(alloc, texts),
        None => Ok(Seq::new(alloc)),
    }
}

fn text_cells(alloc: Global, texts: Seq<Text>) -> Result<Seq<Cell>, AllocError>
    ensures { IfOk result (λ cells. cells ≡ map text_cell texts) }
{
    let mut cells = Seq::new(alloc);
    for text in texts.into_vec() {
        cells.push(Cell::one(alloc, Value::Text(text)))?;
    }
    Ok(cells)
}

/// Puts what a pattern of GROK takes out of a column into new columns of each row; what does not convert is noted.
pub(crate) fn grok_rows(
    alloc: Global,
    node: NodeId,
    input: ColId,
    grok: &Grok,
    to: &[NewColumn],
    rows: Seq<Seq<Cell>>,
    patterns: &Patterns,
    log: &mut Log,
) -> Result<Seq<Seq<Cell>>, AllocError>
    requires { TakenBelow (length log.old) (taken_of_cell (length to.now) (grokked_by node (Some grok.now))) }
    ensures rows { IfOk result (λ new. new ≡ flat_map (kept_taken (λ count cell. taken_of_cell count (grokked_by node (Some grok.now)) cell) input to.now) rows) }
    ensures log { OnOk result (log.new ≡ logged log.old (flat_map (λ row. (taken_of_cell (length to.now) (grokked_by node (Some grok.now)) (row_of row input.0)).failures) rows)) }
    ensures nodes { OnOk result (length log.new ≡ length log.old) }
{
    let mut new = Seq::new(alloc);
    for row in rows.into_vec() {
        let cells = grok_row(alloc, node, input, grok, to.len(), &row, patterns, log)?;
        new.push(put_new(alloc, row, to, cells)?)?;
    }
    Ok(new)
}

/// What a row's cell of a column gives for so many columns; what does not convert is noted.
fn grok_row(
    alloc: Global,
    node: NodeId,
    input: ColId,
    grok: &Grok,
    count: usize,
    row: &Seq<Cell>,
    patterns: &Patterns,
    log: &mut Log,
) -> Result<Seq<Cell>, AllocError>
    requires { AreBelow (length log.old) (taken_of_cell count (grokked_by node (Some grok.now)) (row_of row.now input.0)).failures }
    ensures cells { IfOk result (λ cells. cells ≡ (taken_of_cell count (grokked_by node (Some grok.now)) (row_of row.now input.0)).cells) }
    ensures log { OnOk result (log.new ≡ logged log.old (taken_of_cell count (grokked_by node (Some grok.now)) (row_of row.now input.0)).failures) }
    ensures nodes { OnOk result (length log.new ≡ length log.old) }
{
    match row.at(input.0 as usize) {
        Some(cell) => {
            let mut failures = Seq::new(alloc);
            let cells = take_cell(alloc, node, grok, count, cell, patterns, &mut failures)?;
            note_failures(log, failures);
            Ok(cells)
        }
        None => no_cells(alloc, count),
    }
}

/// What the values of a cell give one after another.
fn take_cell(
    alloc: Global,
    node: NodeId,
    grok: &Grok,
    count: usize,
    cell: &Cell,
    patterns: &Patterns,
    failures: &mut Seq<Failure>,
) -> Result<Seq<Cell>, AllocError>
    ensures cells { IfOk result (λ cells. cells ≡ (taken_of_cell count (grokked_by node (Some grok.now)) cell.now).cells) }
    ensures failures { OnOk result (failures.new ≡ failures.old ++ (taken_of_cell count (grokked_by node (Some grok.now)) cell.now).failures) }
{
    let mut cells = no_cells(alloc, count)?;
    for value in cell.as_slice() {
        let more = take_value(alloc, node, grok, value, patterns, failures)?;
        cells = joined(alloc, cells, more)?;
    }
    Ok(cells)
}

fn take_value(
    alloc: Global,
    node: NodeId,
    grok: &Grok,
    value: &Value,
    patterns: &Patterns,
    failures: &mut Seq<Failure>,
) -> Result<Seq<Cell>, AllocError>
    ensures cells { IfOk result (λ cells. cells ≡ (grokked_by node (Some grok.now) value.now).cells) }
    ensures failures { OnOk result (failures.new ≡ failures.old ++ (grokked_by node (Some grok.now) value.now).failures) }
{
    let Value::Text(text) = value else {
        return Ok(Seq::new(alloc));
    };
    let columns = grok.columns().as_slice();
    match grok.take(alloc, text.as_str())? {
        Some(taken) => convert_columns(alloc, node, columns, taken, patterns, failures),
        None => Ok(Seq::new(alloc)),
    }
}

/// The texts that columns take, as values of their kinds.
fn convert_columns(
    alloc: Global,
    node: NodeId,
    columns: &[Column],
    taken: Seq<Seq<Text>>,
    patterns: &Patterns,
    failures: &mut Seq<Failure>,
) -> Result<Seq<Cell>, AllocError>
    ensures cells { IfOk result (λ cells. cells ≡ map (λ valued. valued.cell) (converted_columns node columns.now taken)) }
    ensures failures { OnOk result (failures.new ≡ failures.old ++ flat_map (λ valued. valued.failures) (converted_columns node columns.now taken)) }
{
    let mut left = taken.into_vec().into_iter();
    let mut cells = Seq::new(alloc);
    for column in columns {
        let Some(texts) = left.next() else {
            return Ok(cells);
        };
        cells.push(convert(alloc, node, column.kind, texts, patterns, failures)?)?;
    }
    Ok(cells)
}

/// Texts as values of a kind; what is none is a failure of the node.
fn convert(
    alloc: Global,
    node: NodeId,
    kind: Kind,
    texts: Seq<Text>,
    patterns: &Patterns,
    failures: &mut Seq<Failure>,
) -> Result<Cell, AllocError>
    ensures cell { IfOk result (λ cell. cell ≡ (converted node kind texts).cell) }
    ensures failures { OnOk result (failures.new ≡ failures.old ++ (converted node kind texts).failures) }
{
    let cell = cell_of_texts(alloc, texts)?;
    match kind {
        Kind::Integer => apply_to(alloc, node, Function::ToInteger, cell, patterns, failures),
        Kind::Long => apply_to(alloc, node, Function::ToLong, cell, patterns, failures),
        Kind::Boolean => apply_to(alloc, node, Function::ToBoolean, cell, patterns, failures),
        Kind::Keyword | Kind::Null => Ok(cell),
    }
}

fn apply_to(
    alloc: Global,
    node: NodeId,
    function: Function,
    cell: Cell,
    patterns: &Patterns,
    failures: &mut Seq<Failure>,
) -> Result<Cell, AllocError>
    requires cells { branches_of function ≡ None }
    requires rlike { function ≡ Function.Rlike → ⊥ }
    requires not_rlike { function ≡ Function.NotRlike → ⊥ }
    requires replace { function ≡ Function.Replace → ⊥ }
    ensures cell { IfOk result (λ made. made ≡ (applied function node (silent cell ∷ [])).cell) }
    ensures failures { OnOk result (failures.new ≡ failures.old ++ (applied function node (silent cell ∷ [])).failures) }
{
    apply(alloc, node, function, &[cell], None, patterns, failures)
}

fn cell_of_texts(alloc: Global, texts: Seq<Text>) -> Result<Cell, AllocError>
    ensures { IfOk result (λ cell. cell ≡ map Held.Text texts) }
{
    let mut cell = Cell::null(alloc);
    for text in texts.into_vec() {
        cell.push(Value::Text(text))?;
    }
    Ok(cell)
}

/// So many nulls.
fn no_cells(alloc: Global, count: usize) -> Result<Seq<Cell>, AllocError>
    ensures { IfOk result (λ cells. cells ≡ nulls count) }
{
    let mut cells = Seq::new(alloc);
    for _ in 0..count {
        cells.push(Cell::null(alloc))?;
    }
    Ok(cells)
}

/// Each cell, with the values of the other at its place behind its own.
fn joined(alloc: Global, cells: Seq<Cell>, others: Seq<Cell>) -> Result<Seq<Cell>, AllocError>
    ensures { IfOk result (λ both. both ≡ joined_cells cells others) }
{
    let mut left = others.into_vec().into_iter();
    let mut both = Seq::new(alloc);
    for cell in cells.into_vec() {
        both.push(with_values(cell, left.next())?)?;
    }
    Ok(both)
}

/// A cell with the values of another behind its own.
fn with_values(cell: Cell, other: Option<Cell>) -> Result<Cell, AllocError>
    ensures { IfOk result (λ both. both ≡ values_behind cell other) }
{
    let Some(other) = other else {
        return Ok(cell);
    };
    if cell.len() == 0 {
        return Ok(other);
    }
    let mut cell = cell;
    for value in other.as_slice() {
        cell.push(value.copy()?)?;
    }
    Ok(cell)
}

/// The row with a cell in each of new columns; null where there is none for it.
pub(crate) fn put_new(
    alloc: Global,
    row: Seq<Cell>,
    to: &[NewColumn],
    cells: Seq<Cell>,
) -> Result<Seq<Cell>, AllocError>
    ensures { IfOk result (λ new. new ≡ kept_new row to.now cells) }
{
    let mut row = row;
    let mut left = cells.into_vec().into_iter();
    for new in to {
        let cell = match left.next() {
            Some(cell) => cell,
            None => Cell::null(alloc),
        };
        put_cell(alloc, &mut row, new.id.0 as usize, cell)?;
    }
    Ok(row)
}
