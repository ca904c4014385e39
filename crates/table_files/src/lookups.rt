//! Finding the tables that names stand for.
ghost use Rattle.std.specs.Prelude.{◌≡◌, ◌≤◌, ◌+◌, true, length, All, IfOk};
ghost use Rattle.std.specs.Option.{option_copied};
ghost use Rattle.esql_types.specs.Spans.{SpanFits};
ghost use Rattle.ndjson_load.specs.Shapes.{IsLoadable, NamesRise};
ghost use Rattle.table_files.specs.Asked.{AskedForFiles, AskedForTable};
ghost use Rattle.table_files.specs.Catalog.{AddsTable, StandsFor};
ghost use Rattle.table_files.specs.Found.{has_table, name_of};
ghost use Rattle.table_files.specs.InTurn.{AskedInTurn, InTurn};
ghost use Rattle.table_files.specs.Policies.{names_at};
ghost use Rattle.table_files.specs.Reading.{IsFinding};
ghost use Rattle.table_files.specs.Shapes.{entries_in};
ghost use Rattle.table_files.specs.Stops.{CalledUntilStop, Says};

use crate::Stop;
use crate::findings::Findings;
use crate::messages::{mapping_file, row_file};
use crate::reading::{MAX_ENTRIES, find_file, read_columns, read_file};
use crate::stop::unknown_table;
use crate::tables::FoundTable;
use esql_io::Files;
use esql_types::{Span, Text};
use std::alloc::Global;

/// The table that a name stands for after so many entries, the name itself or, for a policy, one of its tables.
fn look_up<F: Files>(
    alloc: Global,
    text: &str,
    folder: Option<&str>,
    files: &mut F,
    policy: bool,
    name: &str,
    span: Span,
    entries: usize,
) -> Result<FoundTable, Stop>
    requires fits { SpanFits text.now span }
    requires room { entries ≤ MAX_ENTRIES }
    ensures told { Says text.now (StandsFor (option_copied folder.entry) (F.holds files.old) policy entries (record { name = name.now; span = span })) result }
    ensures loadable { IfOk result (λ found. All IsLoadable found.columns) }
    ensures rise { IfOk result (λ found. NamesRise found.columns) }
    ensures few { IfOk result (λ found. entries + 1 + length found.columns ≤ MAX_ENTRIES) }
    ensures named_so { IfOk result (λ found. name_of found ≡ record { name = name.now; span = span }) }
    ensures called { CalledUntilStop F.holds F.faults F.failed (AskedForFiles (option_copied folder.entry) (F.holds files.old) name.now) result files.old files.new }
{
    let file = mapping_file(alloc, folder, name)?;
    let Some(bytes) = read_file(alloc, files, file.as_str())? else {
        return Err(unknown_table(alloc, text, policy, name, span)?);
    };
    if !find_file(files, row_file(alloc, folder, name)?)? {
        return Err(unknown_table(alloc, text, policy, name, span)?);
    }
    let columns = read_columns(alloc, bytes.as_slice(), file.as_str(), entries)?;
    Ok(FoundTable {
        name: Text::from_str(alloc, name)?,
        span,
        policy,
        columns,
    })
}

/// What was found with the table of a name, beside so many entries.
pub(crate) fn find_table<F: Files>(
    alloc: Global,
    text: &str,
    folder: Option<&str>,
    files: &mut F,
    policy: bool,
    name: &str,
    span: Span,
    beside: usize,
    findings: Findings,
) -> Result<Findings, Stop>
    requires fits { SpanFits text.now span }
    requires room { entries_in findings + beside ≤ MAX_ENTRIES }
    requires finding { IsFinding findings }
    ensures told { Says text.now (AddsTable (option_copied folder.entry) (F.holds files.old) policy beside findings (record { name = name.now; span = span })) result }
    ensures finding { IfOk result IsFinding }
    ensures room { IfOk result (λ new. entries_in new + beside ≤ MAX_ENTRIES) }
    ensures called { CalledUntilStop F.holds F.faults F.failed (AskedForTable (option_copied folder.entry) (F.holds files.old) findings (record { name = name.now; span = span })) result files.old files.new }
{
    if findings.number_of(name).is_some() {
        return Ok(findings);
    }
    let entries = findings.entries() + beside;
    let table = look_up(alloc, text, folder, files, policy, name, span, entries)?;
    Ok(findings.with_table(alloc, table)?)
}

/// What was found with the tables of a policy in turn, beside so many entries.
pub(crate) fn find_tables<F: Files>(
    alloc: Global,
    text: &str,
    folder: Option<&str>,
    files: &mut F,
    names: &[Text],
    span: Span,
    beside: usize,
    findings: Findings,
) -> Result<Findings, Stop>
    requires fits { SpanFits text.now span }
    requires room { entries_in findings + beside ≤ MAX_ENTRIES }
    requires finding { IsFinding findings }
    ensures told { Says text.now (InTurn (AddsTable (option_copied folder.entry) (F.holds files.old) true beside) findings (names_at span names.now)) result }
    ensures finding { IfOk result IsFinding }
    ensures room { IfOk result (λ new. entries_in new + beside ≤ MAX_ENTRIES) }
    ensures all { IfOk result (λ new. All (λ name. has_table new.tables name ≡ true) names.now) }
    ensures same { IfOk result (λ new. new.policies ≡ findings.policies) }
    ensures called { CalledUntilStop F.holds F.faults F.failed (AskedInTurn (AddsTable (option_copied folder.entry) (F.holds files.old) true beside) (AskedForTable (option_copied folder.entry) (F.holds files.old)) findings (names_at span names.now)) result files.old files.new }
{
    let mut findings = findings;
    for name in names {
        findings = find_table(
            alloc,
            text,
            folder,
            files,
            true,
            name.as_str(),
            span,
            beside,
            findings,
        )?;
    }
    Ok(findings)
}
