//! Finding the tables and policies that a query uses.
ghost use Rattle.std.specs.Prelude.{◌≤◌, ◌+◌, map, All, IfOk};
ghost use Rattle.std.specs.Option.{option_copied};
ghost use Rattle.esql_ast.specs.Fits.{NameFits, QueryFits};
ghost use Rattle.esql_ast.specs.Uses.{source_names};
ghost use Rattle.ndjson_load.specs.Shapes.{IsLoadable, NamesRise};
ghost use Rattle.plan_semantics.specs.WellFormed.{IsPolicyTable};
ghost use Rattle.table_files.specs.Answers.{GathersQuery};
ghost use Rattle.table_files.specs.Asked.{AskedForNamed, AskedForPolicy, AskedToFind};
ghost use Rattle.table_files.specs.Catalog.{AddsNamed, AddsPolicy, Gathers};
ghost use Rattle.table_files.specs.Found.{nothing, tables_of};
ghost use Rattle.table_files.specs.Reading.{IsFinding};
ghost use Rattle.table_files.specs.Shapes.{AreApart, entries_of, entries_of_policies};
ghost use Rattle.table_files.specs.Stops.{CalledUntilStop, Says};

use crate::catalog::shapes_of;
use crate::fields::shape_of_policy;
use crate::findings::Findings;
use crate::lookups::{find_table, find_tables};
use crate::messages::{mapping_message, policy_file};
use crate::reading::{MAX_ENTRIES, read_document, read_file};
use crate::stop::{bad_data, unknown_policy};
use crate::tables::sources_of;
use crate::{Gathered, Stop};
use esql_ast::{NameAt, Query, SourceUse, source_names};
use esql_io::Files;
use esql_plan::Catalog;
use ndjson_load::MappingError;
use std::alloc::Global;

/// The tables and policies that a query of a text uses, in turn, up to the first name that stands for none.
///
/// A table has a mapping `NAME.mapping.json` and a row file `NAME.ndjson`, in the folder where one is named, of which the
/// mapping alone is read. The query is `Refused` at a name that lacks one of them. A policy has a document `NAME.policy.json`; the
/// query is `Refused` at its name where it lacks that, or where one of its tables lacks a file. A mapping or document that is too large
/// or bad, or has with what was found before it more than 100,000 entries, is `BadData`, as is a policy over tables that do not have
/// its fields, each of one kind. Entries are the tables, their columns, the policies, and for each policy its tables, each once, and
/// its fields. `ReadFault` comes only where a call on the named file failed, which is one that was asked for, and where a call failed
/// nothing else does but `Memory`.
pub fn gather<F: Files>(
    alloc: Global,
    text: &str,
    query: &Query,
    folder: Option<&str>,
    files: &mut F,
) -> Result<Gathered, Stop>
    requires { QueryFits text.now query.now }
    ensures told { Says text.now (GathersQuery (option_copied folder.entry) (F.holds files.old) query.now) result }
    ensures loadable { IfOk result (λ gathered. All (λ table. All IsLoadable table.columns) (tables_of gathered)) }
    ensures rise { IfOk result (λ gathered. All (λ table. NamesRise table.columns) (tables_of gathered)) }
    ensures few { IfOk result (λ gathered. entries_of_policies gathered.catalog.policies + entries_of (tables_of gathered) ≤ MAX_ENTRIES) }
    ensures apart { IfOk result (λ gathered. AreApart (map (λ table. table.name) (tables_of gathered))) }
    ensures policies { IfOk result (λ gathered. All (λ policy. All (IsPolicyTable gathered.catalog policy) policy.tables) gathered.catalog.policies) }
    ensures called { CalledUntilStop F.holds F.faults F.failed (AskedToFind (option_copied folder.entry) (F.holds files.old) nothing (source_names query.now)) result files.old files.new }
{
    let uses = source_names(alloc, query)?;
    let findings = find_uses(alloc, text, folder, files, uses.as_slice())?;
    let (founds, policies) = findings.into_parts();
    let tables = shapes_of(alloc, founds.as_slice())?;
    let sources = sources_of(alloc, founds)?;
    Ok(Gathered {
        catalog: Catalog { tables, policies },
        sources,
    })
}

/// What uses stand for, in turn, up to the first that halts.
fn find_uses<F: Files>(
    alloc: Global,
    text: &str,
    folder: Option<&str>,
    files: &mut F,
    uses: &[SourceUse],
) -> Result<Findings, Stop>
    requires { All (λ use_. NameFits text.now use_.name) uses.now }
    ensures told { Says text.now (Gathers (option_copied folder.entry) (F.holds files.old) nothing uses.now) result }
    ensures finding { IfOk result IsFinding }
    ensures called { CalledUntilStop F.holds F.faults F.failed (AskedToFind (option_copied folder.entry) (F.holds files.old) nothing uses.now) result files.old files.new }
{
    let mut findings = Findings::new(alloc);
    for used in uses {
        findings = find_named(
            alloc,
            text,
            folder,
            files,
            used.policy,
            &used.name,
            findings,
        )?;
    }
    Ok(findings)
}

/// What was found with the table or the policy of a name.
fn find_named<F: Files>(
    alloc: Global,
    text: &str,
    folder: Option<&str>,
    files: &mut F,
    policy: bool,
    name: &NameAt,
    findings: Findings,
) -> Result<Findings, Stop>
    requires fits { NameFits text.now name.now }
    requires finding { IsFinding findings }
    ensures told { Says text.now (AddsNamed (option_copied folder.entry) (F.holds files.old) policy findings name.now) result }
    ensures finding { IfOk result IsFinding }
    ensures called { CalledUntilStop F.holds F.faults F.failed (AskedForNamed (option_copied folder.entry) (F.holds files.old) policy findings name.now) result files.old files.new }
{
    if policy {
        find_policy(alloc, text, folder, files, name, findings)
    } else {
        find_table(
            alloc,
            text,
            folder,
            files,
            false,
            name.name.as_str(),
            name.span,
            0,
            findings,
        )
    }
}

/// What was found with the policy of a name: its document, then its tables, then its fields.
fn find_policy<F: Files>(
    alloc: Global,
    text: &str,
    folder: Option<&str>,
    files: &mut F,
    name: &NameAt,
    findings: Findings,
) -> Result<Findings, Stop>
    requires fits { NameFits text.now name.now }
    requires finding { IsFinding findings }
    ensures told { Says text.now (AddsPolicy (option_copied folder.entry) (F.holds files.old) findings name.now) result }
    ensures finding { IfOk result IsFinding }
    ensures called { CalledUntilStop F.holds F.faults F.failed (AskedForPolicy (option_copied folder.entry) (F.holds files.old) findings name.now) result files.old files.new }
{
    let file = policy_file(alloc, folder, name.name.as_str())?;
    let Some(bytes) = read_file(alloc, files, file.as_str())? else {
        return Err(unknown_policy(alloc, text, name.span)?);
    };
    let (policy, tables) = read_document(
        alloc,
        bytes.as_slice(),
        file.as_str(),
        findings.entries(),
    )?;
    let beside = 1 + tables.len() + policy.fields.len();
    let findings = find_tables(
        alloc,
        text,
        folder,
        files,
        tables.as_slice(),
        name.span,
        beside,
        findings,
    )?;
    match shape_of_policy(
        alloc,
        &findings,
        name.name.as_str(),
        tables.as_slice(),
        &policy,
    ) {
        Ok(shape) => Ok(findings.with_policy(shape)?),
        Err(MappingError::Bad { cause }) => {
            Err(bad_data(alloc, mapping_message(alloc, file.as_str(), &cause)?)?)
        }
        Err(MappingError::Memory(error)) => Err(Stop::Memory(error)),
    }
}
