//! The fields of a policy over its tables.
ghost use Rattle.std.specs.Prelude.{◌≡◌, ℕ, List, true, All, IfOk, IfErr, OnOk, Ok, Err, map};
ghost use Rattle.std.specs.BTreeMap.{get_by_text};
ghost use Rattle.dissect_grok.specs.Groks as grok;
ghost use Rattle.ndjson_load.specs.Mappings.{IfBad};
ghost use Rattle.table_files.specs.Catalogs.{columns_of};
ghost use Rattle.table_files.specs.Fields.{AreOnce, field_by, fields_by, given_by, known_with, with_columns, FoldsKinds};
ghost use Rattle.table_files.specs.Found.{has_table};
ghost use Rattle.table_files.specs.Policies.{each_once, number_of, shape_of_policy};
ghost use Rattle.table_files.specs.Reading.{IsFinding};

use crate::findings::Findings;
use esql_plan::PolicyShape;
use esql_types::{Column, Kind, Seq, Text};
use ndjson_load::{MappedColumn, MappingCause, MappingError};
use policy_json::PolicyText;
use std::alloc::{AllocError, Global};
use std::collections::BTreeMap;

/// What the kinds of a column are in the tables that have it: one in all of them, or several.
#[derive(Clone, Copy, Drop)]
enum FieldKind {
    One(Kind),
    Several,
}

type Kinds = BTreeMap<String, FieldKind>;

fn is_same(kind: Kind, other: Kind) -> bool
    ensures { result ≡ grok.same_kind kind other }
{
    kind as u8 == other as u8
}

fn put_kind(alloc: Global, kinds: &mut Kinds, name: &str, kind: FieldKind) -> Result<(), AllocError>
    ensures { OnOk result ((other : List ℕ) → get_by_text kinds.new other ≡ known_with name.now kind (get_by_text kinds.old) other) }
{
    let name = String::from_str(alloc, name)?;
    kinds.insert(name, kind)?;
    Ok(())
}

// A table has a column of the name and the kind.
fn add_column(alloc: Global, kinds: &mut Kinds, column: &Column) -> Result<(), AllocError>
    ensures { OnOk result ((other : List ℕ) → get_by_text kinds.new other ≡ given_by column.now (get_by_text kinds.old) other) }
{
    let name = column.name.as_str();
    match kinds.get(name).copied() {
        None => put_kind(alloc, kinds, name, FieldKind::One(column.kind)),
        Some(FieldKind::One(kind)) if !is_same(kind, column.kind) => {
            put_kind(alloc, kinds, name, FieldKind::Several)
        }
        Some(_) => Ok(()),
    }
}

// A table has the columns.
fn add_columns(alloc: Global, kinds: &mut Kinds, columns: &[MappedColumn]) -> Result<(), AllocError>
    requires { AreOnce (columns_of columns.now) }
    ensures { OnOk result ((name : List ℕ) → get_by_text kinds.new name ≡ with_columns (columns_of columns.now) (get_by_text kinds.old) name) }
{
    for mapped in columns {
        add_column(alloc, kinds, &mapped.column)?;
    }
    Ok(())
}

// What the kinds are that tables give columns.
fn kinds_given(alloc: Global, findings: &Findings, tables: &[Text]) -> Result<Kinds, AllocError>
    requires { IsFinding findings.now }
    ensures { IfOk result (λ kinds. FoldsKinds findings.now.tables tables.now (get_by_text kinds)) }
{
    let mut kinds = BTreeMap::new(alloc);
    for name in tables {
        add_columns(alloc, &mut kinds, findings.columns_named(name.as_str()))?;
    }
    Ok(kinds)
}

fn field_of(alloc: Global, kinds: &Kinds, name: &str) -> Result<Column, MappingError>
    ensures ok { IfOk result (λ field. field_by (get_by_text kinds.now) name.now ≡ Ok field) }
    ensures bad { IfErr result (λ error. IfBad error (λ cause. field_by (get_by_text kinds.now) name.now ≡ Err cause)) }
{
    let known = kinds.get(name).copied();
    let name = Text::from_str(alloc, name)?;
    match known {
        None => Err(MappingError::Bad {
            cause: MappingCause::NoField { path: name },
        }),
        Some(FieldKind::Several) => Err(MappingError::Bad {
            cause: MappingCause::KindConflict { path: name },
        }),
        Some(FieldKind::One(kind)) => Ok(Column { name, kind }),
    }
}

fn fields_of(alloc: Global, kinds: &Kinds, names: &[Text]) -> Result<Seq<Column>, MappingError>
    ensures ok { IfOk result (λ fields. fields_by (get_by_text kinds.now) names.now ≡ Ok fields) }
    ensures bad { IfErr result (λ error. IfBad error (λ cause. fields_by (get_by_text kinds.now) names.now ≡ Err cause)) }
{
    let mut fields = Seq::new(alloc);
    for name in names {
        let field = field_of(alloc, kinds, name.as_str())?;
        fields.push(field)?;
    }
    Ok(fields)
}

fn numbers_of(alloc: Global, findings: &Findings, names: &[Text]) -> Result<Seq<u32>, AllocError>
    requires { All (λ name. has_table findings.now.tables name ≡ true) names.now }
    ensures { IfOk result (λ numbers. numbers ≡ map (number_of findings.now.tables) names.now) }
{
    let mut numbers = Seq::new(alloc);
    for name in names {
        let number = findings.number_of(name.as_str()).unwrap_or(0);
        numbers.push(number)?;
    }
    Ok(numbers)
}

/// The shape of a policy of a name over tables that were found, among which are its own, or what is wrong with the first of its
/// fields that is none.
pub(crate) fn shape_of_policy(
    alloc: Global,
    findings: &Findings,
    name: &str,
    tables: &[Text],
    policy: &PolicyText,
) -> Result<PolicyShape, MappingError>
    requires finding { IsFinding findings.now }
    requires once { tables.now ≡ each_once policy.now.indices }
    requires found { All (λ table. has_table findings.now.tables table ≡ true) tables.now }
    ensures ok { IfOk result (λ shape. shape_of_policy findings.now.tables name.now policy.now ≡ Ok shape) }
    ensures bad { IfErr result (λ error. IfBad error (λ cause. shape_of_policy findings.now.tables name.now policy.now ≡ Err cause)) }
{
    let kinds = kinds_given(alloc, findings, tables)?;
    let match_field = field_of(alloc, &kinds, policy.match_field.as_str())?;
    let fields = fields_of(alloc, &kinds, policy.fields.as_slice())?;
    let numbers = numbers_of(alloc, findings, tables)?;
    Ok(PolicyShape {
        name: Text::from_str(alloc, name)?,
        tables: numbers,
        match_field,
        fields,
    })
}
