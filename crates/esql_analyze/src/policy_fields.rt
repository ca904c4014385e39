ghost use Rattle.std.specs.Prelude.{◌≡◌, ◌≤◌, ◌++◌, ◌∷◌, [], List, None, length, IfOk, OnOk, IfErr};
ghost use Rattle.std.specs.BTreeMap.{get_by};
ghost use Rattle.std.specs.Cmp.Lexicographic.{slice_cmp};
ghost use Rattle.std.specs.List.{filter_map};
ghost use Rattle.std.specs.Ordering.{nat_cmp};
ghost use Rattle.esql_types.specs.declared.names.Column.{Column as Named};
ghost use Rattle.query_semantics.specs.Appended.{all_fields, fields_taken, item_name, taken_item};
ghost use Rattle.query_semantics.specs.AppendedShapes.{first_unknown, unknown_field, unless_unknown};
ghost use Rattle.expression_analysis.specs.Answers.{IsRefusal};
ghost use Rattle.esql_analyze.specs.Policies.{AreByName, AreTaken};

use esql_ast::EnrichItem;
use esql_types::{Column, Kind, Seq, Text};
use expression_analysis::AnalyzeError;
use row_semantics::NameRule;
use std::alloc::{AllocError, Global};
use std::collections::BTreeMap;

/// A field of a policy, without its name.
#[derive(Clone, Copy)]
pub(crate) struct Placed {
    pub(crate) number: u32,
    pub(crate) kind: Kind,
}

/// Fields of a policy by their numbers, and the columns that they become.
#[derive(Drop)]
pub(crate) struct Taken {
    pub(crate) numbers: Seq<u32>,
    pub(crate) columns: Seq<Column>,
}

// The first field of each name.
fn fields_by_name<'a>(
    alloc: Global,
    fields: &'a [Column],
) -> Result<BTreeMap<&'a str, Placed>, AllocError>
    requires { length fields.now ≤ 4294967295 }
    ensures { IfOk result (AreByName fields.now) }
{
    let mut named = BTreeMap::new(alloc);
    for back in 0..fields.len() {
        let place = fields.len() - 1 - back;
        let field = &fields[place];
        let placed = Placed {
            number: place as u32,
            kind: field.kind,
        };
        named.insert(field.name.as_str(), placed)?;
    }
    Ok(named)
}

fn field_named(named: &BTreeMap<&str, Placed>, name: &Text) -> Option<Placed>
    ensures { result ≡ get_by (λ key. slice_cmp nat_cmp name.now key.now) named.now }
{
    named.get(name.as_str()).copied()
}

// The name of the column that an item becomes.
fn item_name(item: &EnrichItem) -> &Text
    ensures { result.now ≡ item_name item.now }
{
    match &item.name {
        Some(name) => &name.name,
        None => &item.field.name,
    }
}

fn no_fields(alloc: Global) -> Taken
    ensures { AreTaken [] result }
{
    Taken {
        numbers: Seq::new(alloc),
        columns: Seq::new(alloc),
    }
}

fn take_one(taken: &mut Taken, field: Placed, name: &Text) -> Result<(), AllocError>
    ensures numbers { OnOk result (taken.new.numbers ≡ taken.old.numbers ++ field.number ∷ []) }
    ensures columns { OnOk result (taken.new.columns ≡ taken.old.columns ++ record { name = name.now; kind = field.kind } ∷ []) }
{
    taken.numbers.push(field.number)?;
    taken.columns.push(Column {
        name: name.copy()?,
        kind: field.kind,
    })
}

fn take_all(alloc: Global, fields: &[Column]) -> Result<Taken, AllocError>
    requires { length fields.now ≤ 4294967295 }
    ensures { IfOk result (AreTaken (all_fields 0 fields.now)) }
{
    let mut taken = no_fields(alloc);
    let mut number = 0;
    for field in fields {
        let placed = Placed {
            number,
            kind: field.kind,
        };
        take_one(&mut taken, placed, &field.name)?;
        number += 1;
    }
    Ok(taken)
}

fn take_items(alloc: Global, fields: &[Column], items: &[EnrichItem]) -> Result<Taken, AnalyzeError>
    requires { length fields.now ≤ 4294967295 }
    ensures known { OnOk result (first_unknown fields.now items.now ≡ None) }
    ensures taken { IfOk result (AreTaken (filter_map (taken_item fields.now) items.now)) }
    ensures refusal { IfErr result (λ error. (columns : List Named) → IsRefusal (λ accepts. unless_unknown (first_unknown fields.now items.now) columns) error) }
{
    let named = fields_by_name(alloc, fields)?;
    let mut taken = no_fields(alloc);
    for item in items {
        match field_named(&named, &item.field.name) {
            Some(field) => take_one(&mut taken, field, item_name(item))?,
            None => {
                return Err(AnalyzeError::Broken {
                    rule: NameRule::UnknownColumn,
                    span: item.field.span,
                });
            }
        }
    }
    Ok(taken)
}

/// The fields that are written, or all where none are; the first one that is not there breaks a rule.
pub(crate) fn take_fields(
    alloc: Global,
    fields: &[Column],
    items: &Option<Seq<EnrichItem>>,
) -> Result<Taken, AnalyzeError>
    requires { length fields.now ≤ 4294967295 }
    ensures known { OnOk result (unknown_field fields.now items.now ≡ None) }
    ensures taken { IfOk result (AreTaken (fields_taken fields.now items.now)) }
    ensures refusal { IfErr result (λ error. (columns : List Named) → IsRefusal (λ accepts. unless_unknown (unknown_field fields.now items.now) columns) error) }
{
    match items {
        None => Ok(take_all(alloc, fields)?),
        Some(items) => take_items(alloc, fields, items.as_slice()),
    }
}
