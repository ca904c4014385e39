ghost use Rattle.std.specs.Prelude.{◌≡◌, ◌≤◌, ◌+◌, [], ℕ, List, None, Some, length, IfOk, IfErr};
ghost use Rattle.std.specs.Option.{option_map, option_copied};
ghost use Rattle.esql_plan.specs.Signatures.{is_numeric};
ghost use Rattle.esql_plan.specs.declared.step.Step.TheVariants as step;
ghost use Rattle.plan_semantics.specs.Plans.{columns_of};
ghost use Rattle.plan_semantics.specs.Taken.{kinds_match};
ghost use Rattle.query_semantics.specs.Appended.{policy_from, policy_named, matched_name, matched_at, fields_taken, taken_columns, taken_numbers};
ghost use Rattle.query_semantics.specs.AppendedShapes.{shape_of_enrich, shape_of_policy};
ghost use Rattle.query_semantics.specs.Catalogs.{IsCatalog};
ghost use Rattle.query_semantics.specs.Sizes.{fields_appended};
ghost use Rattle.query_semantics.specs.WrittenAppended.{write_enrich, write_new, write_policy};
ghost use Rattle.plan_writing.specs.Writings.{seen, HasRoom};
ghost use Rattle.plan_writing.specs.Answers.{Writes};
ghost use Rattle.esql_analyze.specs.Policies.{found_of};

use crate::appended::append;
use crate::policy_fields::{Taken, take_fields};
use esql_ast::{EnrichItem, NameAt};
use esql_plan::{Catalog, PolicyShape, Step};
use esql_types::{Kind, Seq, Span, Text};
use expression_analysis::AnalyzeError;
use plan_writing::Writing;
use row_semantics::NameRule;
use std::alloc::{AllocError, Global};
use visible_columns::Shown;

/// A policy and its number in the catalog.
#[derive(Clone, Copy)]
pub(crate) struct Found<'a> {
    pub(crate) number: u32,
    pub(crate) shape: &'a PolicyShape,
}

// The first policy of a name.
fn find_policy<'a>(policies: &'a [PolicyShape], name: &Text) -> Option<Found<'a>>
    requires { length policies.now ≤ 4294967295 }
    ensures { option_map found_of result ≡ policy_named policies.now name.now }
{
    let mut number = 0;
    for shape in policies {
        if shape.name.as_str() == name.as_str() {
            return Some(Found { number, shape });
        }
        number += 1;
    }
    None
}

// The name of the matched column: that of ON, or that of the match field.
fn matched_name<'a>(policy: &'a PolicyShape, on: &'a Option<NameAt>) -> &'a Text
    ensures { result.now ≡ matched_name policy.now on.now }
{
    match on {
        Some(on) => &on.name,
        None => &policy.match_field.name,
    }
}

fn matched_at(policy: &NameAt, on: &Option<NameAt>) -> Span
    ensures { result ≡ matched_at policy.now on.now }
{
    match on {
        Some(on) => on.span,
        None => policy.span,
    }
}

fn is_number(kind: Kind) -> bool
    ensures { result ≡ is_numeric kind }
{
    matches!(kind, Kind::Integer | Kind::Long)
}

// The kinds are equal, or both are numbers, or the column is null.
fn kinds_match(column: Kind, field: Kind) -> bool
    ensures { result ≡ kinds_match column field }
{
    match column {
        Kind::Null => true,
        Kind::Integer | Kind::Long => is_number(field),
        Kind::Boolean => matches!(field, Kind::Boolean),
        Kind::Keyword => matches!(field, Kind::Keyword),
    }
}

// The step of ENRICH over a matched column.
fn add_enrich(
    alloc: Global,
    writing: Writing,
    policy: u32,
    on: Shown,
    taken: Taken,
) -> Result<Writing, AllocError>
    requires { HasRoom (seen writing) (length taken.columns) }
    ensures { IfOk result (λ new. seen new ≡ write_new taken.columns [] (step.Enrich policy on.id taken.numbers) (seen writing)) }
{
    let appended = append(alloc, writing, taken.columns)?;
    let mut writing = appended.writing;
    writing.steps.push(Step::Enrich {
        policy,
        on: on.id,
        fields: taken.numbers,
        to: appended.to,
    })?;
    Ok(writing)
}

// ENRICH of a policy that is there: the matched column has to fit, then each field has to be there.
fn write_policy(
    alloc: Global,
    writing: Writing,
    found: Found<'_>,
    policy: &NameAt,
    on: &Option<NameAt>,
    items: &Option<Seq<EnrichItem>>,
) -> Result<Writing, AnalyzeError>
    requires few { length found.shape.now.fields ≤ 4294967295 }
    requires room { HasRoom (seen writing) (length (fields_taken found.shape.now.fields items.now)) }
    ensures { Writes (λ accepts. shape_of_policy (Some (found_of found.entry)) policy.now on.now items.now (columns_of writing.visible)) (write_policy (Some (found_of found.entry)) on.now items.now (seen writing)) result }
{
    let at = matched_at(policy, on);
    let name = matched_name(found.shape, on);
    let matched = match writing.visible.named(name.as_str()) {
        Some(matched) => matched,
        None => {
            return Err(AnalyzeError::Broken {
                rule: NameRule::UnknownColumn,
                span: at,
            });
        }
    };
    if !kinds_match(matched.kind, found.shape.match_field.kind) {
        return Err(AnalyzeError::Broken {
            rule: NameRule::BadKind,
            span: at,
        });
    }
    let taken = match take_fields(alloc, found.shape.fields.as_slice(), items) {
        Ok(taken) => taken,
        Err(error) => return Err(error),
    };
    match add_enrich(alloc, writing, found.number, matched, taken) {
        Ok(writing) => Ok(writing),
        Err(error) => Err(AnalyzeError::Memory(error)),
    }
}

/// ENRICH: the fields of the rows that a policy matches with a column.
pub(crate) fn write_enrich(
    alloc: Global,
    catalog: &Catalog,
    writing: Writing,
    policy: &NameAt,
    on: &Option<NameAt>,
    items: &Option<Seq<EnrichItem>>,
) -> Result<Writing, AnalyzeError>
    requires catalog { IsCatalog catalog.now }
    requires room { HasRoom (seen writing) (fields_appended (policy_named catalog.now.policies policy.now.name) items.now) }
    ensures { Writes (λ accepts. shape_of_enrich catalog.now.policies policy.now on.now items.now (columns_of writing.visible)) (write_enrich catalog.now.policies policy.now on.now items.now (seen writing)) result }
{
    let Some(found) = find_policy(catalog.policies.as_slice(), &policy.name) else {
        return Err(AnalyzeError::Broken {
            rule: NameRule::UnknownPolicy,
            span: policy.span,
        });
    };
    write_policy(alloc, writing, found, policy, on, items)
}
