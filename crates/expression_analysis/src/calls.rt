ghost use Rattle.std.specs.Prelude.{◌≡◌, ◌&&◌, map, take, slice_index_or, Some, None, if◌then◌else◌, IfOk};
ghost use Rattle.std.specs.Option.{option_copied};
ghost use Rattle.row_semantics.specs.Forms.{is_word, function_in_plan, arguments_in_plan, takes};
ghost use Rattle.row_semantics.specs.Kinds.{wrong_literal, first_place};
ghost use Rattle.esql_plan.specs.Signatures.{is_at_most};
ghost use Rattle.expression_analysis.specs.Calls.{parts_at};
ghost use Rattle.expression_analysis.specs.Steps.{marks_of, kinds_in, IsCompletion};

use crate::AnalyzeError;
use crate::parts::Parts;
use crate::patterns::read_pattern;
use esql_ast::NodeAt;
use esql_plan::{Function, FunctionRow, TypedExpr, TypedForm};
use esql_types::{Kind, Maker, Seq, Span};
use function_signatures::{kind_of_call, misfit};
use row_semantics::NameRule;
use std::alloc::{AllocError, Global};
use text_match::Patterns;

/// A function of typed parts, of which the second is the literal: each has to fit, and then its regular expression is read.
#[tactic(none)]
pub(crate) fn completed<M: Maker>(
    alloc: Global,
    at: NodeAt,
    function: Function,
    parts: Parts,
    literal: Option<&str>,
    patterns: &mut Patterns,
    maker: &mut M,
) -> Result<TypedExpr, AnalyzeError>
    ensures { IsCompletion at.node function parts (option_copied literal.entry) at.span patterns.old patterns.new (marks_of M.refused M.last maker.old) (marks_of M.refused M.last maker.new) result }
{
    let Parts { args, spans } = parts;
    let wrong = wrong_literal(function, spans.as_slice(), literal);
    let in_plan = function_in_plan(function, spans.as_slice(), literal);
    let args = arguments_in_plan(function, args);
    let kinds = kinds_of(alloc, args.as_slice())?;
    if let Some(place) = first_place(misfit(in_plan, kinds.as_slice()), wrong) {
        return Err(AnalyzeError::Broken {
            rule: NameRule::BadKind,
            span: span_at(spans.as_slice(), place, at.span),
        });
    }
    let pattern = read_pattern(alloc, function, spans.as_slice(), literal, patterns, maker)?;
    Ok(TypedExpr {
        node: at.node,
        kind: kind_of_call(in_plan, kinds.as_slice()),
        form: TypedForm::Apply {
            function: in_plan,
            args,
            pattern,
        },
    })
}

fn kinds_of(alloc: Global, args: &[TypedExpr]) -> Result<Seq<Kind>, AllocError>
    ensures { IfOk result (λ kinds. kinds ≡ kinds_in args.now) }
{
    let mut kinds = Seq::new(alloc);
    for arg in args {
        kinds.push(arg.kind)?;
    }
    Ok(kinds)
}

fn span_at(spans: &[Span], place: usize, own: Span) -> Span
    ensures { result ≡ slice_index_or spans.now place own }
{
    match spans.get(place) {
        Some(span) => *span,
        None => own,
    }
}

fn first_place(place: Option<usize>, other: Option<usize>) -> Option<usize>
    ensures { result ≡ first_place place other }
{
    match (place, other) {
        (None, place) => place,
        (Some(place), None) => Some(place),
        (Some(place), Some(other)) => Some(place.min(other)),
    }
}

/// The place of an argument that has to be a literal and is none, or is another than the named ones.
fn wrong_literal(function: Function, spans: &[Span], literal: Option<&str>) -> Option<usize>
    ensures { result ≡ wrong_literal function (parts_at spans.now (option_copied literal.entry)) }
{
    if spans.len() < 2 {
        return None;
    }
    match function {
        Function::Replace => unless(literal.is_some()),
        Function::MvSort => unless(is_ascending(literal) || is_descending(literal)),
        _ => None,
    }
}

fn unless(right: bool) -> Option<usize>
    ensures { result ≡ (if right then None else Some 1) }
{
    if right { None } else { Some(1) }
}

/// Whether a literal says ascending, in any ASCII case.
fn is_ascending(literal: Option<&str>) -> bool
    ensures { result ≡ is_word "ASC" (option_copied literal.entry) }
{
    match literal {
        None => false,
        Some(text) => text.eq_ignore_ascii_case("ASC"),
    }
}

fn is_descending(literal: Option<&str>) -> bool
    ensures { result ≡ is_word "DESC" (option_copied literal.entry) }
{
    match literal {
        None => false,
        Some(text) => text.eq_ignore_ascii_case("DESC"),
    }
}

/// The function that stands in a plan: MV_SORT has its direction there.
fn function_in_plan(function: Function, spans: &[Span], literal: Option<&str>) -> Function
    ensures { result ≡ function_in_plan function (parts_at spans.now (option_copied literal.entry)) }
{
    match function {
        Function::MvSort => {
            if spans.len() >= 2 && is_descending(literal) {
                Function::MvSortDesc
            } else {
                Function::MvSort
            }
        }
        other => other,
    }
}

/// The arguments that stand in a plan: the direction of MV_SORT is none.
fn arguments_in_plan(function: Function, args: Seq<TypedExpr>) -> Seq<TypedExpr>
    ensures { result ≡ arguments_in_plan function args }
{
    match function {
        Function::MvSort => first_of(args),
        _ => args,
    }
}

fn first_of(args: Seq<TypedExpr>) -> Seq<TypedExpr>
    ensures { result ≡ take 1 args }
{
    let mut args = args.into_vec();
    args.truncate(1);
    Seq::from_vec(args)
}

/// Whether a call of the function may have so many arguments.
pub(crate) fn takes(row: FunctionRow, count: usize) -> bool
    ensures { result ≡ takes row count }
{
    row.least as usize <= count && is_at_most(row.most, count)
}

fn is_at_most(most: Option<u32>, count: usize) -> bool
    ensures { result ≡ is_at_most most count }
{
    match most {
        None => true,
        Some(most) => count <= most as usize,
    }
}
