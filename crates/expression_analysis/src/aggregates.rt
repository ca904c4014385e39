ghost use Rattle.std.specs.Prelude.{◌≡◌};
ghost use Rattle.std.specs.Option.{option_copied};
ghost use Rattle.row_semantics.specs.Kinds.{aggregate_fits, aggregate_kind, may_have_star, kind_of_argument};
ghost use Rattle.row_semantics.specs.Typed.{typed_call, call_at};
ghost use Rattle.expression_analysis.specs.Steps.{IsPlainAnswer, called_or_rule, kind_of_star};

use crate::AnalyzeError;
use crate::constants::constant;
use esql_plan::{AggFunction, TypedExpr, TypedForm};
use esql_types::{Cell, Kind, NodeId, Span};
use row_semantics::{CallColumn, NameRule};
use std::alloc::Global;

/// An aggregate of `*`, which COUNT alone may have.
pub(crate) fn star_call(
    alloc: Global,
    node: NodeId,
    span: Span,
    function: AggFunction,
    calls: &[CallColumn],
) -> Result<TypedExpr, AnalyzeError>
    ensures { IsPlainAnswer (called_or_rule node (kind_of_star function span) calls.now) result }
{
    if may_have_star(function) {
        Ok(typed_call(alloc, node, Kind::Long, calls))
    } else {
        Err(AnalyzeError::Broken {
            rule: NameRule::BadArguments,
            span,
        })
    }
}

/// An aggregate of a typed argument, whose kind has to fit.
pub(crate) fn argument_call(
    alloc: Global,
    node: NodeId,
    span: Span,
    function: AggFunction,
    argument: TypedExpr,
    calls: &[CallColumn],
) -> Result<TypedExpr, AnalyzeError>
    ensures { IsPlainAnswer (called_or_rule node (kind_of_argument function argument.kind span) calls.now) result }
{
    if aggregate_fits(function, argument.kind) {
        let kind = aggregate_kind(function, argument.kind);
        Ok(typed_call(alloc, node, kind, calls))
    } else {
        Err(AnalyzeError::Broken {
            rule: NameRule::BadKind,
            span,
        })
    }
}

/// The column that stands for an aggregate call; null where there is none so far.
fn typed_call(alloc: Global, node: NodeId, kind: Kind, calls: &[CallColumn]) -> TypedExpr
    ensures { result ≡ typed_call node kind (call_at calls.now node) }
{
    match call_at(calls, node) {
        Some(call) => TypedExpr {
            node,
            kind,
            form: TypedForm::Column { id: call.id },
        },
        None => constant(node, kind, Cell::null(alloc)),
    }
}

fn call_at(calls: &[CallColumn], node: NodeId) -> Option<&CallColumn>
    ensures { option_copied result ≡ call_at calls.now node }
{
    for call in calls {
        if call.node == node {
            return Some(call);
        }
    }
    None
}

fn may_have_star(function: AggFunction) -> bool
    ensures { result ≡ may_have_star function }
{
    matches!(function, AggFunction::CountRows | AggFunction::Count)
}

/// SUM takes numbers alone.
fn aggregate_fits(function: AggFunction, kind: Kind) -> bool
    ensures { result ≡ aggregate_fits function kind }
{
    match function {
        AggFunction::Sum => matches!(kind, Kind::Integer | Kind::Long | Kind::Null),
        _ => true,
    }
}

/// Counts and sums are longs.
fn aggregate_kind(function: AggFunction, kind: Kind) -> Kind
    ensures { result ≡ aggregate_kind function kind }
{
    match function {
        AggFunction::Min | AggFunction::Max | AggFunction::Values => kind,
        _ => Kind::Long,
    }
}
