ghost use Rattle.std.specs.Prelude.{◌≡◌, map, IfOk};
ghost use Rattle.std.specs.List.{list_all};
ghost use Rattle.esql_plan.specs.Exprs.{constant_at};
ghost use Rattle.esql_plan.specs.Rules.{is_integer, is_number};
ghost use Rattle.row_semantics.specs.Forms.{constant_in, list_in_kind, kind_of_list, is_boolean, is_keyword, widened};
ghost use Rattle.expression_analysis.specs.Steps.{IsPlainAnswer, constant_or_rule};

use crate::AnalyzeError;
use esql_plan::{TypedExpr, TypedForm};
use esql_types::{Cell, Kind, NodeId, Span, Value};
use row_semantics::NameRule;
use std::alloc::{AllocError, Global};

/// A constant, whose values go together as those of a list do; NULL has none.
pub(crate) fn typed_constant(
    alloc: Global,
    node: NodeId,
    span: Span,
    values: &[Value],
) -> Result<TypedExpr, AnalyzeError>
    ensures { IsPlainAnswer (constant_or_rule node (constant_in values.now span)) result }
{
    match values {
        [] => Ok(constant(node, Kind::Null, Cell::null(alloc))),
        _ => typed_list(alloc, node, span, values),
    }
}

/// A list of constants of one kind, where integers with longs are widened.
pub(crate) fn typed_list(
    alloc: Global,
    node: NodeId,
    span: Span,
    values: &[Value],
) -> Result<TypedExpr, AnalyzeError>
    ensures { IsPlainAnswer (constant_or_rule node (list_in_kind values.now (kind_of_list values.now) span)) result }
{
    match kind_of_list(values) {
        None => Err(AnalyzeError::Broken {
            rule: NameRule::BadKind,
            span,
        }),
        Some(Kind::Long) => Ok(constant(node, Kind::Long, widened_cell(alloc, values)?)),
        Some(kind) => Ok(constant(node, kind, cell_of(alloc, values)?)),
    }
}

pub(crate) fn constant(node: NodeId, kind: Kind, cell: Cell) -> TypedExpr
    ensures { result ≡ constant_at node kind cell }
{
    TypedExpr {
        node,
        kind,
        form: TypedForm::Constant { cell },
    }
}

/// The kind of a list, `None` where its values do not go together.
fn kind_of_list(values: &[Value]) -> Option<Kind>
    ensures { result ≡ kind_of_list values.now }
{
    if are_integers(values) {
        Some(Kind::Integer)
    } else if are_numbers(values) {
        Some(Kind::Long)
    } else if are_booleans(values) {
        Some(Kind::Boolean)
    } else if are_keywords(values) {
        Some(Kind::Keyword)
    } else {
        None
    }
}

fn are_integers(values: &[Value]) -> bool
    ensures { result ≡ list_all is_integer values.now }
{
    values.iter().all(is_integer)
}

fn are_numbers(values: &[Value]) -> bool
    ensures { result ≡ list_all is_number values.now }
{
    values.iter().all(is_number)
}

fn are_booleans(values: &[Value]) -> bool
    ensures { result ≡ list_all is_boolean values.now }
{
    values.iter().all(is_boolean)
}

fn are_keywords(values: &[Value]) -> bool
    ensures { result ≡ list_all is_keyword values.now }
{
    values.iter().all(is_keyword)
}

fn is_integer(value: &Value) -> bool
    ensures { result ≡ is_integer value.now }
{
    matches!(value, Value::Int(_))
}

fn is_number(value: &Value) -> bool
    ensures { result ≡ is_number value.now }
{
    matches!(value, Value::Int(_) | Value::Long(_))
}

fn is_boolean(value: &Value) -> bool
    ensures { result ≡ is_boolean value.now }
{
    matches!(value, Value::Bool(_))
}

fn is_keyword(value: &Value) -> bool
    ensures { result ≡ is_keyword value.now }
{
    matches!(value, Value::Text(_))
}

fn cell_of(alloc: Global, values: &[Value]) -> Result<Cell, AllocError>
    ensures { IfOk result (λ cell. cell ≡ values.now) }
{
    let mut cell = Cell::null(alloc);
    for value in values {
        cell.push(value.copy()?)?;
    }
    Ok(cell)
}

fn widened_cell(alloc: Global, values: &[Value]) -> Result<Cell, AllocError>
    ensures { IfOk result (λ cell. cell ≡ map widened values.now) }
{
    let mut cell = Cell::null(alloc);
    for value in values {
        cell.push(widened(value)?)?;
    }
    Ok(cell)
}

fn widened(value: &Value) -> Result<Value, AllocError>
    ensures { IfOk result (λ made. made ≡ widened value.now) }
{
    match value {
        Value::Int(number) => Ok(Value::Long(i64::from(*number))),
        other => other.copy(),
    }
}
