ghost use Rattle.std.specs.Prelude.{◌≡◌, ◌≤◌, ◌+◌, ◌++◌, ◌<◌, [], ◌∷◌, length, IfOk};
ghost use Rattle.std.specs.Option.{option_copied};
ghost use Rattle.std.specs.List.{flat_map};
ghost use Rattle.esql_types.specs.Spans.{SpanFits};
ghost use Rattle.esql_ast.specs.Fits.{FieldFits, FieldsFit};
ghost use Rattle.esql_ast.specs.Nodes.{nodes_of_expr, nodes_of_field};
ghost use Rattle.esql_plan.specs.declared.step.Step.TheVariants.{Eval};
ghost use Rattle.esql_plan.specs.Signatures.{is_kind};
ghost use Rattle.plan_semantics.specs.Plans.{columns_of};
ghost use Rattle.row_semantics.specs.Fields.{column_of, name_of_field};
ghost use Rattle.query_semantics.specs.Shapes.{shape_of_field, shape_of_fields, shape_of_condition};
ghost use Rattle.query_semantics.specs.Writings.{put_visible, column_at};
ghost use Rattle.query_semantics.specs.Written.{write_field, write_fields, write_condition};
ghost use Rattle.expression_analysis.specs.Answers.{regulars_of_expr};
ghost use Rattle.plan_writing.specs.Contexts.{over};
ghost use Rattle.plan_writing.specs.Writings.{seen, HasRoom};
ghost use Rattle.plan_writing.specs.Answers.{Writes, Hears};
ghost use Rattle.plan_writing.specs.Regulars.{regulars_of_field};

use crate::columns::put_visible;
use crate::writing::Writing;
use esql_ast::{Expr, Field, Form};
use esql_plan::{Step, TypedExpr};
use esql_types::{ColId, Kind, Maker, NodeId, Text, text_at};
use expression_analysis::{AnalyzeError, typed_expr};
use row_semantics::NameRule;
use std::alloc::{AllocError, Global};

/// The name of an expression, where it is one column without parentheses.
fn column_of(expr: &Expr) -> Option<&Text>
    ensures { option_copied result ≡ column_of expr.now }
{
    match &expr.form {
        Form::Column { name } => Some(name),
        _ => None,
    }
}

/// The name of a field's column: the one that it is given, or that of the column that it is, or else its text.
pub fn name_of_field(alloc: Global, text: &str, field: &Field) -> Result<Text, AllocError>
    requires { SpanFits text.now field.now.span }
    ensures { IfOk result (λ name. name ≡ name_of_field text.now field.now) }
{
    match &field.name {
        Some(name) => name.name.copy(),
        None => match column_of(&field.expr) {
            Some(name) => name.copy(),
            None => Text::from_str(alloc, text_at(text, field.span)),
        },
    }
}

// The step of a field whose expression is typed, and its column.
fn add_field(
    alloc: Global,
    text: &str,
    writing: Writing,
    field: &Field,
    typed: TypedExpr,
) -> Result<Writing, AllocError>
    requires fits { SpanFits text.now field.now.span }
    requires room { writing.next < 4294967295 }
    ensures visible { IfOk result (λ new. new.visible ≡ put_visible writing.visible (name_of_field text.now field.now) typed.kind writing.next) }
    ensures next { IfOk result (λ new. new.next ≡ writing.next + 1) }
    ensures patterns { IfOk result (λ new. new.patterns ≡ writing.patterns) }
    ensures cutters { IfOk result (λ new. new.cutters ≡ writing.cutters) }
    ensures steps { IfOk result (λ new. new.steps ≡ writing.steps ++ Eval (column_at writing.next) typed ∷ []) }
{
    let Writing {
        visible,
        next,
        patterns,
        cutters,
        steps,
    } = writing;
    let name = name_of_field(alloc, text, field)?;
    let visible = put_visible(alloc, visible, name, typed.kind, next)?;
    let mut steps = steps;
    steps.push(Step::Eval {
        to: ColId(next),
        expr: typed,
    })?;
    Ok(Writing {
        visible,
        next: next + 1,
        patterns,
        cutters,
        steps,
    })
}

/// A field makes a column.
///
/// Refused: the first rule that its expression breaks; a pattern that is too large, up to which no rule is broken; and want of memory.
pub fn write_field<M: Maker>(
    alloc: Global,
    text: &str,
    writing: Writing,
    field: &Field,
    maker: &mut M,
) -> Result<Writing, AnalyzeError>
    requires fits { FieldFits text.now field.now }
    requires room { HasRoom (seen writing) (length (nodes_of_field field.now)) }
    ensures writes { Writes (λ accepts. shape_of_field (over text.now accepts) field.now (columns_of writing.visible)) (write_field text.now (seen writing) field.now) result }
    ensures hears { Hears M.refused M.last (regulars_of_field field.now) maker.old maker.new result }
{
    let Writing {
        visible,
        next,
        patterns,
        cutters,
        steps,
    } = writing;
    let mut patterns = patterns;
    let typed = typed_expr(alloc, &field.expr, &visible, &mut patterns, maker)?;
    let writing = Writing {
        visible,
        next,
        patterns,
        cutters,
        steps,
    };
    match add_field(alloc, text, writing, field, typed) {
        Ok(writing) => Ok(writing),
        Err(error) => Err(AnalyzeError::Memory(error)),
    }
}

/// Each field in turn makes a column.
///
/// Refused: the first rule that a field breaks, over the columns of those before it; a pattern that is too large, up to which no rule is broken; and want of memory.
pub fn write_fields<M: Maker>(
    alloc: Global,
    text: &str,
    writing: Writing,
    fields: &[Field],
    maker: &mut M,
) -> Result<Writing, AnalyzeError>
    requires fits { FieldsFit text.now fields.now }
    requires room { HasRoom (seen writing) (length (flat_map nodes_of_field fields.now)) }
    ensures writes { Writes (λ accepts. shape_of_fields (over text.now accepts) fields.now (columns_of writing.visible)) (write_fields text.now fields.now (seen writing)) result }
    ensures hears { Hears M.refused M.last (flat_map regulars_of_field fields.now) maker.old maker.new result }
{
    let mut writing = writing;
    for field in fields {
        writing = write_field(alloc, text, writing, field, maker)?;
    }
    Ok(writing)
}

// A condition is boolean or null.
fn is_condition(kind: Kind) -> bool
    ensures { result ≡ is_kind Kind.Boolean kind }
{
    matches!(kind, Kind::Boolean | Kind::Null)
}

/// A condition makes a step, and has to be boolean or null.
///
/// Refused: the first rule that it breaks; a pattern that is too large, up to which no rule is broken; and want of memory.
pub fn write_condition<M: Maker>(
    alloc: Global,
    writing: Writing,
    node: NodeId,
    condition: &Expr,
    maker: &mut M,
) -> Result<Writing, AnalyzeError>
    requires { HasRoom (seen writing) (length (nodes_of_expr condition.now)) }
    ensures writes { Writes (λ accepts. shape_of_condition (over [] accepts) condition.now (columns_of writing.visible)) (write_condition node condition.now (seen writing)) result }
    ensures hears { Hears M.refused M.last (regulars_of_expr condition.now) maker.old maker.new result }
{
    let Writing {
        visible,
        next,
        patterns,
        cutters,
        steps,
    } = writing;
    let mut patterns = patterns;
    let typed = typed_expr(alloc, condition, &visible, &mut patterns, maker)?;
    if !is_condition(typed.kind) {
        return Err(AnalyzeError::Broken {
            rule: NameRule::NotBoolean,
            span: condition.span,
        });
    }
    let mut steps = steps;
    steps.push(Step::Filter {
        node,
        condition: typed,
    })?;
    Ok(Writing {
        visible,
        next,
        patterns,
        cutters,
        steps,
    })
}
