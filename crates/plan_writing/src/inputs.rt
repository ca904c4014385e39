ghost use Rattle.std.specs.Prelude.{◌≡◌, ◌<◌, ◌+◌, ◌++◌, [], ◌∷◌, Ok, length, IfOk, IfErr};
ghost use Rattle.esql_ast.specs.Nodes.{nodes_of_expr};
ghost use Rattle.esql_plan.specs.declared.step.Step.TheVariants.{Eval};
ghost use Rattle.row_semantics.specs.Kinds.{kind_or_rule};
ghost use Rattle.row_semantics.specs.Regulars.{is_accepted};
ghost use Rattle.query_semantics.specs.Writings.{column_at, column_of_typed, input_of, write_input};
ghost use Rattle.expression_analysis.specs.Answers.{scope_of, IsRefusal, regulars_of_expr};
ghost use Rattle.plan_writing.specs.Writings.{seen, HasRoom};
ghost use Rattle.plan_writing.specs.Answers.{Hears};

use crate::writing::Writing;
use esql_ast::Expr;
use esql_plan::{Step, TypedExpr, TypedForm};
use esql_types::{ColId, Kind, Maker};
use expression_analysis::{AnalyzeError, typed_expr};
use std::alloc::{AllocError, Global};

/// The column that a step reads for an expression, the kind of it, and the plan that has it.
#[derive(Drop)]
pub struct Input {
    pub id: ColId,
    pub kind: Kind,
    pub writing: Writing,
}

/// The column that a typed expression is, if it is one.
pub fn column_of(typed: &TypedExpr) -> Option<ColId>
    ensures { result ≡ column_of_typed typed.now }
{
    match &typed.form {
        TypedForm::Column { id } => Some(*id),
        TypedForm::Constant { .. } | TypedForm::Apply { .. } => None,
    }
}

/// A column that cannot be seen is made of an expression.
pub fn make_input(writing: Writing, typed: TypedExpr) -> Result<Input, AllocError>
    requires { writing.next < 4294967295 }
    ensures id { IfOk result (λ input. input.id ≡ column_at writing.next) }
    ensures kind { IfOk result (λ input. input.kind ≡ typed.kind) }
    ensures visible { IfOk result (λ input. input.writing.visible ≡ writing.visible) }
    ensures next { IfOk result (λ input. input.writing.next ≡ writing.next + 1) }
    ensures patterns { IfOk result (λ input. input.writing.patterns ≡ writing.patterns) }
    ensures cutters { IfOk result (λ input. input.writing.cutters ≡ writing.cutters) }
    ensures steps { IfOk result (λ input. input.writing.steps ≡ writing.steps ++ Eval (column_at writing.next) typed ∷ []) }
{
    let Writing {
        visible,
        next,
        patterns,
        cutters,
        steps,
    } = writing;
    let kind = typed.kind;
    let mut steps = steps;
    steps.push(Step::Eval {
        to: ColId(next),
        expr: typed,
    })?;
    Ok(Input {
        id: ColId(next),
        kind,
        writing: Writing {
            visible,
            next: next + 1,
            patterns,
            cutters,
            steps,
        },
    })
}

/// What a step reads for an expression: the column that it is, or else a new one, which cannot be seen.
///
/// Refused: the first rule that the expression breaks; a pattern that is too large, up to which no rule is broken; and want of memory.
pub fn write_input<M: Maker>(
    alloc: Global,
    writing: Writing,
    expr: &Expr,
    maker: &mut M,
) -> Result<Input, AnalyzeError>
    requires { HasRoom (seen writing) (length (nodes_of_expr expr.now)) }
    ensures id { IfOk result (λ input. input.id ≡ input_of (seen writing) expr.now) }
    ensures kind { IfOk result (λ input. kind_or_rule expr.now (scope_of is_accepted writing.visible) ≡ Ok input.kind) }
    ensures visible { IfOk result (λ input. input.writing.visible ≡ writing.visible) }
    ensures written { IfOk result (λ input. seen input.writing ≡ write_input (seen writing) expr.now) }
    ensures refusal { IfErr result (IsRefusal (λ accepts. kind_or_rule expr.now (scope_of accepts writing.visible))) }
    ensures hears { Hears M.refused M.last (regulars_of_expr expr.now) maker.old maker.new result }
{
    let Writing {
        visible,
        next,
        patterns,
        cutters,
        steps,
    } = writing;
    let mut patterns = patterns;
    let typed = typed_expr(alloc, expr, &visible, &mut patterns, maker)?;
    let writing = Writing {
        visible,
        next,
        patterns,
        cutters,
        steps,
    };
    match column_of(&typed) {
        Some(id) => Ok(Input {
            id,
            kind: typed.kind,
            writing,
        }),
        None => Ok(make_input(writing, typed)?),
    }
}
