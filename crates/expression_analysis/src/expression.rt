ghost use Rattle.std.specs.Prelude.{◌≡◌, ◌+◌, ◌≤◌, [], ◌∷◌, ◌++◌, Ok, Err, length, IfOk, OnOk, IfErr, if◌then◌else◌};
ghost use Rattle.esql_plan.specs.Names.{function_named, aggregate_named, cast_named};
ghost use Rattle.row_semantics.specs.Forms.{function_of, like_function, cast_by, call_by, call_of, part_of};
ghost use Rattle.row_semantics.specs.Kinds.{kind_or_rule, judged};
ghost use Rattle.row_semantics.specs.Regulars.{is_accepted};
ghost use Rattle.row_semantics.specs.Typed.{typing, typing_of, typed_of};
ghost use Rattle.expression_analysis.specs.Answers.{visible_of, scope_of, field_scope_of, regulars_in, regulars_of_expr, IsRefusal, IsTold, IsQuiet};
ghost use Rattle.expression_analysis.specs.Calls.{FewAreTaken};
ghost use Rattle.expression_analysis.specs.Steps.{marks_of, over_of, readings_of, readings_at, applied_to, aggregate_of, typings, judgeds, regular_parts, pattern_expr, IsAnswer, AddsNoPattern, AreAnswer};

use crate::AnalyzeError;
use crate::aggregates::{argument_call, star_call};
use crate::calls::{completed, takes};
use crate::columns::typed_column;
use crate::constants::{typed_constant, typed_list};
use crate::parts::{Parts, literal_at, literal_of};
use crate::sight::Sight;
use esql_ast::{BinaryOp, Expr, Form, NameAt, NodeAt, TextAt};
use esql_plan::{
    AggFunction, Function, FunctionRow, TypedExpr, cast_function, find_aggregate, find_function,
};
use esql_types::{Boxed, Maker, Seq, Span};
use row_semantics::{CallColumn, NameRule};
use std::alloc::Global;
use text_match::Patterns;
use visible_columns::VisibleColumns;

/// The typed form of an expression over the columns that can be seen; its regular expressions are built and added to
/// `patterns`.
///
/// # Errors
/// The first rule that the expression breaks; a regular expression that is too large to be built; want of memory. After an
/// error the patterns may be more than before.
pub fn typed_expr<M: Maker>(
    alloc: Global,
    expr: &Expr,
    columns: &VisibleColumns,
    patterns: &mut Patterns,
    maker: &mut M,
) -> Result<TypedExpr, AnalyzeError>
    requires whole { length patterns.old.whole + length (typing_of expr.now).whole ≤ 4294967295 }
    requires free { length patterns.old.free + length (typing_of expr.now).free ≤ 4294967295 }
    ensures typed { IfOk result (λ typed. typed ≡ typed_of expr.now (visible_of columns.now) (length patterns.old.whole) (length patterns.old.free)) }
    ensures kind { IfOk result (λ typed. kind_or_rule expr.now (scope_of is_accepted columns.now) ≡ Ok typed.kind) }
    ensures read { OnOk result ((patterns.new.whole ≡ patterns.old.whole ++ (typing_of expr.now).whole)
        × (patterns.new.free ≡ patterns.old.free ++ (typing_of expr.now).free)) }
    ensures refusal { IfErr result (IsRefusal (λ accepts. kind_or_rule expr.now (scope_of accepts columns.now))) }
    ensures room { IfErr result (IsTold M.refused M.last (regulars_of_expr expr.now) maker.old maker.new) }
    ensures count { M.refused maker.old ≤ M.refused maker.new }
    ensures quiet { IsQuiet M.refused M.last maker.old maker.new result }
{
    let sight = Sight {
        columns,
        calls: &[],
        in_field: false,
    };
    typed(alloc, expr, &sight, patterns, maker)
}

/// The typed form of an expression that stands in a field of STATS, where an aggregate call is the column that `calls` has for
/// it. What an aggregate's argument reads is read again where the argument itself is written: its patterns are not added here.
///
/// # Errors
/// Those of `typed_expr`.
pub fn typed_field<M: Maker>(
    alloc: Global,
    expr: &Expr,
    columns: &VisibleColumns,
    calls: &[CallColumn],
    patterns: &mut Patterns,
    maker: &mut M,
) -> Result<TypedExpr, AnalyzeError>
    requires whole { length patterns.old.whole + length (typing_of expr.now).whole ≤ 4294967295 }
    requires free { length patterns.old.free + length (typing_of expr.now).free ≤ 4294967295 }
    ensures typed { IfOk result (λ typed. typed ≡ typed_of expr.now (record { columns = columns.now; calls = calls.now }) (length patterns.old.whole) (length patterns.old.free)) }
    ensures kind { IfOk result (λ typed. kind_or_rule expr.now (field_scope_of is_accepted columns.now) ≡ Ok typed.kind) }
    ensures read { OnOk result ((patterns.new.whole ≡ patterns.old.whole ++ (typing_of expr.now).whole)
        × (patterns.new.free ≡ patterns.old.free ++ (typing_of expr.now).free)) }
    ensures refusal { IfErr result (IsRefusal (λ accepts. kind_or_rule expr.now (field_scope_of accepts columns.now))) }
    ensures room { IfErr result (IsTold M.refused M.last (regulars_of_expr expr.now) maker.old maker.new) }
    ensures count { M.refused maker.old ≤ M.refused maker.new }
    ensures quiet { IsQuiet M.refused M.last maker.old maker.new result }
{
    let sight = Sight {
        columns,
        calls,
        in_field: true,
    };
    typed(alloc, expr, &sight, patterns, maker)
}

#[cycle(typed)]
#[tactic(none)]
fn typed<M: Maker>(
    alloc: Global,
    expr: &Expr,
    sight: &Sight<'_>,
    patterns: &mut Patterns,
    maker: &mut M,
) -> Result<TypedExpr, AnalyzeError>
    ensures { IsAnswer (readings_of expr.now) (over_of sight.now) patterns.old patterns.new (marks_of M.refused M.last maker.old) (marks_of M.refused M.last maker.new) result }
{
    let at = NodeAt {
        node: expr.node,
        span: expr.span,
    };
    match &expr.form {
        Form::Constant { cell, .. } => typed_constant(alloc, expr.node, expr.span, cell.as_slice()),
        Form::List { values } => typed_list(alloc, expr.node, expr.span, values.as_slice()),
        Form::Column { name } => typed_column(expr.node, expr.span, name.as_str(), sight.columns),
        Form::Group { inner } => typed(alloc, inner.get(), sight, patterns, maker),
        Form::Call {
            function,
            args,
            star,
        } => call(alloc, at, function, args, *star, sight, patterns, maker),
        Form::Minus { arg } => unary(alloc, at, Function::Neg, arg, sight, patterns, maker),
        Form::Not { arg } => unary(alloc, at, Function::Not, arg, sight, patterns, maker),
        Form::Binary { op, left, right } => {
            let mut parts = Parts::new(alloc);
            add(alloc, left.get(), sight, &mut parts, patterns, maker)?;
            add(alloc, right.get(), sight, &mut parts, patterns, maker)?;
            let literal = literal_of(right.get());
            completed(alloc, at, function_of(*op), parts, literal, patterns, maker)
        }
        Form::Within {
            negated,
            left,
            items,
        } => {
            let mut parts = Parts::new(alloc);
            add(alloc, left.get(), sight, &mut parts, patterns, maker)?;
            add_all(alloc, items.as_slice(), sight, &mut parts, patterns, maker)?;
            let literal = literal_at(items.as_slice(), 0);
            completed(
                alloc,
                at,
                in_function(*negated),
                parts,
                literal,
                patterns,
                maker,
            )
        }
        Form::Like {
            negated,
            regex,
            left,
            pattern,
        } => {
            let function = like_function(*negated, *regex);
            like(alloc, at, function, left, pattern, sight, patterns, maker)
        }
        Form::IsNull { negated, arg } => {
            let function = null_function(*negated);
            unary(alloc, at, function, arg, sight, patterns, maker)
        }
        Form::Cast { arg, kind } => cast(alloc, at, arg, kind, sight, patterns, maker),
    }
}

/// Adds the typed form of an expression to parts.
#[cycle(typed)]
#[tactic(none)]
fn add<M: Maker>(
    alloc: Global,
    expr: &Expr,
    sight: &Sight<'_>,
    parts: &mut Parts,
    patterns: &mut Patterns,
    maker: &mut M,
) -> Result<(), AnalyzeError>
    ensures { AreAnswer (over_of sight.now) (expr.now ∷ []) parts.old parts.new patterns.old patterns.new (marks_of M.refused M.last maker.old) (marks_of M.refused M.last maker.new) result }
{
    let part = typed(alloc, expr, sight, patterns, maker)?;
    parts.push(part, expr.span)?;
    Ok(())
}

/// Adds the typed forms of expressions to parts, from the left.
#[cycle(typed)]
fn add_all<M: Maker>(
    alloc: Global,
    exprs: &[Expr],
    sight: &Sight<'_>,
    parts: &mut Parts,
    patterns: &mut Patterns,
    maker: &mut M,
) -> Result<(), AnalyzeError>
    ensures { AreAnswer (over_of sight.now) exprs.now parts.old parts.new patterns.old patterns.new (marks_of M.refused M.last maker.old) (marks_of M.refused M.last maker.new) result }
{
    for expr in exprs {
        add(alloc, expr, sight, parts, patterns, maker)?;
    }
    Ok(())
}

#[cycle(typed)]
#[tactic(none)]
fn unary<M: Maker>(
    alloc: Global,
    at: NodeAt,
    function: Function,
    arg: &Boxed<Expr>,
    sight: &Sight<'_>,
    patterns: &mut Patterns,
    maker: &mut M,
) -> Result<TypedExpr, AnalyzeError>
    ensures { IsAnswer (applied_to at.node at.span function (arg.now ∷ [])) (over_of sight.now) patterns.old patterns.new (marks_of M.refused M.last maker.old) (marks_of M.refused M.last maker.new) result }
{
    let mut parts = Parts::new(alloc);
    add(alloc, arg.get(), sight, &mut parts, patterns, maker)?;
    completed(alloc, at, function, parts, None, patterns, maker)
}

/// LIKE or RLIKE, whose pattern is a constant of the operator's node.
#[cycle(typed)]
#[tactic(none)]
fn like<M: Maker>(
    alloc: Global,
    at: NodeAt,
    function: Function,
    left: &Boxed<Expr>,
    pattern: &TextAt,
    sight: &Sight<'_>,
    patterns: &mut Patterns,
    maker: &mut M,
) -> Result<TypedExpr, AnalyzeError>
    ensures { IsAnswer (applied_to at.node at.span function (left.now ∷ pattern_expr at.node pattern.now ∷ [])) (over_of sight.now) patterns.old patterns.new (marks_of M.refused M.last maker.old) (marks_of M.refused M.last maker.new) result }
{
    let mut parts = Parts::new(alloc);
    add(alloc, left.get(), sight, &mut parts, patterns, maker)?;
    parts.push_pattern(alloc, at.node, pattern)?;
    let literal = Some(pattern.text.as_str());
    completed(alloc, at, function, parts, literal, patterns, maker)
}

/// A conversion to the kind of a name; a name that is no kind is refused behind what the argument breaks itself.
#[cycle(typed)]
#[tactic(none)]
fn cast<M: Maker>(
    alloc: Global,
    at: NodeAt,
    arg: &Boxed<Expr>,
    kind: &NameAt,
    sight: &Sight<'_>,
    patterns: &mut Patterns,
    maker: &mut M,
) -> Result<TypedExpr, AnalyzeError>
    ensures { IsAnswer (readings_at at.node at.span (cast_by (cast_named kind.now.name) (part_of typing arg.now) kind.now.span) (cast_by (cast_named kind.now.name) (part_of judged arg.now) kind.now.span) (cast_by (cast_named kind.now.name) (part_of regulars_in arg.now) kind.now.span)) (over_of sight.now) patterns.old patterns.new (marks_of M.refused M.last maker.old) (marks_of M.refused M.last maker.new) result }
{
    let mut parts = Parts::new(alloc);
    add(alloc, arg.get(), sight, &mut parts, patterns, maker)?;
    match cast_function(kind.name.as_str()) {
        Some(function) => { completed(alloc, at, function, parts, None, patterns, maker) }
        None => broken(NameRule::BadKind, kind.span),
    }
}

/// A call. A name that is no function is refused before its arguments are looked at, and so is another number of arguments
/// than the function takes.
#[cycle(typed)]
#[tactic(none)]
fn call<M: Maker>(
    alloc: Global,
    at: NodeAt,
    function: &NameAt,
    args: &Seq<Expr>,
    star: bool,
    sight: &Sight<'_>,
    patterns: &mut Patterns,
    maker: &mut M,
) -> Result<TypedExpr, AnalyzeError>
    ensures { IsAnswer (readings_at at.node at.span (call_by (function_named function.now.name) (aggregate_named function.now.name) function.now.span star (typings args.now) at.span) (call_by (function_named function.now.name) (aggregate_named function.now.name) function.now.span star (judgeds args.now) at.span) (call_by (function_named function.now.name) (aggregate_named function.now.name) function.now.span star (regular_parts args.now) at.span)) (over_of sight.now) patterns.old patterns.new (marks_of M.refused M.last maker.old) (marks_of M.refused M.last maker.new) result }
{
    let name = function.name.as_str();
    match (find_function(name), find_aggregate(name)) {
        (Some(row), _) => call_of(alloc, at, row, args, star, sight, patterns, maker),
        (None, Some(found)) => aggregate(alloc, at, found, args, star, sight, maker),
        (None, None) => broken(NameRule::UnknownFunction, function.span),
    }
}

#[cycle(typed)]
#[tactic(none)]
fn call_of<M: Maker>(
    alloc: Global,
    at: NodeAt,
    row: FunctionRow,
    args: &Seq<Expr>,
    star: bool,
    sight: &Sight<'_>,
    patterns: &mut Patterns,
    maker: &mut M,
) -> Result<TypedExpr, AnalyzeError>
    requires { FewAreTaken row }
    ensures { IsAnswer (readings_at at.node at.span (call_of row star (typings args.now) at.span) (call_of row star (judgeds args.now) at.span) (call_of row star (regular_parts args.now) at.span)) (over_of sight.now) patterns.old patterns.new (marks_of M.refused M.last maker.old) (marks_of M.refused M.last maker.new) result }
{
    if star || !takes(row, args.len()) {
        return broken(NameRule::BadArguments, at.span);
    }
    let mut parts = Parts::new(alloc);
    add_all(alloc, args.as_slice(), sight, &mut parts, patterns, maker)?;
    let literal = literal_at(args.as_slice(), 1);
    completed(alloc, at, row.function, parts, literal, patterns, maker)
}

/// An aggregate, which may be called in a field of STATS, and in no aggregate. The patterns of its argument are read again
/// where the argument itself is written: here it is only judged.
#[cycle(typed)]
#[tactic(none)]
fn aggregate<M: Maker>(
    alloc: Global,
    at: NodeAt,
    function: AggFunction,
    args: &Seq<Expr>,
    star: bool,
    sight: &Sight<'_>,
    maker: &mut M,
) -> Result<TypedExpr, AnalyzeError>
    ensures { AddsNoPattern (aggregate_of at.node at.span function star args.now) (over_of sight.now) (marks_of M.refused M.last maker.old) (marks_of M.refused M.last maker.new) result }
{
    if !sight.in_field {
        return broken(NameRule::NestedAggregate, at.span);
    }
    if star {
        return star_call(alloc, at.node, at.span, function, sight.calls);
    }
    if args.len() != 1 {
        return broken(NameRule::BadArguments, at.span);
    }
    let arg = &args.as_slice()[0];
    let mut patterns = Patterns {
        whole: Seq::new(alloc),
        free: Seq::new(alloc),
    };
    let within = sight.within_aggregate();
    let argument = typed(alloc, arg, &within, &mut patterns, maker)?;
    argument_call(alloc, at.node, arg.span, function, argument, sight.calls)
}

fn broken(rule: NameRule, span: Span) -> Result<TypedExpr, AnalyzeError>
    ensures { result ≡ Err (AnalyzeError.Broken rule span) }
{
    Err(AnalyzeError::Broken { rule, span })
}

fn in_function(negated: bool) -> Function
    ensures { result ≡ (if negated then Function.NotIn else Function.In) }
{
    if negated {
        Function::NotIn
    } else {
        Function::In
    }
}

fn null_function(negated: bool) -> Function
    ensures { result ≡ (if negated then Function.IsNotNull else Function.IsNull) }
{
    if negated {
        Function::IsNotNull
    } else {
        Function::IsNull
    }
}

fn like_function(negated: bool, regex: bool) -> Function
    ensures { result ≡ like_function negated regex }
{
    match (negated, regex) {
        (false, false) => Function::Like,
        (true, false) => Function::NotLike,
        (false, true) => Function::Rlike,
        (true, true) => Function::NotRlike,
    }
}

fn function_of(op: BinaryOp) -> Function
    ensures { result ≡ function_of op }
{
    match op {
        BinaryOp::Add => Function::Add,
        BinaryOp::Sub => Function::Sub,
        BinaryOp::Mul => Function::Mul,
        BinaryOp::Div => Function::Div,
        BinaryOp::Mod => Function::Mod,
        BinaryOp::Eq => Function::Eq,
        BinaryOp::Ne => Function::Ne,
        BinaryOp::Lt => Function::Lt,
        BinaryOp::Le => Function::Le,
        BinaryOp::Gt => Function::Gt,
        BinaryOp::Ge => Function::Ge,
        BinaryOp::And => Function::And,
        BinaryOp::Or => Function::Or,
    }
}
