ghost use Rattle.std.specs.Prelude.{◌≡◌, ◌++◌, ◌∷◌, [], map, IfOk};
ghost use Rattle.esql_plan.specs.Names.{function_named, aggregate_named};
ghost use Rattle.query_semantics.specs.Calls.{opened, calls_of, outside_columns, calls_in, columns_in, calls_in_call, columns_in_call, aggregate_call};
ghost use Rattle.stats_writing.specs.CallsSeen.{call_of, seen_calls};

use esql_ast::{Expr, Form, NameAt};
use esql_plan::{AggFunction, find_aggregate, find_function};
use esql_types::{NodeId, Span};
use std::alloc::{AllocError, Global};

/// An aggregate call in a field of STATS; that of `*` has no argument.
#[derive(Clone, Copy)]
pub(crate) struct Call<'a> {
    pub(crate) node: NodeId,
    pub(crate) function: AggFunction,
    pub(crate) argument: Option<&'a Expr>,
}

/// The aggregate calls in an expression, from the left, and the places of the columns outside them.
#[derive(Drop)]
pub(crate) struct Opened<'a> {
    pub(crate) calls: Vec<Call<'a>>,
    pub(crate) columns: Vec<Span>,
}

/// The aggregate calls in an expression, and the columns outside them.
pub(crate) fn find_calls<'a>(alloc: Global, expr: &'a Expr) -> Result<Opened<'a>, AllocError>
    ensures calls { IfOk result (λ found. seen_calls found.calls.items ≡ calls_of expr.now) }
    ensures columns { IfOk result (λ found. found.columns.items ≡ outside_columns expr.now) }
{
    let empty = Opened {
        calls: Vec::new(alloc),
        columns: Vec::new(alloc),
    };
    open_expr(empty, expr)
}

#[cycle(open)]
fn open_expr<'a>(found: Opened<'a>, expr: &'a Expr) -> Result<Opened<'a>, AllocError>
    ensures calls { IfOk result (λ new. seen_calls new.calls.items ≡ seen_calls found.entry.calls.items ++ calls_of expr.now) }
    ensures columns { IfOk result (λ new. new.columns.items ≡ found.entry.columns.items ++ outside_columns expr.now) }
{
    match &expr.form {
        Form::Constant { .. } | Form::List { .. } => Ok(found),
        Form::Column { .. } => with_column(found, expr.span),
        Form::Group { inner } => open_expr(found, inner.get()),
        Form::Minus { arg } => open_expr(found, arg.get()),
        Form::Not { arg } => open_expr(found, arg.get()),
        Form::IsNull { arg, .. } => open_expr(found, arg.get()),
        Form::Cast { arg, .. } => open_expr(found, arg.get()),
        Form::Like { left, .. } => open_expr(found, left.get()),
        Form::Call {
            function,
            args,
            star,
        } => open_call(found, expr.node, function, args.as_slice(), *star),
        Form::Binary { left, right, .. } => {
            let found = open_expr(found, left.get())?;
            open_expr(found, right.get())
        }
        Form::Within { left, items, .. } => {
            let found = open_expr(found, left.get())?;
            open_all(found, items.as_slice())
        }
    }
}

/// An aggregate is a call itself; what stands within it is not looked at.
#[cycle(open)]
fn open_call<'a>(
    found: Opened<'a>,
    node: NodeId,
    function: &NameAt,
    args: &'a [Expr],
    star: bool,
) -> Result<Opened<'a>, AllocError>
    ensures calls { IfOk result (λ new. seen_calls new.calls.items ≡ seen_calls found.entry.calls.items ++ calls_in_call (function_named function.now.name) (aggregate_named function.now.name) star (map opened args.now) node) }
    ensures columns { IfOk result (λ new. new.columns.items ≡ found.entry.columns.items ++ columns_in_call (function_named function.now.name) (aggregate_named function.now.name) (map opened args.now)) }
{
    let name = function.name.as_str();
    match (find_function(name), find_aggregate(name)) {
        (Some(_), _) => open_all(found, args),
        (None, Some(aggregate)) => with_call(found, aggregate_call(node, aggregate, args, star)),
        (None, None) => open_all(found, args),
    }
}

#[cycle(open)]
fn open_all<'a>(found: Opened<'a>, exprs: &'a [Expr]) -> Result<Opened<'a>, AllocError>
    ensures calls { IfOk result (λ new. seen_calls new.calls.items ≡ seen_calls found.entry.calls.items ++ calls_in (map opened exprs.now)) }
    ensures columns { IfOk result (λ new. new.columns.items ≡ found.entry.columns.items ++ columns_in (map opened exprs.now)) }
{
    let mut found = found;
    for expr in exprs {
        found = open_expr(found, expr)?;
    }
    Ok(found)
}

fn aggregate_call<'a>(node: NodeId, function: AggFunction, args: &'a [Expr], star: bool) -> Call<'a>
    ensures { call_of result ≡ aggregate_call function star (map opened args.now) node }
{
    if star {
        Call {
            node,
            function: AggFunction::CountRows,
            argument: None,
        }
    } else {
        Call {
            node,
            function,
            argument: args.first(),
        }
    }
}

fn with_call<'a>(found: Opened<'a>, call: Call<'a>) -> Result<Opened<'a>, AllocError>
    ensures calls { IfOk result (λ new. seen_calls new.calls.items ≡ seen_calls found.entry.calls.items ++ call_of call.entry ∷ []) }
    ensures columns { IfOk result (λ new. new.columns.items ≡ found.entry.columns.items) }
{
    let Opened { calls, columns } = found;
    let mut calls = calls;
    calls.push(call)?;
    Ok(Opened { calls, columns })
}

fn with_column<'a>(found: Opened<'a>, column: Span) -> Result<Opened<'a>, AllocError>
    ensures calls { IfOk result (λ new. seen_calls new.calls.items ≡ seen_calls found.entry.calls.items) }
    ensures columns { IfOk result (λ new. new.columns.items ≡ found.entry.columns.items ++ column ∷ []) }
{
    let Opened { calls, columns } = found;
    let mut columns = columns;
    columns.push(column)?;
    Ok(Opened { calls, columns })
}
