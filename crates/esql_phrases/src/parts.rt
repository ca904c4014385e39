//! The expression of each form, with its depth and its line.

ghost use Rattle.std.specs.Prelude.{◌≡◌, ◌<◌, max, IfOk};
ghost use Rattle.esql_phrases.specs.Parts.{join, span_of, part_of, primary, number_value, negative_value, constant_part, null_part, list_part, column_part, star_part, call_part, group_part, cast_part, minus_part, not_part, line_of, binary_part, within_part, like_part, is_null_part};

use crate::Part;
use esql_ast::{BinaryOp, Expr, Form, NameAt, TextAt};
use esql_types::{Boxed, Cell, Kind, NodeId, Seq, Span, Value};
use std::alloc::{AllocError, Global};

fn join(from: Span, to: Span) -> Span
    ensures { result ≡ join from to }
{
    Span {
        from: from.from,
        to: to.to,
    }
}

fn span_of(part: &Part) -> Span
    ensures { result ≡ span_of part.now }
{
    part.expr.span
}

fn part_of(span: Span, form: Form, depth: u32, line: u8) -> Part
    ensures { result ≡ part_of span form depth line }
{
    let expr = Expr {
        node: NodeId(0),
        span,
        form,
    };
    Part { expr, depth, line }
}

fn primary(span: Span, form: Form, depth: u32) -> Part
    ensures { result ≡ primary span form depth }
{
    part_of(span, form, depth, 8)
}

pub fn number_value(number: i64) -> Value
    ensures { result ≡ number_value number }
{
    if 0 <= number && number <= 2147483647 {
        let number = number as i32;
        Value::Int(number)
    } else {
        Value::Long(number)
    }
}

pub fn negative_value(number: i64) -> Value
    ensures { result ≡ negative_value number }
{
    if number < 0 {
        Value::Long(number)
    } else if number <= 2147483647 {
        let number = -number as i32;
        Value::Int(number)
    } else {
        Value::Long(-number)
    }
}

pub fn constant_part(alloc: Global, value: Value, span: Span) -> Part
    ensures { result ≡ constant_part value span }
{
    let kind = value.kind();
    let cell = Cell::one(alloc, value);
    primary(span, Form::Constant { cell, kind }, 1)
}

pub fn null_part(alloc: Global, span: Span) -> Part
    ensures { result ≡ null_part span }
{
    let form = Form::Constant {
        cell: Cell::null(alloc),
        kind: Kind::Null,
    };
    primary(span, form, 1)
}

pub fn list_part(opening: Span, values: Seq<Value>, closing: Span) -> Part
    ensures { result ≡ list_part opening values closing }
{
    primary(join(opening, closing), Form::List { values }, 1)
}

pub fn column_part(name: NameAt) -> Part
    ensures { result ≡ column_part name }
{
    let NameAt { name, span } = name;
    primary(span, Form::Column { name }, 1)
}

pub fn star_part(alloc: Global, function: NameAt, closing: Span) -> Part
    ensures { result ≡ star_part function closing }
{
    let span = join(function.span, closing);
    let form = Form::Call {
        function,
        args: Seq::new(alloc),
        star: true,
    };
    primary(span, form, 1)
}

pub fn call_part(function: NameAt, args: Seq<Expr>, depth: u32, closing: Span) -> Part
    requires { depth < 4294967295 }
    ensures { result ≡ call_part function args depth closing }
{
    let span = join(function.span, closing);
    let form = Form::Call {
        function,
        args,
        star: false,
    };
    primary(span, form, 1 + depth)
}

pub fn group_part(
    alloc: Global,
    opening: Span,
    inner: Part,
    closing: Span,
) -> Result<Part, AllocError>
    requires { inner.depth < 4294967295 }
    ensures { IfOk result (λ part. part ≡ group_part opening inner closing) }
{
    let Part { expr, depth, .. } = inner;
    let form = Form::Group {
        inner: Boxed::new(alloc, expr)?,
    };
    Ok(primary(join(opening, closing), form, 1 + depth))
}

pub fn cast_part(alloc: Global, arg: Part, kind: NameAt) -> Result<Part, AllocError>
    requires { arg.depth < 4294967295 }
    ensures { IfOk result (λ part. part ≡ cast_part arg kind) }
{
    let span = join(span_of(&arg), kind.span);
    let Part { expr, depth, .. } = arg;
    let form = Form::Cast {
        arg: Boxed::new(alloc, expr)?,
        kind,
    };
    Ok(part_of(span, form, 1 + depth, 7))
}

pub fn minus_part(alloc: Global, sign: Span, arg: Part) -> Result<Part, AllocError>
    requires { arg.depth < 4294967295 }
    ensures { IfOk result (λ part. part ≡ minus_part sign arg) }
{
    let span = join(sign, span_of(&arg));
    let Part { expr, depth, .. } = arg;
    let form = Form::Minus {
        arg: Boxed::new(alloc, expr)?,
    };
    Ok(part_of(span, form, 1 + depth, 6))
}

pub fn not_part(alloc: Global, word: Span, arg: Part) -> Result<Part, AllocError>
    requires { arg.depth < 4294967295 }
    ensures { IfOk result (λ part. part ≡ not_part word arg) }
{
    let span = join(word, span_of(&arg));
    let Part { expr, depth, .. } = arg;
    let form = Form::Not {
        arg: Boxed::new(alloc, expr)?,
    };
    Ok(part_of(span, form, 1 + depth, 2))
}

pub fn line_of(op: BinaryOp) -> u8
    ensures { result ≡ line_of op }
{
    match op {
        BinaryOp::Or => 0,
        BinaryOp::And => 1,
        BinaryOp::Eq | BinaryOp::Ne | BinaryOp::Lt | BinaryOp::Le | BinaryOp::Gt | BinaryOp::Ge =>
            3,
        BinaryOp::Add | BinaryOp::Sub => 4,
        BinaryOp::Mul | BinaryOp::Div | BinaryOp::Mod => 5,
    }
}

pub fn binary_part(alloc: Global, op: BinaryOp, left: Part, right: Part) -> Result<Part, AllocError>
    requires { max left.depth right.depth < 4294967295 }
    ensures { IfOk result (λ part. part ≡ binary_part op left right) }
{
    let span = join(span_of(&left), span_of(&right));
    let depth = 1 + left.depth.max(right.depth);
    let form = Form::Binary {
        op,
        left: Boxed::new(alloc, left.expr)?,
        right: Boxed::new(alloc, right.expr)?,
    };
    Ok(part_of(span, form, depth, line_of(op)))
}

pub fn within_part(
    alloc: Global,
    negated: bool,
    left: Part,
    items: Seq<Expr>,
    depth: u32,
    closing: Span,
) -> Result<Part, AllocError>
    requires { max left.depth depth < 4294967295 }
    ensures { IfOk result (λ part. part ≡ within_part negated left items depth closing) }
{
    let span = join(span_of(&left), closing);
    let depth = 1 + left.depth.max(depth);
    let form = Form::Within {
        negated,
        left: Boxed::new(alloc, left.expr)?,
        items,
    };
    Ok(part_of(span, form, depth, 3))
}

pub fn like_part(
    alloc: Global,
    negated: bool,
    regex: bool,
    left: Part,
    pattern: TextAt,
) -> Result<Part, AllocError>
    requires { left.depth < 4294967295 }
    ensures { IfOk result (λ part. part ≡ like_part negated regex left pattern) }
{
    let span = join(span_of(&left), pattern.span);
    let Part { expr, depth, .. } = left;
    let form = Form::Like {
        negated,
        regex,
        left: Boxed::new(alloc, expr)?,
        pattern,
    };
    Ok(part_of(span, form, 1 + depth, 3))
}

pub fn is_null_part(alloc: Global, negated: bool, arg: Part, null: Span) -> Result<Part, AllocError>
    requires { arg.depth < 4294967295 }
    ensures { IfOk result (λ part. part ≡ is_null_part negated arg null) }
{
    let span = join(span_of(&arg), null);
    let Part { expr, depth, .. } = arg;
    let form = Form::IsNull {
        negated,
        arg: Boxed::new(alloc, expr)?,
    };
    Ok(part_of(span, form, 1 + depth, 3))
}
