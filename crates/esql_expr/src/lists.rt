//! What ends a group, and an item of a list.

ghost use Rattle.std.specs.Prelude.{◌≡◌, ◌<◌, max, [], ◌∷◌, ◌++◌, IfOk};
ghost use Rattle.esql_expr.specs.Machine.{close_group, close_call, close_within, goes};

use crate::machine::{Frame, Reader, Stepped, Top};
use crate::stack::Stack;
use esql_ast::{Expr, NameAt};
use esql_lex::Sign;
use esql_phrases::{Lexeme, Part, call_part, group_part, within_part};
use esql_types::{Seq, Span};
use std::alloc::{AllocError, Global};

pub(crate) fn goes(least: u8, frames: Stack<Frame>, top: Top) -> Stepped
    ensures { result ≡ goes least frames top }
{
    Stepped::Goes(Reader { least, frames, top })
}

pub(crate) fn close_group(
    alloc: Global,
    next: Lexeme,
    least: u8,
    above: Stack<Frame>,
    opening: Span,
    part: Part,
) -> Result<Stepped, AllocError>
    requires { part.depth < 4294967295 }
    ensures { IfOk result (λ stepped. stepped ≡ close_group next least above opening part) }
{
    match next {
        Lexeme::Sign {
            sign: Sign::CloseParen,
            span,
        } => {
            let part = group_part(alloc, opening, part, span)?;
            Ok(goes(least, above, Top::Have(part)))
        }
        _ => Ok(Stepped::Stuck),
    }
}

pub(crate) fn close_call(
    next: Lexeme,
    least: u8,
    mut above: Stack<Frame>,
    function: NameAt,
    mut args: Seq<Expr>,
    depth: u32,
    part: Part,
) -> Result<Stepped, AllocError>
    requires { max depth part.depth < 4294967295 }
    ensures { IfOk result (λ stepped. stepped ≡ close_call next least above function (args ++ part.expr ∷ []) (max depth part.depth)) }
{
    let depth = depth.max(part.depth);
    args.push(part.expr)?;
    match next {
        Lexeme::Sign {
            sign: Sign::Comma,
            ..
        } => {
            above.push(Frame::Call {
                function,
                args,
                depth,
            })?;
            Ok(goes(least, above, Top::Want))
        }
        Lexeme::Sign {
            sign: Sign::CloseParen,
            span,
        } => {
            let part = call_part(function, args, depth, span);
            Ok(goes(least, above, Top::Have(part)))
        }
        _ => Ok(Stepped::Stuck),
    }
}

// After an item that is already among the others.
fn end_item(
    alloc: Global,
    next: Lexeme,
    least: u8,
    mut above: Stack<Frame>,
    negated: bool,
    left: Part,
    items: Seq<Expr>,
    depth: u32,
) -> Result<Stepped, AllocError>
    requires { max left.depth depth < 4294967295 }
    ensures { IfOk result (λ stepped. stepped ≡ close_within next least above negated left items depth) }
{
    match next {
        Lexeme::Sign {
            sign: Sign::Comma,
            ..
        } => {
            above.push(Frame::Within {
                negated,
                left,
                items,
                depth,
            })?;
            Ok(goes(least, above, Top::Want))
        }
        Lexeme::Sign {
            sign: Sign::CloseParen,
            span,
        } => {
            let part = within_part(alloc, negated, left, items, depth, span)?;
            Ok(goes(least, above, Top::Have(part)))
        }
        _ => Ok(Stepped::Stuck),
    }
}

pub(crate) fn close_within(
    alloc: Global,
    next: Lexeme,
    least: u8,
    above: Stack<Frame>,
    negated: bool,
    left: Part,
    mut items: Seq<Expr>,
    depth: u32,
    part: Part,
) -> Result<Stepped, AllocError>
    requires { max left.depth (max depth part.depth) < 4294967295 }
    ensures { IfOk result (λ stepped. stepped ≡ close_within next least above negated left (items ++ part.expr ∷ []) (max depth part.depth)) }
{
    let depth = depth.max(part.depth);
    items.push(part.expr)?;
    end_item(alloc, next, least, above, negated, left, items, depth)
}
