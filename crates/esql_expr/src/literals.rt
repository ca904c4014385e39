//! The literals of a list.

ghost use Rattle.std.specs.Prelude.{◌≡◌, IfOk};
ghost use Rattle.esql_expr.specs.Machine.{in_list, after_minus, after_literal};

use crate::lists::goes;
use crate::machine::{Frame, Stepped, Top};
use crate::stack::Stack;
use esql_lex::{Reserved, Sign};
use esql_phrases::{Lexeme, list_part, negative_value, number_value};
use esql_types::{Seq, Span, Value};
use std::alloc::AllocError;

pub(crate) fn in_list(
    least: u8,
    frames: Stack<Frame>,
    opening: Span,
    mut values: Seq<Value>,
    next: Lexeme,
) -> Result<Stepped, AllocError>
    ensures { IfOk result (λ stepped. stepped ≡ in_list least frames opening values next) }
{
    let value = match next {
        Lexeme::Number { value, .. } => number_value(value),
        Lexeme::Text(text) => Value::Text(text.text),
        Lexeme::Word {
            word: Reserved::True,
            ..
        } => Value::Bool(true),
        Lexeme::Word {
            word: Reserved::False,
            ..
        } => Value::Bool(false),
        Lexeme::Sign {
            sign: Sign::Minus,
            ..
        } => return Ok(goes(least, frames, Top::Negating { opening, values })),
        _ => return Ok(Stepped::Stuck),
    };
    values.push(value)?;
    Ok(goes(least, frames, Top::Listed { opening, values }))
}

pub(crate) fn after_minus(
    least: u8,
    frames: Stack<Frame>,
    opening: Span,
    mut values: Seq<Value>,
    next: Lexeme,
) -> Result<Stepped, AllocError>
    ensures { IfOk result (λ stepped. stepped ≡ after_minus least frames opening values next) }
{
    match next {
        Lexeme::Number { value, .. } => {
            values.push(negative_value(value))?;
            Ok(goes(least, frames, Top::Listed { opening, values }))
        }
        _ => Ok(Stepped::Stuck),
    }
}

pub(crate) fn after_literal(
    least: u8,
    frames: Stack<Frame>,
    opening: Span,
    values: Seq<Value>,
    next: Lexeme,
) -> Stepped
    ensures { result ≡ after_literal least frames opening values next }
{
    match next {
        Lexeme::Sign {
            sign: Sign::Comma,
            ..
        } => goes(least, frames, Top::Listing { opening, values }),
        Lexeme::Sign {
            sign: Sign::CloseBracket,
            span,
        } => {
            let part = list_part(opening, values, span);
            goes(least, frames, Top::Have(part))
        }
        _ => Stepped::Stuck,
    }
}
