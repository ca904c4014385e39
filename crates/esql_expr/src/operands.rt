//! After an operand and the first words or the sign of a test or a cast.

ghost use Rattle.std.specs.Prelude.{◌≡◌, ◌<◌, IfOk};
ghost use Rattle.esql_expr.specs.Machine.{after_not, after_in, after_like, after_is, after_is_not, after_cast};

use crate::lists::goes;
use crate::machine::{Frame, Stepped, Top};
use crate::stack::Stack;
use esql_lex::{Reserved, Sign};
use esql_phrases::{Lexeme, Part, cast_part, is_null_part, like_part};
use esql_types::Seq;
use std::alloc::{AllocError, Global};

pub(crate) fn after_not(least: u8, frames: Stack<Frame>, left: Part, next: Lexeme) -> Stepped
    ensures { result ≡ after_not least frames left next }
{
    let Lexeme::Word { word, .. } = next else {
        return Stepped::Stuck;
    };
    let negated = true;
    let top = match word {
        Reserved::In => Top::Among { negated, left },
        Reserved::Like => Top::Matching {
            negated,
            regex: false,
            left,
        },
        Reserved::Rlike => Top::Matching {
            negated,
            regex: true,
            left,
        },
        _ => return Stepped::Stuck,
    };
    goes(least, frames, top)
}

pub(crate) fn after_in(
    alloc: Global,
    least: u8,
    mut frames: Stack<Frame>,
    negated: bool,
    left: Part,
    next: Lexeme,
) -> Result<Stepped, AllocError>
    ensures { IfOk result (λ stepped. stepped ≡ after_in least frames negated left next) }
{
    match next {
        Lexeme::Sign {
            sign: Sign::OpenParen,
            ..
        } => {
            frames.push(Frame::Within {
                negated,
                left,
                items: Seq::new(alloc),
                depth: 0,
            })?;
            Ok(goes(least, frames, Top::Want))
        }
        _ => Ok(Stepped::Stuck),
    }
}

pub(crate) fn after_like(
    alloc: Global,
    least: u8,
    frames: Stack<Frame>,
    negated: bool,
    regex: bool,
    left: Part,
    next: Lexeme,
) -> Result<Stepped, AllocError>
    requires { left.depth < 4294967295 }
    ensures { IfOk result (λ stepped. stepped ≡ after_like least frames negated regex left next) }
{
    match next {
        Lexeme::Text(pattern) => {
            let part = like_part(alloc, negated, regex, left, pattern)?;
            Ok(goes(least, frames, Top::Have(part)))
        }
        _ => Ok(Stepped::Stuck),
    }
}

pub(crate) fn after_is(
    alloc: Global,
    least: u8,
    frames: Stack<Frame>,
    arg: Part,
    next: Lexeme,
) -> Result<Stepped, AllocError>
    requires { arg.depth < 4294967295 }
    ensures { IfOk result (λ stepped. stepped ≡ after_is least frames arg next) }
{
    match next {
        Lexeme::Word {
            word: Reserved::Null,
            span,
        } => {
            let part = is_null_part(alloc, false, arg, span)?;
            Ok(goes(least, frames, Top::Have(part)))
        }
        Lexeme::Word {
            word: Reserved::Not,
            ..
        } => Ok(goes(least, frames, Top::TestingNot(arg))),
        _ => Ok(Stepped::Stuck),
    }
}

pub(crate) fn after_is_not(
    alloc: Global,
    least: u8,
    frames: Stack<Frame>,
    arg: Part,
    next: Lexeme,
) -> Result<Stepped, AllocError>
    requires { arg.depth < 4294967295 }
    ensures { IfOk result (λ stepped. stepped ≡ after_is_not least frames arg next) }
{
    match next {
        Lexeme::Word {
            word: Reserved::Null,
            span,
        } => {
            let part = is_null_part(alloc, true, arg, span)?;
            Ok(goes(least, frames, Top::Have(part)))
        }
        _ => Ok(Stepped::Stuck),
    }
}

pub(crate) fn after_cast(
    alloc: Global,
    least: u8,
    frames: Stack<Frame>,
    arg: Part,
    next: Lexeme,
) -> Result<Stepped, AllocError>
    requires { arg.depth < 4294967295 }
    ensures { IfOk result (λ stepped. stepped ≡ after_cast least frames arg next) }
{
    match next {
        Lexeme::Plain(kind) | Lexeme::Dotted(kind) => {
            let part = cast_part(alloc, arg, kind)?;
            Ok(goes(least, frames, Top::Have(part)))
        }
        _ => Ok(Stepped::Stuck),
    }
}
