//! What a lexeme makes of an expression that is being read.

ghost use Rattle.std.specs.Prelude.{◌≡◌, ◌≤◌, IfOk};
ghost use Rattle.esql_expr.specs.Machine.{start, begin_word, begin_sign, begin, after_name, after_open, after_star, step, up, need};

use crate::feed::{feed, hole};
use crate::lists::goes;
use crate::literals::{after_literal, after_minus, in_list};
use crate::machine::{Frame, Reader, Stepped, Top};
use crate::operands::{after_cast, after_in, after_is, after_is_not, after_like, after_not};
use crate::stack::Stack;
use esql_ast::NameAt;
use esql_lex::{Reserved, Sign};
use esql_phrases::{
    Lexeme, call_part, column_part, constant_part, null_part, number_value, star_part,
};
use esql_types::{Seq, Span, Value};
use std::alloc::{AllocError, Global};

fn begin_word(
    alloc: Global,
    word: Reserved,
    span: Span,
    least: u8,
    mut frames: Stack<Frame>,
) -> Result<Stepped, AllocError>
    ensures { IfOk result (λ stepped. stepped ≡ begin_word word span least frames) }
{
    let part = match word {
        Reserved::True => constant_part(alloc, Value::Bool(true), span),
        Reserved::False => constant_part(alloc, Value::Bool(false), span),
        Reserved::Null => null_part(alloc, span),
        Reserved::Not if hole(least, &frames) <= 2 => {
            frames.push(Frame::Not { word: span })?;
            return Ok(goes(least, frames, Top::Want));
        }
        _ => return Ok(Stepped::Stuck),
    };
    Ok(goes(least, frames, Top::Have(part)))
}

fn begin_sign(
    alloc: Global,
    sign: Sign,
    span: Span,
    least: u8,
    mut frames: Stack<Frame>,
) -> Result<Stepped, AllocError>
    ensures { IfOk result (λ stepped. stepped ≡ begin_sign sign span least frames) }
{
    match sign {
        Sign::OpenParen => {
            frames.push(Frame::Group { opening: span })?;
            Ok(goes(least, frames, Top::Want))
        }
        Sign::OpenBracket => {
            let top = Top::Listing {
                opening: span,
                values: Seq::new(alloc),
            };
            Ok(goes(least, frames, top))
        }
        Sign::Minus if hole(least, &frames) <= 6 => {
            frames.push(Frame::Minus { sign: span })?;
            Ok(goes(least, frames, Top::Want))
        }
        _ => Ok(Stepped::Stuck),
    }
}

fn begin(
    alloc: Global,
    least: u8,
    frames: Stack<Frame>,
    next: Lexeme,
) -> Result<Stepped, AllocError>
    ensures { IfOk result (λ stepped. stepped ≡ begin least frames next) }
{
    match next {
        Lexeme::Plain(name) => Ok(goes(least, frames, Top::Named(name))),
        Lexeme::Dotted(name) | Lexeme::Quoted(name) => {
            Ok(goes(least, frames, Top::Have(column_part(name))))
        }
        Lexeme::Text(text) => {
            let part = constant_part(alloc, Value::Text(text.text), text.span);
            Ok(goes(least, frames, Top::Have(part)))
        }
        Lexeme::Number { value, span } => {
            let part = constant_part(alloc, number_value(value), span);
            Ok(goes(least, frames, Top::Have(part)))
        }
        Lexeme::Word { word, span } => begin_word(alloc, word, span, least, frames),
        Lexeme::Sign { sign, span } => begin_sign(alloc, sign, span, least, frames),
        _ => Ok(Stepped::Stuck),
    }
}

fn after_name(
    alloc: Global,
    least: u8,
    frames: Stack<Frame>,
    name: NameAt,
    next: Lexeme,
) -> Result<Stepped, AllocError>
    requires { up frames 1 ≤ 100 }
    ensures { IfOk result (λ stepped. stepped ≡ after_name least frames name next) }
{
    match next {
        Lexeme::Sign {
            sign: Sign::OpenParen,
            ..
        } => Ok(goes(least, frames, Top::Called(name))),
        next => feed(alloc, least, frames, column_part(name), next),
    }
}

fn after_open(
    alloc: Global,
    least: u8,
    mut frames: Stack<Frame>,
    function: NameAt,
    next: Lexeme,
) -> Result<Stepped, AllocError>
    ensures { IfOk result (λ stepped. stepped ≡ after_open least frames function next) }
{
    match next {
        Lexeme::Sign {
            sign: Sign::CloseParen,
            span,
        } => {
            let part = call_part(function, Seq::new(alloc), 0, span);
            Ok(goes(least, frames, Top::Have(part)))
        }
        Lexeme::Sign {
            sign: Sign::Star,
            ..
        } => Ok(goes(least, frames, Top::Starred(function))),
        next => {
            frames.push(Frame::Call {
                function,
                args: Seq::new(alloc),
                depth: 0,
            })?;
            begin(alloc, least, frames, next)
        }
    }
}

fn after_star(
    alloc: Global,
    least: u8,
    frames: Stack<Frame>,
    function: NameAt,
    next: Lexeme,
) -> Stepped
    ensures { result ≡ after_star least frames function next }
{
    match next {
        Lexeme::Sign {
            sign: Sign::CloseParen,
            span,
        } => {
            let part = star_part(alloc, function, span);
            goes(least, frames, Top::Have(part))
        }
        _ => Stepped::Stuck,
    }
}

impl Reader {
    /// The reader of an expression of a line of the grammar, or of a later one, before its first lexeme. Takes no memory.
    pub fn new(alloc: Global, least: u8) -> Reader
        ensures { result ≡ start least }
    {
        Reader {
            least,
            frames: Stack::new(alloc),
            top: Top::Want,
        }
    }

    /// What a lexeme makes of the expression. The error is want of memory.
    #[tactic(auto, using(crate::proofs::Depths::up_rises))]
    pub fn step(self, alloc: Global, next: Lexeme) -> Result<Stepped, AllocError>
        requires { need self ≤ 100 }
        ensures { IfOk result (λ stepped. stepped ≡ step self next) }
    {
        let Reader { least, frames, top } = self;
        match top {
            Top::Want => begin(alloc, least, frames, next),
            Top::Have(part) => feed(alloc, least, frames, part, next),
            Top::Named(name) => after_name(alloc, least, frames, name, next),
            Top::Called(function) => after_open(alloc, least, frames, function, next),
            Top::Starred(function) => Ok(after_star(alloc, least, frames, function, next)),
            Top::Denied(left) => Ok(after_not(least, frames, left, next)),
            Top::Among { negated, left } => after_in(alloc, least, frames, negated, left, next),
            Top::Matching {
                negated,
                regex,
                left,
            } => after_like(alloc, least, frames, negated, regex, left, next),
            Top::Testing(arg) => after_is(alloc, least, frames, arg, next),
            Top::TestingNot(arg) => after_is_not(alloc, least, frames, arg, next),
            Top::Casting(arg) => after_cast(alloc, least, frames, arg, next),
            Top::Listing { opening, values } => in_list(least, frames, opening, values, next),
            Top::Negating { opening, values } => {
                after_minus(least, frames, opening, values, next)
            }
            Top::Listed { opening, values } => {
                Ok(after_literal(least, frames, opening, values, next))
            }
        }
    }
}
