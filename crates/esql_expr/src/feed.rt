//! After an expression: what goes on with it, or else what ends it.

ghost use Rattle.std.specs.Prelude.{◌≡◌, ◌≤◌, ◌<◌, max, None, Some, IfOk, MatchOption};
ghost use Rattle.esql_phrases.specs.Parts.{line_of, left_of, right_of};
ghost use Rattle.esql_expr.specs.Machine.{hole, word_opener, sign_opener, opener, operand_line, own_line, takes, goes_to, opened, feed, close, up};

use crate::lists::{close_call, close_group, close_within};
use crate::machine::{Frame, Opener, Reader, Stepped, Top};
use crate::stack::Stack;
use esql_ast::BinaryOp;
use esql_lex::{Reserved, Sign};
use esql_phrases::{Lexeme, Part, binary_part, line_of, minus_part, not_part};
use std::alloc::{AllocError, Global};

fn right_of(op: BinaryOp) -> u8
    ensures { result ≡ right_of op }
{
    match op {
        BinaryOp::Or => 1,
        BinaryOp::And => 2,
        BinaryOp::Add | BinaryOp::Sub => 5,
        BinaryOp::Mul | BinaryOp::Div | BinaryOp::Mod => 6,
        BinaryOp::Eq | BinaryOp::Ne | BinaryOp::Lt | BinaryOp::Le | BinaryOp::Gt | BinaryOp::Ge =>
            4,
    }
}

fn left_of(op: BinaryOp) -> u8
    ensures { result ≡ left_of op }
{
    match op {
        BinaryOp::Or => 0,
        BinaryOp::And => 1,
        BinaryOp::Mul | BinaryOp::Div | BinaryOp::Mod => 5,
        BinaryOp::Add
        | BinaryOp::Sub
        | BinaryOp::Eq
        | BinaryOp::Ne
        | BinaryOp::Lt
        | BinaryOp::Le
        | BinaryOp::Gt
        | BinaryOp::Ge => 4,
    }
}

// The line of the grammar that the opening expression has to be in.
pub(crate) fn hole(least: u8, frames: &Stack<Frame>) -> u8
    ensures { result ≡ hole least frames.now }
{
    match frames.first() {
        None => least,
        Some(Frame::Binary { op, .. }) => right_of(*op),
        Some(Frame::Minus { .. }) => 6,
        Some(Frame::Not { .. }) => 2,
        Some(Frame::Group { .. } | Frame::Call { .. } | Frame::Within { .. }) => 0,
    }
}

fn word_opener(word: Reserved) -> Option<Opener>
    ensures { result ≡ word_opener word }
{
    match word {
        Reserved::Or => Some(Opener::Infix(BinaryOp::Or)),
        Reserved::And => Some(Opener::Infix(BinaryOp::And)),
        Reserved::Not => Some(Opener::Not),
        Reserved::In => Some(Opener::In),
        Reserved::Like => Some(Opener::Like { regex: false }),
        Reserved::Rlike => Some(Opener::Like { regex: true }),
        Reserved::Is => Some(Opener::Is),
        _ => None,
    }
}

fn sign_opener(sign: Sign) -> Option<Opener>
    ensures { result ≡ sign_opener sign }
{
    match sign {
        Sign::Equal => Some(Opener::Infix(BinaryOp::Eq)),
        Sign::NotEqual => Some(Opener::Infix(BinaryOp::Ne)),
        Sign::Less => Some(Opener::Infix(BinaryOp::Lt)),
        Sign::LessEqual => Some(Opener::Infix(BinaryOp::Le)),
        Sign::Greater => Some(Opener::Infix(BinaryOp::Gt)),
        Sign::GreaterEqual => Some(Opener::Infix(BinaryOp::Ge)),
        Sign::Plus => Some(Opener::Infix(BinaryOp::Add)),
        Sign::Minus => Some(Opener::Infix(BinaryOp::Sub)),
        Sign::Star => Some(Opener::Infix(BinaryOp::Mul)),
        Sign::Slash => Some(Opener::Infix(BinaryOp::Div)),
        Sign::Percent => Some(Opener::Infix(BinaryOp::Mod)),
        Sign::Cast => Some(Opener::Cast),
        _ => None,
    }
}

fn opener(next: &Lexeme) -> Option<Opener>
    ensures { result ≡ opener next.now }
{
    match next {
        Lexeme::Word { word, .. } => word_opener(*word),
        Lexeme::Sign { sign, .. } => sign_opener(*sign),
        _ => None,
    }
}

fn operand_line(opener: Opener) -> u8
    ensures { result ≡ operand_line opener }
{
    match opener {
        Opener::Infix(op) => left_of(op),
        Opener::Cast => 7,
        _ => 4,
    }
}

fn own_line(opener: Opener) -> u8
    ensures { result ≡ own_line opener }
{
    match opener {
        Opener::Infix(op) => line_of(op),
        Opener::Cast => 7,
        _ => 3,
    }
}

fn takes(opener: Opener, line: u8, least: u8) -> bool
    ensures { result ≡ takes opener line least }
{
    operand_line(opener) <= line && least <= own_line(opener)
}

fn goes_to(
    opener: Opener,
    least: u8,
    mut frames: Stack<Frame>,
    part: Part,
) -> Result<Reader, AllocError>
    ensures { IfOk result (λ reader. reader ≡ goes_to opener least frames part) }
{
    let top = match opener {
        Opener::Infix(op) => {
            frames.push(Frame::Binary { op, left: part })?;
            Top::Want
        }
        Opener::Not => Top::Denied(part),
        Opener::In => Top::Among {
            negated: false,
            left: part,
        },
        Opener::Like { regex } => Top::Matching {
            negated: false,
            regex,
            left: part,
        },
        Opener::Is => Top::Testing(part),
        Opener::Cast => Top::Casting(part),
    };
    Ok(Reader { least, frames, top })
}

// What goes on with the expression, or nothing.
fn opening(least: u8, frames: &Stack<Frame>, part: &Part, next: &Lexeme) -> Option<Opener>
    ensures { MatchOption result (opened least frames.now part.now next.now ≡ None) (λ o. opened least frames.now part.now next.now ≡ Some (goes_to o least frames.now part.now)) }
{
    match opener(next) {
        None => None,
        Some(opener) => {
            if takes(opener, part.line, hole(least, frames)) {
                Some(opener)
            } else {
                None
            }
        }
    }
}

// What ends an expression that nothing goes on with.
#[cycle(feed)]
#[tactic(auto, using(crate::proofs::Depths::up_rises), unfolding(crate::specs::Machine::close))]
fn close(
    alloc: Global,
    least: u8,
    mut frames: Stack<Frame>,
    part: Part,
    next: Lexeme,
) -> Result<Stepped, AllocError>
    requires { up frames part.depth ≤ 100 }
    ensures { IfOk result (λ stepped. stepped ≡ close least frames part next) }
{
    let Some(frame) = frames.pop() else {
        return Ok(Stepped::Ends { part, next });
    };
    match frame {
        Frame::Binary { op, left } => {
            let part = binary_part(alloc, op, left, part)?;
            feed(alloc, least, frames, part, next)
        }
        Frame::Group { opening } => close_group(alloc, next, least, frames, opening, part),
        Frame::Minus { sign } => {
            let part = minus_part(alloc, sign, part)?;
            feed(alloc, least, frames, part, next)
        }
        Frame::Not { word } => {
            let part = not_part(alloc, word, part)?;
            feed(alloc, least, frames, part, next)
        }
        Frame::Call {
            function,
            args,
            depth,
        } => close_call(next, least, frames, function, args, depth, part),
        Frame::Within {
            negated,
            left,
            items,
            depth,
        } => close_within(
            alloc, next, least, frames, negated, left, items, depth, part,
        ),
    }
}

// What a lexeme makes of an expression that was read.
#[cycle(feed)]
#[tactic(auto, using(crate::proofs::Feeds::feed_closes_or_opens))]
pub(crate) fn feed(
    alloc: Global,
    least: u8,
    frames: Stack<Frame>,
    part: Part,
    next: Lexeme,
) -> Result<Stepped, AllocError>
    requires { up frames part.depth ≤ 100 }
    ensures { IfOk result (λ stepped. stepped ≡ feed least frames part next) }
{
    match opening(least, &frames, &part, &next) {
        None => close(alloc, least, frames, part, next),
        Some(opener) => Ok(Stepped::Goes(goes_to(opener, least, frames, part)?)),
    }
}
