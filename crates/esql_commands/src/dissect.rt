//! DISSECT and GROK.

ghost use Rattle.std.specs.Prelude.{◌≡◌};
ghost use Rattle.esql_commands.specs.Dissect.{have_input, have_grok_input, have_word, have_pattern, have_separator, have_assign, continue_dissect, finished_dissect};

use crate::words::is_append_separator;
use crate::{Place, Point};
use esql_ast::{CommandKind, Expr, TextAt};
use esql_lex::Sign;
use esql_phrases::{Lexeme, Part};
use esql_types::Text;
use std::alloc::Global;

/// What was read last of DISSECT, after its input.
#[derive(Drop)]
pub enum DissectPoint {
    /// The pattern.
    Pattern { input: Expr, pattern: TextAt },
    /// APPEND_SEPARATOR.
    Separator { input: Expr, pattern: TextAt },
    /// APPEND_SEPARATOR and `=`.
    Assign { input: Expr, pattern: TextAt },
}

pub(crate) fn have_input(part: Part, next: Lexeme) -> Option<Place>
    ensures { result ≡ have_input part next }
{
    match next {
        Lexeme::Text(pattern) => {
            let input = part.expr;
            let here = DissectPoint::Pattern { input, pattern };
            Some(Place::At(Point::Dissect(here)))
        }
        _ => None,
    }
}

pub(crate) fn have_grok_input(part: Part, next: Lexeme) -> Option<Place>
    ensures { result ≡ have_grok_input part next }
{
    match next {
        Lexeme::Text(pattern) => {
            let input = part.expr;
            let kind = CommandKind::Grok { input, pattern };
            Some(Place::At(Point::Whole(kind)))
        }
        _ => None,
    }
}

fn have_word(input: Expr, pattern: TextAt, is_separator: bool) -> Option<Place>
    ensures { result ≡ have_word input pattern is_separator }
{
    if is_separator {
        let here = DissectPoint::Separator { input, pattern };
        Some(Place::At(Point::Dissect(here)))
    } else {
        None
    }
}

fn have_pattern(input: Expr, pattern: TextAt, next: Lexeme) -> Option<Place>
    ensures { result ≡ have_pattern input pattern next }
{
    match next {
        Lexeme::Plain(name) => have_word(input, pattern, is_append_separator(name.name.as_str())),
        _ => None,
    }
}

fn have_separator(input: Expr, pattern: TextAt, next: Lexeme) -> Option<Place>
    ensures { result ≡ have_separator input pattern next }
{
    match next {
        Lexeme::Sign {
            sign: Sign::Assign,
            ..
        } => {
            let here = DissectPoint::Assign { input, pattern };
            Some(Place::At(Point::Dissect(here)))
        }
        _ => None,
    }
}

fn have_assign(input: Expr, pattern: TextAt, next: Lexeme) -> Option<Place>
    ensures { result ≡ have_assign input pattern next }
{
    match next {
        Lexeme::Text(separator) => {
            let kind = CommandKind::Dissect {
                input,
                pattern,
                separator: separator.text,
            };
            Some(Place::At(Point::Whole(kind)))
        }
        _ => None,
    }
}

pub(crate) fn continue_dissect(here: DissectPoint, next: Lexeme) -> Option<Place>
    ensures { result ≡ continue_dissect here next }
{
    match here {
        DissectPoint::Pattern { input, pattern } => have_pattern(input, pattern, next),
        DissectPoint::Separator { input, pattern } => have_separator(input, pattern, next),
        DissectPoint::Assign { input, pattern } => have_assign(input, pattern, next),
    }
}

// No separator is an empty one.
pub(crate) fn finished_dissect(alloc: Global, here: DissectPoint) -> Option<CommandKind>
    ensures { result ≡ finished_dissect here }
{
    match here {
        DissectPoint::Pattern { input, pattern } => Some(CommandKind::Dissect {
            input,
            pattern,
            separator: Text::from_string(String::new(alloc)),
        }),
        DissectPoint::Separator { .. } | DissectPoint::Assign { .. } => None,
    }
}
