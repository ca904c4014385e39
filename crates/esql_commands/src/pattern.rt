//! KEEP and DROP.

ghost use Rattle.std.specs.Prelude.{◌≡◌, IfOk};
ghost use Rattle.esql_commands.specs.Patterns.{pattern_in, want_pattern, continue_pattern, patterns_kind, finished_pattern};

use crate::lexemes::is_comma;
use crate::{Place, Point};
use esql_ast::{CommandKind, NamePattern};
use esql_phrases::Lexeme;
use esql_types::Seq;
use std::alloc::AllocError;

/// What becomes of the columns that patterns name.
#[derive(Clone, Copy, Debug, PartialEq, Eq)]
pub enum PatternUse {
    Keep,
    Drop,
}

/// What was read last of KEEP or DROP.
#[derive(Drop)]
pub enum PatternPoint {
    /// The word of the command or a comma.
    Want { patterns: Seq<NamePattern> },
    /// A pattern.
    Have { patterns: Seq<NamePattern> },
}

// A name in backticks is a pattern without `*`.
fn pattern_in(next: Lexeme) -> Option<NamePattern>
    ensures { result ≡ pattern_in next }
{
    match next {
        Lexeme::Pattern(pattern) => Some(pattern),
        Lexeme::Quoted(name) => Some(NamePattern {
            text: name.name,
            wild: false,
            span: name.span,
        }),
        _ => None,
    }
}

fn want_pattern(
    of: PatternUse,
    mut patterns: Seq<NamePattern>,
    next: Lexeme,
) -> Result<Option<Place>, AllocError>
    ensures { IfOk result (λ place. place ≡ want_pattern of patterns (pattern_in next)) }
{
    match pattern_in(next) {
        Some(pattern) => {
            patterns.push(pattern)?;
            let here = PatternPoint::Have { patterns };
            Ok(Some(Place::At(Point::Pattern { of, here })))
        }
        None => Ok(None),
    }
}

pub(crate) fn continue_pattern(
    of: PatternUse,
    here: PatternPoint,
    next: Lexeme,
) -> Result<Option<Place>, AllocError>
    ensures { IfOk result (λ place. place ≡ continue_pattern of here next) }
{
    match here {
        PatternPoint::Want { patterns } => want_pattern(of, patterns, next),
        PatternPoint::Have { patterns } => {
            if is_comma(&next) {
                let here = PatternPoint::Want { patterns };
                Ok(Some(Place::At(Point::Pattern { of, here })))
            } else {
                Ok(None)
            }
        },
    }
}

fn patterns_kind(of: PatternUse, patterns: Seq<NamePattern>) -> CommandKind
    ensures { result ≡ patterns_kind of patterns }
{
    match of {
        PatternUse::Keep => CommandKind::Keep { patterns },
        PatternUse::Drop => CommandKind::Drop { patterns },
    }
}

pub(crate) fn finished_pattern(of: PatternUse, here: PatternPoint) -> Option<CommandKind>
    ensures { result ≡ finished_pattern of here }
{
    match here {
        PatternPoint::Want { .. } => None,
        PatternPoint::Have { patterns } => Some(patterns_kind(of, patterns)),
    }
}
