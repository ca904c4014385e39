//! RENAME.

ghost use Rattle.std.specs.Prelude.{◌≡◌, IfOk};
ghost use Rattle.esql_commands.specs.Lexemes.{name_in};
ghost use Rattle.esql_commands.specs.Rename.{want_before, have_before, want_after, continue_rename, finished_rename};

use crate::lexemes::{is_comma, name_in};
use crate::{Place, Point};
use esql_ast::{CommandKind, NameAt, RenamePair};
use esql_lex::Reserved;
use esql_phrases::Lexeme;
use esql_types::Seq;
use std::alloc::AllocError;

/// What was read last of RENAME.
#[derive(Drop)]
pub enum RenamePoint {
    /// RENAME or a comma.
    Want {
        pairs: Seq<RenamePair>,
    },
    /// The name before.
    Before {
        pairs: Seq<RenamePair>,
        before: NameAt,
    },
    /// The name before and AS.
    As {
        pairs: Seq<RenamePair>,
        before: NameAt,
    },
    /// A pair.
    Have {
        pairs: Seq<RenamePair>,
    },
}

fn want_before(pairs: Seq<RenamePair>, next: Lexeme) -> Option<Place>
    ensures { result ≡ want_before pairs (name_in next) }
{
    match name_in(next) {
        Some(before) => {
            let here = RenamePoint::Before { pairs, before };
            Some(Place::At(Point::Rename(here)))
        }
        None => None,
    }
}

fn have_before(pairs: Seq<RenamePair>, before: NameAt, next: Lexeme) -> Option<Place>
    ensures { result ≡ have_before pairs before next }
{
    match next {
        Lexeme::Word {
            word: Reserved::As,
            ..
        } => Some(Place::At(Point::Rename(RenamePoint::As { pairs, before }))),
        _ => None,
    }
}

fn want_after(
    mut pairs: Seq<RenamePair>,
    before: NameAt,
    next: Lexeme,
) -> Result<Option<Place>, AllocError>
    ensures { IfOk result (λ place. place ≡ want_after pairs before (name_in next)) }
{
    match name_in(next) {
        Some(after) => {
            pairs.push(RenamePair { before, after })?;
            Ok(Some(Place::At(Point::Rename(RenamePoint::Have { pairs }))))
        }
        None => Ok(None),
    }
}

pub(crate) fn continue_rename(here: RenamePoint, next: Lexeme) -> Result<Option<Place>, AllocError>
    ensures { IfOk result (λ place. place ≡ continue_rename here next) }
{
    match here {
        RenamePoint::Want { pairs } => Ok(want_before(pairs, next)),
        RenamePoint::Before { pairs, before } => Ok(have_before(pairs, before, next)),
        RenamePoint::As { pairs, before } => want_after(pairs, before, next),
        RenamePoint::Have { pairs } => {
            if is_comma(&next) {
                Ok(Some(Place::At(Point::Rename(RenamePoint::Want { pairs }))))
            } else {
                Ok(None)
            }
        }
    }
}

pub(crate) fn finished_rename(here: RenamePoint) -> Option<CommandKind>
    ensures { result ≡ finished_rename here }
{
    match here {
        RenamePoint::Want { .. } | RenamePoint::Before { .. } | RenamePoint::As { .. } => None,
        RenamePoint::Have { pairs } => Some(CommandKind::Rename { pairs }),
    }
}
