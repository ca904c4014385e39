//! FROM.

ghost use Rattle.std.specs.Prelude.{◌≡◌, IfOk};
ghost use Rattle.esql_commands.specs.From.{want_table, continue_from, finished_from};

use crate::lexemes::is_comma;
use crate::{CommandEnd, Place, Point};
use esql_ast::NameAt;
use esql_phrases::Lexeme;
use esql_types::Seq;
use std::alloc::AllocError;

/// What was read last of FROM.
#[derive(Drop)]
pub enum FromPoint {
    /// FROM or a comma.
    Want { tables: Seq<NameAt> },
    /// A table.
    Have { tables: Seq<NameAt> },
}

fn want_table(mut tables: Seq<NameAt>, next: Lexeme) -> Result<Option<Place>, AllocError>
    ensures { IfOk result (λ place. place ≡ want_table tables next) }
{
    match next {
        Lexeme::Source(table) => {
            tables.push(table)?;
            Ok(Some(Place::At(Point::From(FromPoint::Have { tables }))))
        }
        _ => Ok(None),
    }
}

pub(crate) fn continue_from(here: FromPoint, next: Lexeme) -> Result<Option<Place>, AllocError>
    ensures { IfOk result (λ place. place ≡ continue_from here next) }
{
    match here {
        FromPoint::Want { tables } => want_table(tables, next),
        FromPoint::Have { tables } => {
            if is_comma(&next) {
                Ok(Some(Place::At(Point::From(FromPoint::Want { tables }))))
            } else {
                Ok(None)
            }
        }
    }
}

pub(crate) fn finished_from(here: FromPoint) -> Option<CommandEnd>
    ensures { result ≡ finished_from here }
{
    match here {
        FromPoint::Want { .. } => None,
        FromPoint::Have { tables } => Some(CommandEnd::From(tables)),
    }
}
