//! What a lexeme other than `|` and the end makes of a command, and what a command says that ends.

ghost use Rattle.std.specs.Prelude.{◌≡◌, IfOk};
ghost use Rattle.esql_commands.specs.Points.{moved, continue_command, piped, finished_command};

use crate::dissect::{continue_dissect, finished_dissect};
use crate::enrich::{continue_enrich, finished_enrich};
use crate::expand::want_column;
use crate::from::{continue_from, finished_from};
use crate::join::continue_join;
use crate::limit::want_count;
use crate::pattern::{continue_pattern, finished_pattern};
use crate::rename::{continue_rename, finished_rename};
use crate::slot::{continue_slot, finished_slot};
use crate::sort::{continue_sort, finished_sort};
use crate::stats::have_stats;
use crate::{CommandEnd, Move, Place, Point};
use esql_ast::CommandKind;
use esql_phrases::Lexeme;
use std::alloc::{AllocError, Global};

fn moved(place: Option<Place>) -> Option<Move>
    ensures { result ≡ moved place }
{
    match place {
        Some(place) => Some(Move::To(place)),
        None => None,
    }
}

/// What a lexeme other than `|` and the end makes of a command, or `None` where no command continues with it. The error is
/// want of memory.
pub fn continue_command(
    alloc: Global,
    here: Point,
    next: Lexeme,
) -> Result<Option<Move>, AllocError>
    ensures { IfOk result (λ move. move ≡ continue_command here next) }
{
    match here {
        Point::Ended { slot, part } => Ok(moved(continue_slot(alloc, slot, part, next)?)),
        Point::From(here) => Ok(moved(continue_from(here, next)?)),
        Point::Pattern { of, here } => Ok(moved(continue_pattern(of, here, next)?)),
        Point::Rename(here) => Ok(moved(continue_rename(here, next)?)),
        Point::Sort(here) => Ok(moved(continue_sort(here, next)?)),
        Point::Limit => Ok(moved(want_count(next))),
        Point::Expand => Ok(moved(want_column(next))),
        Point::Stats => Ok(Some(have_stats(alloc, next))),
        Point::Dissect(here) => Ok(moved(continue_dissect(here, next))),
        Point::Enrich(here) => Ok(moved(continue_enrich(alloc, here, next)?)),
        Point::Join(here) => Ok(moved(continue_join(here, next))),
        Point::Whole(_) => Ok(None),
    }
}

fn piped(kind: Option<CommandKind>) -> Option<CommandEnd>
    ensures { result ≡ piped kind }
{
    match kind {
        Some(kind) => Some(CommandEnd::Piped(kind)),
        None => None,
    }
}

/// What a command says that ends at a point, or `None` where none can end. The error is want of memory.
pub fn finished_command(alloc: Global, here: Point) -> Result<Option<CommandEnd>, AllocError>
    ensures { IfOk result (λ end. end ≡ finished_command here) }
{
    match here {
        Point::Ended { slot, part } => finished_slot(alloc, slot, part),
        Point::From(here) => Ok(finished_from(here)),
        Point::Pattern { of, here } => Ok(piped(finished_pattern(of, here))),
        Point::Rename(here) => Ok(piped(finished_rename(here))),
        Point::Sort(here) => Ok(piped(finished_sort(here)?)),
        Point::Dissect(here) => Ok(piped(finished_dissect(alloc, here))),
        Point::Enrich(here) => Ok(piped(finished_enrich(here)?)),
        Point::Whole(kind) => Ok(Some(CommandEnd::Piped(kind))),
        Point::Limit | Point::Expand | Point::Stats | Point::Join(_) => Ok(None),
    }
}
