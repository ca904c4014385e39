//! SORT.

ghost use Rattle.std.specs.Prelude.{◌≡◌, IfOk};
ghost use Rattle.esql_commands.specs.Sort.{want_key, key_of, have_key, have_direction, want_end, have_nulls, continue_sort, finished_key, finished_sort};

use crate::lexemes::is_comma;
use crate::{Place, Point, Slot};
use esql_ast::{CommandKind, Expr, SortKey};
use esql_lex::{Reserved, Sign};
use esql_phrases::{Lexeme, Part};
use esql_types::Seq;
use std::alloc::AllocError;

/// What was read last of SORT, where that is no key without a direction.
#[derive(Drop)]
pub enum SortPoint {
    /// The expression of a key, and ASC or DESC.
    Directed {
        keys: Seq<SortKey>,
        expr: Expr,
        descending: bool,
    },
    /// A key and NULLS.
    Nulls {
        keys: Seq<SortKey>,
        expr: Expr,
        descending: bool,
    },
    /// A key, NULLS and FIRST or LAST.
    Have {
        keys: Seq<SortKey>,
    },
}

pub(crate) fn want_key(keys: Seq<SortKey>) -> Place
    ensures { result ≡ want_key keys }
{
    Place::Expression(Slot::Key { keys })
}

fn key_of(expr: Expr, descending: bool, nulls_first: bool) -> SortKey
    ensures { result ≡ key_of expr descending nulls_first }
{
    SortKey {
        expr,
        descending,
        nulls_first,
    }
}

pub(crate) fn have_key(
    mut keys: Seq<SortKey>,
    part: Part,
    next: Lexeme,
) -> Result<Option<Place>, AllocError>
    ensures { IfOk result (λ place. place ≡ have_key keys part next) }
{
    let expr = part.expr;
    let here = match next {
        Lexeme::Sign {
            sign: Sign::Comma,
            ..
        } => {
            keys.push(key_of(expr, false, false))?;
            return Ok(Some(want_key(keys)));
        }
        Lexeme::Word {
            word: Reserved::Nulls,
            ..
        } => SortPoint::Nulls {
            keys,
            expr,
            descending: false,
        },
        Lexeme::Word {
            word: Reserved::Asc,
            ..
        } => SortPoint::Directed {
            keys,
            expr,
            descending: false,
        },
        Lexeme::Word {
            word: Reserved::Desc,
            ..
        } => SortPoint::Directed {
            keys,
            expr,
            descending: true,
        },
        _ => return Ok(None),
    };
    Ok(Some(Place::At(Point::Sort(here))))
}

fn have_direction(
    mut keys: Seq<SortKey>,
    expr: Expr,
    descending: bool,
    next: Lexeme,
) -> Result<Option<Place>, AllocError>
    ensures { IfOk result (λ place. place ≡ have_direction keys expr descending next) }
{
    match next {
        Lexeme::Sign {
            sign: Sign::Comma,
            ..
        } => {
            keys.push(key_of(expr, descending, descending))?;
            Ok(Some(want_key(keys)))
        }
        Lexeme::Word {
            word: Reserved::Nulls,
            ..
        } => {
            let here = SortPoint::Nulls {
                keys,
                expr,
                descending,
            };
            Ok(Some(Place::At(Point::Sort(here))))
        }
        _ => Ok(None),
    }
}

// Which end nulls stand at, where NULLS was read.
fn want_end(next: &Lexeme) -> Option<bool>
    ensures { result ≡ want_end next.now }
{
    match next {
        Lexeme::Word {
            word: Reserved::First,
            ..
        } => Some(true),
        Lexeme::Word {
            word: Reserved::Last,
            ..
        } => Some(false),
        _ => None,
    }
}

fn have_nulls(
    mut keys: Seq<SortKey>,
    expr: Expr,
    descending: bool,
    nulls_first: Option<bool>,
) -> Result<Option<Place>, AllocError>
    ensures { IfOk result (λ place. place ≡ have_nulls keys expr descending nulls_first) }
{
    match nulls_first {
        Some(nulls_first) => {
            keys.push(key_of(expr, descending, nulls_first))?;
            Ok(Some(Place::At(Point::Sort(SortPoint::Have { keys }))))
        }
        None => Ok(None),
    }
}

pub(crate) fn continue_sort(here: SortPoint, next: Lexeme) -> Result<Option<Place>, AllocError>
    ensures { IfOk result (λ place. place ≡ continue_sort here next) }
{
    match here {
        SortPoint::Directed {
            keys,
            expr,
            descending,
        } => have_direction(keys, expr, descending, next),
        SortPoint::Nulls {
            keys,
            expr,
            descending,
        } => have_nulls(keys, expr, descending, want_end(&next)),
        SortPoint::Have { keys } => {
            if is_comma(&next) {
                Ok(Some(want_key(keys)))
            } else {
                Ok(None)
            }
        }
    }
}

pub(crate) fn finished_key(
    mut keys: Seq<SortKey>,
    expr: Expr,
    descending: bool,
) -> Result<CommandKind, AllocError>
    ensures { IfOk result (λ kind. kind ≡ finished_key keys expr descending) }
{
    keys.push(key_of(expr, descending, descending))?;
    Ok(CommandKind::Sort { keys })
}

pub(crate) fn finished_sort(here: SortPoint) -> Result<Option<CommandKind>, AllocError>
    ensures { IfOk result (λ kind. kind ≡ finished_sort here) }
{
    match here {
        SortPoint::Directed {
            keys,
            expr,
            descending,
        } => Ok(Some(finished_key(keys, expr, descending)?)),
        SortPoint::Nulls { .. } => Ok(None),
        SortPoint::Have { keys } => Ok(Some(CommandKind::Sort { keys })),
    }
}
