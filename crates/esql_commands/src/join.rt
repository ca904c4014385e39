//! LOOKUP JOIN.

ghost use Rattle.std.specs.Prelude.{◌≡◌};
ghost use Rattle.esql_commands.specs.Join.{have_word, have_lookup, have_join, have_table, have_on, continue_join};
ghost use Rattle.esql_commands.specs.Lexemes.{name_in};

use crate::lexemes::name_in;
use crate::words::is_join;
use crate::{Place, Point};
use esql_ast::{CommandKind, NameAt};
use esql_lex::Reserved;
use esql_phrases::Lexeme;

/// What was read last of LOOKUP JOIN.
#[derive(Drop)]
pub enum JoinPoint {
    /// LOOKUP.
    Lookup,
    /// JOIN.
    Join,
    /// The table.
    Table { table: NameAt },
    /// The table and ON.
    On { table: NameAt },
}

fn have_word(is_join: bool) -> Option<Place>
    ensures { result ≡ have_word is_join }
{
    if is_join {
        Some(Place::At(Point::Join(JoinPoint::Join)))
    } else {
        None
    }
}

fn have_lookup(next: Lexeme) -> Option<Place>
    ensures { result ≡ have_lookup next }
{
    match next {
        Lexeme::Plain(name) => have_word(is_join(name.name.as_str())),
        _ => None,
    }
}

fn have_join(next: Lexeme) -> Option<Place>
    ensures { result ≡ have_join next }
{
    match next {
        Lexeme::Source(table) => Some(Place::At(Point::Join(JoinPoint::Table { table }))),
        _ => None,
    }
}

fn have_table(table: NameAt, next: Lexeme) -> Option<Place>
    ensures { result ≡ have_table table next }
{
    match next {
        Lexeme::Word {
            word: Reserved::On,
            ..
        } => Some(Place::At(Point::Join(JoinPoint::On { table }))),
        _ => None,
    }
}

fn have_on(table: NameAt, next: Lexeme) -> Option<Place>
    ensures { result ≡ have_on table (name_in next) }
{
    match name_in(next) {
        Some(on) => Some(Place::At(Point::Whole(CommandKind::Join { table, on }))),
        None => None,
    }
}

pub(crate) fn continue_join(here: JoinPoint, next: Lexeme) -> Option<Place>
    ensures { result ≡ continue_join here next }
{
    match here {
        JoinPoint::Lookup => have_lookup(next),
        JoinPoint::Join => have_join(next),
        JoinPoint::Table { table } => have_table(table, next),
        JoinPoint::On { table } => have_on(table, next),
    }
}
