//! LIMIT.

ghost use Rattle.std.specs.Prelude.{◌≡◌, pos};
ghost use Rattle.esql_commands.specs.Limit.{want_count};

use crate::{Place, Point};
use esql_ast::CommandKind;
use esql_phrases::Lexeme;

pub(crate) fn want_count(next: Lexeme) -> Option<Place>
    ensures { result ≡ want_count next }
{
    match next {
        Lexeme::Number { value, .. } if 0 <= value => {
            let count = value as u64;
            Some(Place::At(Point::Whole(CommandKind::Limit { count })))
        }
        _ => None,
    }
}
