//! MV_EXPAND.

ghost use Rattle.std.specs.Prelude.{◌≡◌};
ghost use Rattle.esql_commands.specs.Expand.{want_column};
ghost use Rattle.esql_commands.specs.Lexemes.{name_in};

use crate::lexemes::name_in;
use crate::{Place, Point};
use esql_ast::CommandKind;
use esql_phrases::Lexeme;

pub(crate) fn want_column(next: Lexeme) -> Option<Place>
    ensures { result ≡ want_column (name_in next) }
{
    match name_in(next) {
        Some(column) => Some(Place::At(Point::Whole(CommandKind::Expand { column }))),
        None => None,
    }
}
