//! Where a name has to come, or a comma may.

ghost use Rattle.std.specs.Prelude.{◌≡◌};
ghost use Rattle.esql_commands.specs.Lexemes.{name_in, is_comma};

use esql_ast::NameAt;
use esql_lex::Sign;
use esql_phrases::Lexeme;

pub(crate) fn name_in(next: Lexeme) -> Option<NameAt>
    ensures { result ≡ name_in next }
{
    match next {
        Lexeme::Plain(name) | Lexeme::Dotted(name) | Lexeme::Quoted(name) => Some(name),
        _ => None,
    }
}

// Whether the next item of a list has to come.
pub(crate) fn is_comma(next: &Lexeme) -> bool
    ensures { result ≡ is_comma next.now }
{
    matches!(
        next,
        Lexeme::Sign {
            sign: Sign::Comma,
            ..
        }
    )
}
