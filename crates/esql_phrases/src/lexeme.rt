ghost use Rattle.std.specs.Prelude.{◌≡◌};
ghost use Rattle.esql_phrases.specs.Ends.{span_at};

use esql_ast::{NameAt, NamePattern, TextAt};
use esql_lex::{Reserved, Sign};
use esql_types::Span;

/// What the grammar sees in a token: its kind and its content, and where it stands.
#[derive(Drop)]
pub enum Lexeme {
    /// A name of one part.
    Plain(NameAt),
    /// A name of several parts.
    Dotted(NameAt),
    /// A name in backticks.
    Quoted(NameAt),
    /// A name that may have `*`, in KEEP and DROP.
    Pattern(NamePattern),
    /// The name of a table or of a policy.
    Source(NameAt),
    /// A text in quotes.
    Text(TextAt),
    Number { value: i64, span: Span },
    Word { word: Reserved, span: Span },
    Sign { sign: Sign, span: Span },
    End { span: Span },
}

/// Where a lexeme stands.
pub fn span_at(lexeme: &Lexeme) -> Span
    ensures { result ≡ span_at lexeme.now }
{
    match lexeme {
        Lexeme::Plain(name) | Lexeme::Dotted(name) | Lexeme::Quoted(name) => name.span,
        Lexeme::Pattern(pattern) => pattern.span,
        Lexeme::Source(name) => name.span,
        Lexeme::Text(text) => text.span,
        Lexeme::Number { span, .. } => *span,
        Lexeme::Word { span, .. } => *span,
        Lexeme::Sign { span, .. } => *span,
        Lexeme::End { span } => *span,
    }
}
