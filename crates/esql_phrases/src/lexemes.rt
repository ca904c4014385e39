ghost use Rattle.std.specs.Prelude.{◌≡◌, ◌==◌, IfOk};
ghost use Rattle.std.specs.List.{list_any};
ghost use Rattle.esql_types.specs.Spans.{SpanFits};
ghost use Rattle.esql_lex.specs.Contents.{content_of};
ghost use Rattle.esql_phrases.specs.Lexemes.{named, name_lexeme, lexeme_of};

use crate::Lexeme;
use esql_ast::{NameAt, NamePattern, TextAt};
use esql_lex::{Token, TokenKind, content_of};
use esql_types::{Span, text_at};
use std::alloc::{AllocError, Global};

fn has_dot(slice: &str) -> bool
    ensures { result ≡ list_any (λ c. c == 46) slice.now }
{
    slice.bytes().any(|byte| byte == b'.')
}

fn has_star(slice: &str) -> bool
    ensures { result ≡ list_any (λ c. c == 42) slice.now }
{
    slice.bytes().any(|byte| byte == b'*')
}

fn named(alloc: Global, kind: TokenKind, slice: &str, span: Span) -> Result<NameAt, AllocError>
    ensures { IfOk result (λ name. name ≡ named kind slice.now span) }
{
    let name = content_of(alloc, kind, slice)?;
    Ok(NameAt { name, span })
}

fn name_lexeme(name: NameAt, slice: &str) -> Lexeme
    ensures { result ≡ name_lexeme name slice.now }
{
    if has_dot(slice) {
        Lexeme::Dotted(name)
    } else {
        Lexeme::Plain(name)
    }
}

/// What the grammar sees in a token of the text. The error is want of memory.
pub fn lexeme_of(alloc: Global, text: &str, token: Token) -> Result<Lexeme, AllocError>
    requires { SpanFits text.now token.span }
    ensures { IfOk result (λ lexeme. lexeme ≡ lexeme_of text.now token) }
{
    let Token { kind, span } = token;
    let slice = text_at(text, span);
    match kind {
        TokenKind::Name => Ok(name_lexeme(named(alloc, kind, slice, span)?, slice)),
        TokenKind::QuotedName => Ok(Lexeme::Quoted(named(alloc, kind, slice, span)?)),
        TokenKind::Pattern => Ok(Lexeme::Pattern(NamePattern {
            text: content_of(alloc, kind, slice)?,
            wild: has_star(slice),
            span,
        })),
        TokenKind::Source => Ok(Lexeme::Source(named(alloc, kind, slice, span)?)),
        TokenKind::Text => Ok(Lexeme::Text(TextAt {
            text: content_of(alloc, kind, slice)?,
            span,
        })),
        TokenKind::Number { value } => Ok(Lexeme::Number { value, span }),
        TokenKind::Word { word } => Ok(Lexeme::Word { word, span }),
        TokenKind::Sign { sign } => Ok(Lexeme::Sign { sign, span }),
        TokenKind::End => Ok(Lexeme::End { span }),
    }
}
