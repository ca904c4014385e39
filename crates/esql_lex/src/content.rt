ghost use Rattle.std.specs.Prelude.{◌≡◌, ◌<◌, IfOk};
ghost use Rattle.std.specs.Io.BufRead.{strip_last};
ghost use Rattle.esql_types.specs.Spans.{SpanFits};
ghost use Rattle.esql_lex.specs.Contents.{strip_first, unquoted, escaped, meant, undone, text_content, content_of};
ghost use Rattle.esql_lex.specs.Forms.{begins_long};
ghost use Rattle.esql_lex.specs.Tokens.{slice_of};

use crate::quotes::begins_long;
use crate::{Token, TokenKind};
use esql_types::{Text, text_at};
use std::alloc::{AllocError, Global};

fn strip_first(quote: char, slice: &str) -> &str
    requires ascii { quote < 128 }
    ensures { result.now ≡ strip_first quote slice.now }
{
    match slice.strip_prefix(quote) {
        Some(rest) => rest,
        None => slice,
    }
}

fn strip_last(quote: char, slice: &str) -> &str
    requires ascii { quote < 128 }
    ensures { result.now ≡ strip_last quote slice.now }
{
    match slice.strip_suffix(quote) {
        Some(front) => front,
        None => slice,
    }
}

fn unquoted(quote: char, slice: &str) -> &str
    requires ascii { quote < 128 }
    ensures { result.now ≡ unquoted quote slice.now }
{
    strip_last(quote, strip_first(quote, slice))
}

fn escaped(character: char) -> char
    ensures { result ≡ escaped character }
{
    match character {
        't' => '\t',
        'n' => '\n',
        'r' => '\r',
        _ => character,
    }
}

fn meant(mark: char, character: char) -> char
    ensures { result ≡ meant mark character }
{
    if mark == '\\' {
        escaped(character)
    } else {
        character
    }
}

// Each mark and the character after it stand for one character.
fn undone(alloc: Global, mark: char, inside: &str) -> Result<Text, AllocError>
    requires ascii { mark < 128 }
    ensures { IfOk result (λ content. content ≡ undone mark inside.now) }
{
    let mut out = String::new(alloc);
    let mut marked = false;
    for character in inside.chars() {
        if marked {
            out.push(meant(mark, character))?;
            marked = false;
        } else if character == mark {
            marked = true;
        } else {
            out.push(character)?;
        }
    }
    if marked {
        out.push(mark)?;
    }
    Ok(Text::from_string(out))
}

fn text_content(alloc: Global, slice: &str) -> Result<Text, AllocError>
    ensures { IfOk result (λ content. content ≡ text_content slice.now) }
{
    if begins_long(slice.as_bytes()) {
        let inside = unquoted('"', unquoted('"', unquoted('"', slice)));
        Text::from_str(alloc, inside)
    } else {
        undone(alloc, '\\', unquoted('"', slice))
    }
}

/// What the slice of a token of this kind holds (after the ES|QL reference).
///
/// A name in backticks is what stands between them, where two backticks stand for one. A text in quotes is what
/// stands between them, where `\t`, `\n`, `\r`, `\"` and `\\` are the escapes; a text in three quotes is what stands
/// between these. Every other slice is as it is written. The error is want of memory.
pub fn content_of(alloc: Global, kind: TokenKind, slice: &str) -> Result<Text, AllocError>
    ensures { IfOk result (λ content. content ≡ content_of kind slice.now) }
{
    match kind {
        TokenKind::QuotedName => undone(alloc, '`', unquoted('`', slice)),
        TokenKind::Text => text_content(alloc, slice),
        _ => Text::from_str(alloc, slice),
    }
}

/// What a token of the text holds, by its kind and slice, as `content_of` says. The error is want of memory.
pub fn token_text(alloc: Global, text: &str, token: &Token) -> Result<Text, AllocError>
    requires fits { SpanFits text.now token.now.span }
    ensures { IfOk result (λ content. content ≡ content_of token.now.kind (slice_of text.now token.now)) }
{
    content_of(alloc, token.kind, text_at(text, token.span))
}
