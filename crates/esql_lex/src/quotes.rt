ghost use Rattle.std.specs.Prelude.{◌≡◌, ◌≢◌, ℕ, ◌+◌, ◌-◌, ◌<◌, ◌≤◌, List, length, drop, slice_index, true, false};
ghost use Rattle.esql_lex.specs.declared.mode.Mode.TheVariants.{Plain, Source};
ghost use Rattle.esql_lex.specs.Gaps.{begins_comment};
ghost use Rattle.esql_lex.specs.Forms.{begins_long, begins_escape, opens_name, opens_text};
ghost use Rattle.esql_lex.specs.Steps.{closing_len};
ghost use Rattle.esql_lex.specs.Tokens.{Reads};

use crate::body::Body;
use crate::forms::token;
use crate::gaps::end_of;
use crate::mode::Mode;
use crate::{LexError, Token, TokenKind};

// Up to the last backtick that may close a name.
fn closing_len(text: &[u8]) -> usize
    ensures value { result ≡ closing_len text.now }
    ensures within { result ≤ length text.now }
{
    let mut found = 0;
    let mut at = 0;
    'walk: loop {
        let (_, rest) = text.split_at(at);
        match rest {
            [] => return found,
            [byte] => {
                if *byte == b'`' {
                    return at + 1;
                }
                at += 1;
            }
            [byte, next, ..] => {
                if *byte != b'`' {
                    at += 1;
                } else if *next != b'`' {
                    return at + 1;
                } else {
                    found = at + 1;
                    at += 2;
                }
            }
        }
    }
}

fn opens_name(text: &[u8]) -> bool
    ensures { result ≡ opens_name text.now }
{
    match text {
        [b'`', b'`', b'`', ..] => true,
        [b'`', b'`', ..] => false,
        [b'`', ..] => true,
        _ => false,
    }
}

pub(crate) fn quoted_at(mode: Mode, text: &[u8], at: u32) -> Result<Token, LexError>
    requires some { 0 < length text.now }
    requires quotes { mode ≢ Source }
    requires begins { slice_index text.now 0 ≡ 96 }
    requires short { at + length text.now ≤ 65536 }
    ensures { Reads mode at text.now result }
{
    let (_, name) = text.split_at(1);
    let len = closing_len(name);
    if len > 1 {
        Ok(token(TokenKind::QuotedName, at, 1 + len))
    } else if opens_name(text) {
        Err(LexError::OpenString { at })
    } else {
        Err(LexError::BadCharacter { at })
    }
}

pub(crate) fn begins_long(text: &[u8]) -> bool
    ensures { result ≡ begins_long text.now }
{
    matches!(text, [b'"', b'"', b'"', ..])
}

fn long_at(text: &[u8], at: u32) -> Result<Token, LexError>
    requires begins { begins_long text.now ≡ true }
    requires short { at + length text.now ≤ 65536 }
    ensures { Reads Plain at text.now result }
{
    let (_, inside) = text.split_at(3);
    match end_of("\"\"\"".as_bytes(), inside) {
        Some(len) => Ok(token(TokenKind::Text, at, 3 + len)),
        None => Err(LexError::OpenString { at }),
    }
}

fn opens_text(text: &[u8]) -> bool
    ensures { result ≡ opens_text text.now }
{
    matches!(text, [b'"', ..])
}

fn begins_escape(text: &[u8]) -> bool
    ensures { result ≡ begins_escape text.now }
{
    matches!(text, [b'\\', ..])
}

fn short_at(text: &[u8], at: u32) -> Result<Token, LexError>
    requires some { 0 < length text.now }
    requires begins { slice_index text.now 0 ≡ 34 }
    requires no_long { begins_long text.now ≡ false }
    requires short { at + length text.now ≤ 65536 }
    ensures { Reads Plain at text.now result }
{
    let (_, inside) = text.split_at(1);
    let len = Body::OfText.len(inside);
    let (_, stop) = inside.split_at(len);
    if opens_text(stop) {
        Ok(token(TokenKind::Text, at, 2 + len))
    } else if begins_escape(stop) {
        Err(LexError::BadEscape {
            at: at + 1 + len as u32,
        })
    } else {
        Err(LexError::OpenString { at })
    }
}

pub(crate) fn text_at(text: &[u8], at: u32) -> Result<Token, LexError>
    requires some { 0 < length text.now }
    requires begins { slice_index text.now 0 ≡ 34 }
    requires short { at + length text.now ≤ 65536 }
    ensures { Reads Plain at text.now result }
{
    if begins_long(text) {
        long_at(text, at)
    } else {
        short_at(text, at)
    }
}
