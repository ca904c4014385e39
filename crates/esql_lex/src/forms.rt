ghost use Rattle.std.specs.Prelude.{◌≡◌, ◌≢◌, ℕ, ◌+◌, ◌-◌, ◌*◌, ◌^◌, ◌<◌, ◌≤◌, List, length, drop, take, slice_index, pos, true, false, None, IsTrue, MatchOption, MatchResult, IfSome};
ghost use Rattle.std.specs.List.{prefix_len, list_all};
ghost use Rattle.std.specs.Char.{is_ascii_digit};
ghost use Rattle.esql_lex.specs.declared.token.TokenKind.TheVariants.{Number};
ghost use Rattle.esql_lex.specs.declared.mode.Mode.TheVariants.{Plain, Source, Pattern};
ghost use Rattle.esql_lex.specs.Words.{reserved_of, is_word, short_sign, long_sign, long_sign_at, separator};
ghost use Rattle.esql_lex.specs.Gaps.{begins_comment, begins_block, piece_len};
ghost use Rattle.esql_lex.specs.Forms.{begins_name, word_or_name, value_of, begins_source, continues_source, is_in_pattern};
ghost use Rattle.esql_lex.specs.Tokens.{BeginsWith, Reads};

use crate::body::{Body, begins_name};
use crate::gaps::begins_block;
use crate::mode::Mode;
use crate::quotes::{quoted_at, text_at};
use crate::{LexError, Reserved, Sign, Token, TokenKind};
use esql_types::Span;

fn digits_len(text: &[u8]) -> usize
    ensures value { result ≡ prefix_len is_ascii_digit text.now }
    ensures within { result ≤ length text.now }
{
    text.iter().take_while(|byte| byte.is_ascii_digit()).count()
}

fn is_word(slice: &[u8], word: Reserved) -> bool
    ensures { result ≡ is_word slice.now word }
{
    slice.eq_ignore_ascii_case(word.spelling().as_bytes())
}

#[tactic(auto, unfolding(crate::specs::Words::reserved_of))]
fn reserved_of(slice: &[u8]) -> Option<Reserved>
    ensures { result ≡ reserved_of slice.now }
{
    for word in Reserved::ALL {
        if is_word(slice, word) {
            return Some(word);
        }
    }
    None
}

fn word_or_name(slice: &[u8]) -> TokenKind
    ensures { result ≡ word_or_name slice.now }
{
    match reserved_of(slice) {
        Some(word) => TokenKind::Word { word },
        None => TokenKind::Name,
    }
}

fn with_digit(value: u64, digit: u8) -> Option<u64>
    requires { 48 ≤ digit }
    ensures { MatchOption result (18446744073709551616 ≤ value * 10 + (digit - 48)) (λ more. more ≡ value * 10 + (digit - 48)) }
{
    value.checked_mul(10)?.checked_add(u64::from(digit - b'0'))
}

// The number that digits write, if it is no larger than a long.
fn number_of(digits: &[u8]) -> Option<i64>
    requires { IsTrue (list_all is_ascii_digit digits.now) }
    ensures { MatchOption result (9223372036854775807 < value_of digits.now) (λ value. (value ≡ pos (value_of digits.now)) × (value_of digits.now ≤ 9223372036854775807)) }
{
    let mut value: u64 = 0;
    for digit in digits {
        match with_digit(value, *digit) {
            Some(more) => value = more,
            None => return None,
        }
    }
    if value <= i64::MAX as u64 {
        Some(value as i64)
    } else {
        None
    }
}

#[tactic(auto, unfolding(crate::specs::Words::short_sign))]
fn short_sign(byte: u8) -> Option<Sign>
    ensures { result ≡ short_sign byte }
{
    Some(match byte {
        b'|' => Sign::Bar,
        b',' => Sign::Comma,
        b'(' => Sign::OpenParen,
        b')' => Sign::CloseParen,
        b'[' => Sign::OpenBracket,
        b']' => Sign::CloseBracket,
        b'+' => Sign::Plus,
        b'-' => Sign::Minus,
        b'*' => Sign::Star,
        b'/' => Sign::Slash,
        b'%' => Sign::Percent,
        b'<' => Sign::Less,
        b'>' => Sign::Greater,
        b'=' => Sign::Assign,
        _ => return None,
    })
}

#[tactic(auto, unfolding(crate::specs::Words::long_sign))]
fn long_sign(first: u8, second: u8) -> Option<Sign>
    ensures { result ≡ long_sign first second }
{
    match (first, second) {
        (b'=', b'=') => Some(Sign::Equal),
        (b'!', b'=') => Some(Sign::NotEqual),
        (b'<', b'=') => Some(Sign::LessEqual),
        (b'>', b'=') => Some(Sign::GreaterEqual),
        (b':', b':') => Some(Sign::Cast),
        _ => None,
    }
}

// The sign of two characters that stands here.
fn long_sign_at(text: &[u8]) -> Option<Sign>
    ensures { result ≡ long_sign_at text.now }
{
    match text {
        [first, second, ..] => long_sign(*first, *second),
        _ => None,
    }
}

pub(crate) fn token(kind: TokenKind, at: u32, len: usize) -> Token
    requires { at + len ≤ 65536 }
    ensures { result ≡ record { kind = kind; span = record { from = at; to = at + len } } }
{
    Token {
        kind,
        span: Span {
            from: at,
            to: at + len as u32,
        },
    }
}

fn word_at(text: &[u8], at: u32) -> Token
    requires some { 0 < length text.now }
    requires no_comment { begins_comment text.now ≡ false }
    requires begins { begins_name (slice_index text.now 0) ≡ true }
    requires short { at + length text.now ≤ 65536 }
    ensures { BeginsWith Plain at text.now result (drop (result.span.to - at) text.now) }
{
    let (_, after) = text.split_at(1);
    let len = 1 + Body::OfName.len(after);
    let (slice, _) = text.split_at(len);
    token(word_or_name(slice), at, len)
}

fn number_at(text: &[u8], at: u32) -> Result<Token, LexError>
    requires some { 0 < length text.now }
    requires no_comment { begins_comment text.now ≡ false }
    requires no_name { begins_name (slice_index text.now 0) ≡ false }
    requires begins { is_ascii_digit (slice_index text.now 0) ≡ true }
    requires short { at + length text.now ≤ 65536 }
    ensures { Reads Plain at text.now result }
{
    let len = digits_len(text);
    let (slice, _) = text.split_at(len);
    match number_of(slice) {
        Some(value) => Ok(token(TokenKind::Number { value }, at, len)),
        None => Err(LexError::WideNumber { at }),
    }
}

fn sign_at(text: &[u8], at: u32) -> Result<Token, LexError>
    requires some { 0 < length text.now }
    requires no_comment { begins_comment text.now ≡ false }
    requires no_name { begins_name (slice_index text.now 0) ≡ false }
    requires no_digit { is_ascii_digit (slice_index text.now 0) ≡ false }
    requires no_backtick { slice_index text.now 0 ≢ 96 }
    requires no_quote { slice_index text.now 0 ≢ 34 }
    requires short { at + length text.now ≤ 65536 }
    ensures { Reads Plain at text.now result }
{
    match long_sign_at(text) {
        Some(sign) => Ok(token(TokenKind::Sign { sign }, at, 2)),
        None => match short_sign(text[0]) {
            Some(sign) => Ok(token(TokenKind::Sign { sign }, at, 1)),
            None => Err(LexError::BadCharacter { at }),
        },
    }
}

fn plain_at(text: &[u8], at: u32) -> Result<Token, LexError>
    requires some { 0 < length text.now }
    requires no_comment { begins_comment text.now ≡ false }
    requires short { at + length text.now ≤ 65536 }
    ensures { Reads Plain at text.now result }
{
    if begins_name(text[0]) {
        Ok(word_at(text, at))
    } else if text[0].is_ascii_digit() {
        number_at(text, at)
    } else if text[0] == b'`' {
        quoted_at(Mode::Plain, text, at)
    } else if text[0] == b'"' {
        text_at(text, at)
    } else {
        sign_at(text, at)
    }
}

fn begins_source(byte: u8) -> bool
    ensures { result ≡ begins_source byte }
{
    byte.is_ascii_alphanumeric() || byte == b'_'
}

fn source_len(text: &[u8]) -> usize
    ensures value { result ≡ prefix_len continues_source text.now }
    ensures within { result ≤ length text.now }
{
    text.iter()
        .take_while(|byte| begins_source(**byte) || **byte == b'.' || **byte == b'-')
        .count()
}

fn is_in_pattern(byte: u8) -> bool
    ensures { result ≡ is_in_pattern byte }
{
    begins_source(byte) || matches!(byte, b'@' | b'.' | b'*')
}

fn pattern_len(text: &[u8]) -> usize
    ensures value { result ≡ prefix_len is_in_pattern text.now }
    ensures within { result ≤ length text.now }
{
    text.iter().take_while(|byte| is_in_pattern(**byte)).count()
}

#[tactic(auto, unfolding(crate::specs::Words::separator))]
fn separator(byte: u8) -> Option<Sign>
    ensures { result ≡ separator byte }
{
    match byte {
        b'|' => Some(Sign::Bar),
        b',' => Some(Sign::Comma),
        _ => None,
    }
}

fn source_at(text: &[u8], at: u32) -> Result<Token, LexError>
    requires some { 0 < length text.now }
    requires no_comment { begins_comment text.now ≡ false }
    requires short { at + length text.now ≤ 65536 }
    ensures { Reads Source at text.now result }
{
    if begins_source(text[0]) {
        let (_, after) = text.split_at(1);
        let len = 1 + source_len(after);
        return Ok(token(TokenKind::Source, at, len));
    }
    match separator(text[0]) {
        Some(sign) => Ok(token(TokenKind::Sign { sign }, at, 1)),
        None => Err(LexError::BadCharacter { at }),
    }
}

fn pattern_at(text: &[u8], at: u32) -> Result<Token, LexError>
    requires some { 0 < length text.now }
    requires no_comment { begins_comment text.now ≡ false }
    requires short { at + length text.now ≤ 65536 }
    ensures { Reads Pattern at text.now result }
{
    if is_in_pattern(text[0]) {
        let len = pattern_len(text);
        return Ok(token(TokenKind::Pattern, at, len));
    }
    if text[0] == b'`' {
        return quoted_at(Mode::Pattern, text, at);
    }
    match separator(text[0]) {
        Some(sign) => Ok(token(TokenKind::Sign { sign }, at, 1)),
        None => Err(LexError::BadCharacter { at }),
    }
}

// The token that stands here, or the fault.
pub(crate) fn token_at(mode: Mode, text: &[u8], at: u32) -> Result<Token, LexError>
    requires some { 0 < length text.now }
    requires no_gap { piece_len text.now ≡ None }
    requires short { at + length text.now ≤ 65536 }
    ensures { Reads mode at text.now result }
{
    if begins_block(text) {
        return Err(LexError::OpenComment { at });
    }
    match mode {
        Mode::Plain => plain_at(text, at),
        Mode::Source => source_at(text, at),
        Mode::Pattern => pattern_at(text, at),
    }
}
