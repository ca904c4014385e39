ghost use Rattle.std.specs.Prelude.{◌≡◌, true};
ghost use Rattle.esql_types.specs.Spans.{SpanFits};

use crate::{
    LexError, Reserved, Sign, Token, TokenKind, content_of, lex, names_in_backticks, not_both,
    one_fault, one_list, pieces_join, slices_have_forms, texts_in_quotes, token_text,
    tokens_are_parts,
};
use esql_types::Span;
use std::alloc::Global;
use std::test::Fail;

fn token(kind: TokenKind, from: u32, to: u32) -> Token {
    Token {
        kind,
        span: Span { from, to },
    }
}

#[test]
fn a_text_is_its_tokens(rt: HostRuntime) -> Result<(), Fail> {
    let tokens = lex(rt.alloc(), "\twhere a_1<= 007\r\n|@b::NULLS Null")?;
    let expected = [
        token(TokenKind::Name, 1, 6),
        token(TokenKind::Name, 7, 10),
        token(
            TokenKind::Sign {
                sign: Sign::LessEqual,
            },
            10,
            12,
        ),
        token(TokenKind::Number { value: 7 }, 13, 16),
        token(TokenKind::Sign { sign: Sign::Bar }, 18, 19),
        token(TokenKind::Name, 19, 21),
        token(TokenKind::Sign { sign: Sign::Cast }, 21, 23),
        token(
            TokenKind::Word {
                word: Reserved::Nulls,
            },
            23,
            28,
        ),
        token(
            TokenKind::Word {
                word: Reserved::Null,
            },
            29,
            33,
        ),
        token(TokenKind::End, 33, 33),
    ];
    assert!(rt; tokens.as_slice() == expected.as_slice());
    Ok(())
}

#[test]
fn the_first_fault_is_told(rt: HostRuntime) -> Result<(), Fail> {
    assert!(rt; lex(rt.alloc(), "9223372036854775807").is_ok());
    assert!(rt;
        matches!(
            lex(rt.alloc(), " 9223372036854775808 !"),
            Err(LexError::WideNumber { at: 1 })
        )
    );
    assert!(rt;
        matches!(
            lex(rt.alloc(), "a !b"),
            Err(LexError::BadCharacter { at: 2 })
        )
    );
    assert!(rt;
        matches!(
            lex(rt.alloc(), "a\né 99999999999999999999"),
            Err(LexError::BadCharacter { at: 2 })
        )
    );
    assert!(rt;
        matches!(
            lex(rt.alloc(), "a : b"),
            Err(LexError::BadCharacter { at: 2 })
        )
    );
    Ok(())
}

#[test]
fn each_fault_has_its_place(rt: HostRuntime) -> Result<(), Fail> {
    let texts = [
        "ROW a = \"x",
        "ROW a = \"\\q\"",
        "ROW a = 9223372036854775808",
        "ROW a = 1 ! b",
        "ROW a = 1 /* x",
        "``",
        "```",
        "\"\"\"\"",
        "\"a\rb\"",
        "a.",
        "FROM a/b",
    ];
    let faults = [
        LexError::OpenString { at: 8 },
        LexError::BadEscape { at: 9 },
        LexError::WideNumber { at: 8 },
        LexError::BadCharacter { at: 10 },
        LexError::OpenComment { at: 10 },
        LexError::BadCharacter { at: 0 },
        LexError::OpenString { at: 0 },
        LexError::OpenString { at: 0 },
        LexError::OpenString { at: 0 },
        LexError::BadCharacter { at: 1 },
        LexError::BadCharacter { at: 6 },
    ];
    for i in 0..texts.len() {
        match lex(rt.alloc(), texts[i]) {
            Ok(_) => assert!(rt; false),
            Err(fault) => assert!(rt; place_of(fault) == place_of(faults[i])),
        }
    }
    Ok(())
}

fn place_of(fault: LexError) -> (u8, u32) {
    match fault {
        LexError::BadCharacter { at } => (0, at),
        LexError::OpenString { at } => (1, at),
        LexError::BadEscape { at } => (2, at),
        LexError::OpenComment { at } => (3, at),
        LexError::WideNumber { at } => (4, at),
        LexError::Memory(_) => (5, 0),
    }
}

#[test]
fn each_mode_has_its_tokens(rt: HostRuntime) -> Result<(), Fail> {
    let tokens = lex(
        rt.alloc(),
        "from t-1.x, u | KEEP a*, `b``*` // c\n| EVAL a.b/*c*//\"é\\n\"",
    )?;
    let expected = [
        token(TokenKind::Name, 0, 4),
        token(TokenKind::Source, 5, 10),
        token(TokenKind::Sign { sign: Sign::Comma }, 10, 11),
        token(TokenKind::Source, 12, 13),
        token(TokenKind::Sign { sign: Sign::Bar }, 14, 15),
        token(TokenKind::Name, 16, 20),
        token(TokenKind::Pattern, 21, 23),
        token(TokenKind::Sign { sign: Sign::Comma }, 23, 24),
        token(TokenKind::QuotedName, 25, 31),
        token(TokenKind::Sign { sign: Sign::Bar }, 37, 38),
        token(TokenKind::Name, 39, 43),
        token(TokenKind::Name, 44, 47),
        token(TokenKind::Sign { sign: Sign::Slash }, 52, 53),
        token(TokenKind::Text, 53, 59),
        token(TokenKind::End, 59, 59),
    ];
    assert!(rt; tokens.as_slice() == expected.as_slice());
    Ok(())
}

// The kinds and spans of a text's tokens, or its first fault.
fn shown(alloc: Global, text: &str) -> Result<String, Fail> {
    let mut out = String::new(alloc);
    if text.len() > 65536 {
        return Ok(out);
    }
    match lex(alloc, text) {
        Ok(tokens) => {
            for token in tokens.as_slice() {
                let Span { from, to } = token.span;
                write!(out, "{:?} {from}..{to}, ", token.kind)?;
            }
        }
        Err(LexError::Memory(error)) => return Err(error.into()),
        Err(fault) => write!(out, "{fault:?}")?,
    }
    Ok(out)
}

const TOKENS: &[(&str, &str)] = &[
    ("a . b", "BadCharacter { at: 2 }"),
    ("a.b.c", "Name 0..5, End 5..5, "),
    ("a//b", "Name 0..1, End 4..4, "),
    ("a/*b*/c", "Name 0..1, Name 6..7, End 7..7, "),
    (
        "a/*/*b*/c*/",
        "Name 0..1, Name 8..9, Sign { sign: Star } 9..10, Sign { sign: Slash } 10..11, End 11..11, ",
    ),
    (
        "a/b",
        "Name 0..1, Sign { sign: Slash } 1..2, Name 2..3, End 3..3, ",
    ),
    (
        "FROM a/*b*/c",
        "Name 0..4, Source 5..6, Source 11..12, End 12..12, ",
    ),
    ("FROM a//b", "Name 0..4, Source 5..6, End 9..9, "),
    (
        "`FROM` t-1",
        "QuotedName 0..6, Name 7..8, Sign { sign: Minus } 8..9, Number { value: 1 } 9..10, End 10..10, ",
    ),
    (
        "from t-1.x, u",
        "Name 0..4, Source 5..10, Sign { sign: Comma } 10..11, Source 12..13, End 13..13, ",
    ),
    (
        "ENRICH p-1 ON b-1",
        "Name 0..6, Source 7..10, Word { word: On } 11..13, Name 14..15, Sign { sign: Minus } 15..16, Number { value: 1 } 16..17, End 17..17, ",
    ),
    (
        "lookup JOIN t-1 ON b",
        "Name 0..6, Name 7..11, Source 12..15, Word { word: On } 16..18, Name 19..20, End 20..20, ",
    ),
    (
        "LOOKUP t-1",
        "Name 0..6, Name 7..8, Sign { sign: Minus } 8..9, Number { value: 1 } 9..10, End 10..10, ",
    ),
    (
        "KEEP a*, `b*`",
        "Name 0..4, Pattern 5..7, Sign { sign: Comma } 7..8, QuotedName 9..13, End 13..13, ",
    ),
    ("\"\"\"a\"b\"\"\"", "Text 0..9, End 9..9, "),
    ("\"\" \"\"\"\"\"\"", "Text 0..2, Text 3..9, End 9..9, "),
    ("`a``b`", "QuotedName 0..6, End 6..6, "),
    ("\"\"\"a\rb\"\"\"\r", "Text 0..9, End 10..10, "),
    (
        "\"é€😀\"`é€😀`",
        "Text 0..11, QuotedName 11..22, End 22..22, ",
    ),
    ("a é", "BadCharacter { at: 2 }"),
    ("a €", "BadCharacter { at: 2 }"),
    ("FROM 😀", "BadCharacter { at: 5 }"),
    ("\0", "BadCharacter { at: 0 }"),
    ("\"\0\"", "Text 0..3, End 3..3, "),
    ("a ! 9223372036854775808 \"", "BadCharacter { at: 2 }"),
];

#[test]
fn texts_and_their_tokens(rt: HostRuntime) -> Result<(), Fail> {
    for (text, want) in TOKENS {
        assert_eq!(rt; shown(rt.alloc(), text)?.as_str(), *want);
    }
    Ok(())
}

#[test]
fn the_longest_token(rt: HostRuntime) -> Result<(), Fail> {
    let mut text = String::new(rt.alloc());
    for _ in 0..65536 {
        text.push('a')?;
    }
    let tokens = shown(rt.alloc(), text.as_str())?;
    assert_eq!(rt; tokens.as_str(), "Name 0..65536, End 65536..65536, ");
    Ok(())
}

const CONTENTS: &[(TokenKind, &str, &str)] = &[
    (TokenKind::Name, "a.b", "a.b"),
    (TokenKind::Pattern, "a*", "a*"),
    (TokenKind::Source, "t-1.x", "t-1.x"),
    (TokenKind::QuotedName, "`a``b`", "a`b"),
    (TokenKind::QuotedName, "````", "`"),
    (TokenKind::QuotedName, "`\\t é€😀*\0`", "\\t é€😀*\0"),
    (TokenKind::Text, "\"\"", ""),
    (TokenKind::Text, "\"a`` é€😀\0\"", "a`` é€😀\0"),
    (TokenKind::Text, "\"\\t\\n\\r\\\"\\\\t\"", "\t\n\r\"\\t"),
    (TokenKind::Text, "\"\\\\\"", "\\"),
    (TokenKind::Text, "\"\"\"\"\"\"", ""),
    (
        TokenKind::Text,
        "\"\"\"\"a\"\"b\\n\r\"\"\"",
        "\"a\"\"b\\n\r",
    ),
];

#[test]
fn slices_and_what_they_hold(rt: HostRuntime) -> Result<(), Fail> {
    for (kind, slice, want) in CONTENTS {
        assert_eq!(rt; content_of(rt.alloc(), *kind, slice)?.as_str(), *want);
    }
    Ok(())
}

fn fits(text: &str, span: Span) -> bool
    ensures { result ≡ true → SpanFits text.now span }
{
    span.from <= span.to
        && text.is_char_boundary(span.from as usize)
        && text.is_char_boundary(span.to as usize)
        && text.len() < 4294967295
}

// What each token of the text holds, with a semicolon after it.
fn contents(alloc: Global, text: &str) -> Result<String, Fail> {
    let mut out = String::new(alloc);
    if text.len() > 65536 {
        return Ok(out);
    }
    for token in lex(alloc, text)?.as_slice() {
        if fits(text, token.span) {
            out.push_str(token_text(alloc, text, token)?.as_str())?;
        }
        out.push(';')?;
    }
    Ok(out)
}

#[test]
fn tokens_and_what_they_hold(rt: HostRuntime) -> Result<(), Fail> {
    let held = contents(rt.alloc(), "FROM t-1 | KEEP a*,`é``b` | EVAL c = \"\\\"é\"")?;
    assert_eq!(rt; held.as_str(), "FROM;t-1;|;KEEP;a*;,;é`b;|;EVAL;c;=;\"é;;");
    Ok(())
}

#[test]
fn laws_hold_of_every_text(_rt: HostRuntime) {
    pieces_join();
    slices_have_forms();
    tokens_are_parts();
    one_list();
    one_fault();
    not_both();
    names_in_backticks();
    texts_in_quotes();
}
