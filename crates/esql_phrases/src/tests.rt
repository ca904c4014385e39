ghost use Rattle.std.specs.Prelude.{◌≡◌, ◌≤◌, length, All};
ghost use Rattle.esql_lex.specs.Tokens.{IsPartOf};

use crate::{
    Lexeme, Part, binary_part, call_part, cast_part, column_part, constant_part, depth_of_phrase,
    from_first_to_last, group_part, is_null_part, lexeme_of, like_part, list_part, minus_part,
    negative_value, not_part, null_part, number_value, span_at, spans_fit, star_part, within_part,
};
use esql_ast::{BinaryOp, NameAt, TextAt};
use esql_lex::{Token, lex};
use esql_types::{Seq, Span, Text};
use std::alloc::{AllocError, Global};
use std::fmt::Write;
use std::test::Fail;

const FIRST: Span = Span { from: 0, to: 1 };

const LAST: Span = Span { from: 4, to: 5 };

// Depth, line and span.
fn shown(alloc: Global, part: Part) -> Result<String, AllocError> {
    let span = part.expr.span;
    format!(in alloc; "{} {} {}-{}", part.depth, part.line, span.from, span.to)
}

fn name(alloc: Global, span: Span) -> Result<NameAt, AllocError> {
    let name = Text::from_str(alloc, "n")?;
    Ok(NameAt { name, span })
}

fn number(alloc: Global, span: Span) -> Part
    ensures { result.depth ≡ 1 }
{
    constant_part(alloc, number_value(5), span)
}

#[test]
fn operators_stand_from_one_end_to_the_other(rt: HostRuntime) -> Result<(), Fail> {
    let alloc = rt.alloc();
    let sum = binary_part(
        alloc,
        BinaryOp::Add,
        number(alloc, FIRST),
        number(alloc, LAST),
    )?;
    let sum = shown(alloc, sum)?;
    assert_eq!(rt; sum.as_str(), "2 4 0-5");
    let minus = shown(alloc, minus_part(alloc, FIRST, number(alloc, LAST))?)?;
    assert_eq!(rt; minus.as_str(), "2 6 0-5");
    from_first_to_last();
    spans_fit();
    depth_of_phrase();
    Ok(())
}

#[test]
fn parentheses_and_not_are_one_deeper(rt: HostRuntime) -> Result<(), Fail> {
    let alloc = rt.alloc();
    let group = shown(alloc, group_part(alloc, FIRST, number(alloc, FIRST), LAST)?)?;
    assert_eq!(rt; group.as_str(), "2 8 0-5");
    let not = shown(alloc, not_part(alloc, FIRST, number(alloc, LAST))?)?;
    assert_eq!(rt; not.as_str(), "2 2 0-5");
    Ok(())
}

#[test]
fn tests_and_casts_are_one_deeper(rt: HostRuntime) -> Result<(), Fail> {
    let alloc = rt.alloc();
    let kind = name(alloc, LAST)?;
    let cast = shown(alloc, cast_part(alloc, number(alloc, FIRST), kind)?)?;
    assert_eq!(rt; cast.as_str(), "2 7 0-5");
    let test = shown(
        alloc,
        is_null_part(alloc, false, number(alloc, FIRST), LAST)?,
    )?;
    assert_eq!(rt; test.as_str(), "2 3 0-5");
    Ok(())
}

#[test]
fn lists_and_calls_stand_up_to_what_closes_them(rt: HostRuntime) -> Result<(), Fail> {
    let alloc = rt.alloc();
    let list = shown(alloc, list_part(FIRST, Seq::new(alloc), LAST))?;
    assert_eq!(rt; list.as_str(), "1 8 0-5");
    let star = shown(alloc, star_part(alloc, name(alloc, FIRST)?, LAST))?;
    assert_eq!(rt; star.as_str(), "1 8 0-5");
    let call = shown(
        alloc,
        call_part(name(alloc, FIRST)?, Seq::new(alloc), 1, LAST),
    )?;
    assert_eq!(rt; call.as_str(), "2 8 0-5");
    Ok(())
}

#[test]
fn columns_and_constants_stand_for_themselves(rt: HostRuntime) -> Result<(), Fail> {
    let alloc = rt.alloc();
    let column = shown(alloc, column_part(name(alloc, FIRST)?))?;
    assert_eq!(rt; column.as_str(), "1 8 0-1");
    let null = shown(alloc, null_part(alloc, LAST))?;
    assert_eq!(rt; null.as_str(), "1 8 4-5");
    let negative = shown(alloc, constant_part(alloc, negative_value(5), LAST))?;
    assert_eq!(rt; negative.as_str(), "1 8 4-5");
    Ok(())
}

#[test]
fn in_and_like_are_one_deeper(rt: HostRuntime) -> Result<(), Fail> {
    let alloc = rt.alloc();
    let items = Seq::new(alloc);
    let within = shown(
        alloc,
        within_part(alloc, true, number(alloc, FIRST), items, 2, LAST)?,
    )?;
    assert_eq!(rt; within.as_str(), "3 3 0-5");
    let text = Text::from_str(alloc, "*")?;
    let pattern = TextAt { text, span: LAST };
    let like = shown(
        alloc,
        like_part(alloc, false, false, number(alloc, FIRST), pattern)?,
    )?;
    assert_eq!(rt; like.as_str(), "2 3 0-5");
    Ok(())
}

fn kind(lexeme: &Lexeme) -> &str {
    match lexeme {
        Lexeme::Plain(_) => "plain",
        Lexeme::Dotted(_) => "dotted",
        Lexeme::Quoted(_) => "quoted",
        Lexeme::Pattern(_) => "pattern",
        Lexeme::Source(_) => "source",
        Lexeme::Text(_) => "text",
        Lexeme::Number { .. } => "number",
        Lexeme::Word { .. } => "word",
        Lexeme::Sign { .. } => "sign",
        Lexeme::End { .. } => "end",
    }
}

fn kinds(alloc: Global, text: &str, tokens: &[Token]) -> Result<String, AllocError>
    requires short { length text.now ≤ 65536 }
    requires fit { All (IsPartOf text.now) tokens.now }
{
    let mut out = String::new(alloc);
    for token in tokens {
        let lexeme = lexeme_of(alloc, text, *token)?;
        let span = span_at(&lexeme);
        write!(out, "{} {}-{}; ", kind(&lexeme), span.from, span.to)?;
    }
    Ok(out)
}

fn lexemes(alloc: Global, text: &str) -> Result<String, Fail>
    requires { length text.now ≤ 65536 }
{
    let tokens = lex(alloc, text)?;
    Ok(kinds(alloc, text, tokens.as_slice())?)
}

const TEXTS: [(&str, &str); 3] = [
    ("ROW a.b", "plain 0-3; dotted 4-7; end 7-7; "),
    (
        "`a` \"b\" 5 NULL |",
        "quoted 0-3; text 4-7; number 8-9; word 10-14; sign 15-16; end 16-16; ",
    ),
    (
        "FROM t | KEEP a*",
        "plain 0-4; source 5-6; sign 7-8; plain 9-13; pattern 14-16; end 16-16; ",
    ),
];

#[test]
fn tokens_are_seen_by_kind(rt: HostRuntime) -> Result<(), Fail> {
    for (text, expected) in TEXTS {
        if text.len() <= 65536 {
            let found = lexemes(rt.alloc(), text)?;
            assert_eq!(rt; found.as_str(), expected, "{text}");
        }
    }
    Ok(())
}
