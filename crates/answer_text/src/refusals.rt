//! Refusals of a query, and what is said of them.
ghost use Rattle.std.specs.Prelude.{◌≡◌, ◌≤◌, ◌<◌, ◌++◌, IfOk, OnOk};
ghost use Rattle.std.specs.Str.{IsCharBoundary};
ghost use Rattle.std.specs.String.{string_bytes};
ghost use Rattle.answer_text.specs.Refusals.{refusal_line, named_refusal_line, placed_line, message_of, in_brackets};

use esql_types::{Place, Span, Text, place_of};
use std::alloc::{AllocError, Global};

/// Why a query is refused: a fault of its text, of its form, or of what it means.
#[derive(Clone, Copy, Debug, PartialEq, Eq)]
pub enum Refusal {
    /// The query is longer than queries are read.
    TooLong,
    /// A character begins no token.
    BadCharacter,
    /// A text or a name in quotes has no end.
    OpenString,
    /// A backslash in a text begins no escape.
    BadEscape,
    /// A comment has no end.
    OpenComment,
    /// A number is greater than every long.
    WideNumber,
    /// A token stands where it has no place.
    Unexpected,
    /// The query ends where a token has to stand.
    UnexpectedEnd,
    /// An expression nests deeper than expressions are read.
    TooDeep,
    /// The query has more commands than are read.
    TooMany,
    /// The form is not built yet.
    NotBuilt,
    /// No table has the name.
    UnknownTable,
    /// No policy has the name.
    UnknownPolicy,
    /// No column has the name.
    UnknownColumn,
    /// No column's name matches the pattern.
    NoMatch,
    /// No function has the name.
    UnknownFunction,
    /// The function does not take such arguments.
    BadArguments,
    /// The expression is not of a kind that is taken there.
    BadKind,
    /// The condition is not boolean.
    NotBoolean,
    /// No aggregate stands where one has to.
    NotAggregate,
    /// An aggregate stands where none may.
    NestedAggregate,
    /// The pattern is none of DISSECT.
    BadDissect,
    /// The pattern is none of GROK.
    BadGrok,
    /// The pattern is no regular expression.
    BadRegex,
    /// The command leaves no column.
    EmptyResultColumns,
    /// The pattern is larger than patterns are built.
    PatternRoom,
}

/// The line that refuses a part of a query: the place of its start, and the message, which may name the part.
pub fn refusal_line(
    alloc: Global,
    text: &str,
    refusal: Refusal,
    span: Span,
) -> Result<Text, AllocError>
    requires ordered { span.from ≤ span.to }
    requires begins { IsCharBoundary text.now span.from }
    requires ends { IsCharBoundary text.now span.to }
    requires short { span.from < 4294967295 }
    ensures { IfOk result (λ t. t ≡ refusal_line text.now refusal span) }
{
    let part = &text[span.from as usize..span.to as usize];
    named_refusal_line(alloc, text, refusal, part, span)
}

/// The line that refuses a name for which a part of a query stands: the place of the part's start, and the message, which may name
/// the name.
pub fn named_refusal_line(
    alloc: Global,
    text: &str,
    refusal: Refusal,
    name: &str,
    span: Span,
) -> Result<Text, AllocError>
    requires begins { IsCharBoundary text.now span.from }
    requires short { span.from < 4294967295 }
    ensures { IfOk result (λ t. t ≡ named_refusal_line text.now refusal name.now span) }
{
    let mut message = String::new(alloc);
    push_message(&mut message, refusal, name)?;
    placed_line(alloc, text, span.from, &message)
}

// The line of a message with the place of a byte offset.
fn placed_line(alloc: Global, text: &str, at: u32, message: &str) -> Result<Text, AllocError>
    requires short { at < 4294967295 }
    requires boundary { IsCharBoundary text.now at }
    ensures { IfOk result (λ t. t ≡ placed_line text.now at message.now) }
{
    let Place { line, column } = place_of(text, at);
    let mut out = String::new(alloc);
    write!(out, "line {line}:{column}: {message}\n")?;
    Ok(Text::from_string(out))
}

fn push_message(out: &mut String, refusal: Refusal, part: &str) -> Result<(), AllocError>
    ensures { OnOk result (string_bytes out.new ≡ string_bytes out.old ++ message_of refusal part.now) }
{
    match refusal {
        Refusal::TooLong => out.push_str("query longer than 65536 bytes"),
        Refusal::BadCharacter => out.push_str("unexpected character"),
        Refusal::OpenString => out.push_str("text or name is not closed"),
        Refusal::BadEscape => out.push_str("unknown escape"),
        Refusal::OpenComment => out.push_str("comment is not closed"),
        Refusal::WideNumber => out.push_str("number is too large"),
        Refusal::Unexpected => push_bracketed(out, "unexpected", part),
        Refusal::UnexpectedEnd => out.push_str("unexpected end of query"),
        Refusal::TooDeep => out.push_str("expression nested deeper than 100"),
        Refusal::TooMany => out.push_str("more than 200 commands"),
        Refusal::NotBuilt => out.push_str("command not built"),
        Refusal::UnknownTable => push_bracketed(out, "unknown table", part),
        Refusal::UnknownPolicy => push_bracketed(out, "unknown policy", part),
        Refusal::UnknownColumn => push_bracketed(out, "unknown column", part),
        Refusal::NoMatch => push_bracketed(out, "no column matches", part),
        Refusal::UnknownFunction => push_bracketed(out, "unknown function", part),
        Refusal::BadArguments => push_bracketed(out, "wrong arguments in", part),
        Refusal::BadKind => push_bracketed(out, "wrong kind", part),
        Refusal::NotBoolean => push_bracketed(out, "condition is not boolean", part),
        Refusal::NotAggregate => push_bracketed(out, "not an aggregate", part),
        Refusal::NestedAggregate => push_bracketed(out, "aggregate not allowed here", part),
        Refusal::BadDissect => out.push_str("bad DISSECT pattern"),
        Refusal::BadGrok => out.push_str("bad GROK pattern"),
        Refusal::BadRegex => out.push_str("bad regular expression"),
        Refusal::EmptyResultColumns => out.push_str("no columns are left"),
        Refusal::PatternRoom => out.push_str("pattern too large"),
    }
}

fn push_bracketed(out: &mut String, words: &str, part: &str) -> Result<(), AllocError>
    ensures { OnOk result (string_bytes out.new ≡ string_bytes out.old ++ in_brackets words.now part.now) }
{
    write!(out, "{words} [{part}]")
}
