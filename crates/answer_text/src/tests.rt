ghost use Rattle.std.specs.Prelude.{All, IfOk, IfSome, OnOk};
ghost use Rattle.esql_types.specs.Spans.{SpanFits};

use super::*;
use esql_ast::NodeAt;
use esql_types::{Cause, Cell, Failure, NodeId, Seq, Span, Text, Value};
use std::alloc::{AllocError, Global};
use std::test::Fail;

// The span, where it is a part of a text without other characters than those of ASCII.
fn span_in(text: &str, from: u32, to: u32) -> Option<Span>
    ensures { IfSome result (λ span. SpanFits text.now span) }
{
    if text.is_ascii() && from <= to && to as usize <= text.len() && text.len() < 4294967295 {
        Some(Span { from, to })
    } else {
        None
    }
}

fn push_node(
    nodes: &mut Seq<NodeAt>,
    _text: &str,
    node: NodeId,
    span: Option<Span>,
) -> Result<(), AllocError>
    requires nodes { All (λ n. SpanFits _text.now n.span) nodes.old }
    requires span { IfSome span (λ s. SpanFits _text.now s) }
    ensures { OnOk result (All (λ n. SpanFits _text.now n.span) nodes.new) }
{
    match span {
        Some(span) => nodes.push(NodeAt { node, span }),
        None => Ok(()),
    }
}

// The nodes of these spans, numbered from 0.
fn nodes_at(alloc: Global, text: &str, spans: &[(u32, u32)]) -> Result<Seq<NodeAt>, AllocError>
    ensures { IfOk result (λ nodes. All (λ n. SpanFits text.now n.span) nodes) }
{
    let mut nodes = Seq::new(alloc);
    let mut node = 0u32;
    for (from, to) in spans {
        push_node(&mut nodes, text, NodeId(node), span_in(text, *from, *to))?;
        node = node.saturating_add(1);
    }
    Ok(nodes)
}

#[test]
fn values_and_cells(rt: HostRuntime) -> Result<(), Fail> {
    let text = Text::from_str(rt.alloc(), "a, b")?;
    let mut list = Cell::one(rt.alloc(), Value::Int(1));
    list.push(Value::Int(2))?;
    for (cell, want) in [
        (Cell::null(rt.alloc()), "null"),
        (
            Cell::one(rt.alloc(), Value::Int(-2147483648)),
            "-2147483648",
        ),
        (Cell::one(rt.alloc(), Value::Long(2147483648)), "2147483648"),
        (Cell::one(rt.alloc(), Value::Bool(true)), "true"),
        (Cell::one(rt.alloc(), Value::Bool(false)), "false"),
        (Cell::one(rt.alloc(), Value::Text(text)), "a, b"),
        (list, "[1, 2]"),
    ] {
        let mut out = String::new(rt.alloc());
        push_cell(&mut out, &cell)?;
        assert_eq!(rt; out.as_str(), want);
    }
    let mut out = String::new(rt.alloc());
    push_value(&mut out, &Value::Int(7))?;
    assert_eq!(rt; out.as_str(), "7");
    Ok(())
}

#[test]
fn characters_print(rt: HostRuntime) -> Result<(), Fail> {
    for (text, want, wide) in [
        ("a + b", "a + b", 5),
        ("a\nb\rc\td", "a\\nb\\rc\\td", 10),
        ("\0\x0b\x1f\x20\x7f", "\\x00\\x0b\\x1f \x7f", 14),
        ("é日\n", "é日\\n", 4),
        ("a\\n", "a\\n", 3),
    ] {
        let mut out = String::new(rt.alloc());
        push_printed(&mut out, text)?;
        assert_eq!(rt; out.as_str(), want);
        assert_eq!(rt; width(out.as_str()), wide);
    }
    Ok(())
}

#[test]
fn refusals(rt: HostRuntime) -> Result<(), Fail> {
    let text = "ROW a = 1\n| EVAL zz";
    for (refusal, want) in [
        (Refusal::TooLong, "query longer than 65536 bytes"),
        (Refusal::BadCharacter, "unexpected character"),
        (Refusal::OpenString, "text or name is not closed"),
        (Refusal::BadEscape, "unknown escape"),
        (Refusal::OpenComment, "comment is not closed"),
        (Refusal::WideNumber, "number is too large"),
        (Refusal::Unexpected, "unexpected [zz]"),
        (Refusal::UnexpectedEnd, "unexpected end of query"),
        (Refusal::TooDeep, "expression nested deeper than 100"),
        (Refusal::TooMany, "more than 200 commands"),
        (Refusal::NotBuilt, "command not built"),
        (Refusal::UnknownTable, "unknown table [zz]"),
        (Refusal::UnknownPolicy, "unknown policy [zz]"),
        (Refusal::UnknownColumn, "unknown column [zz]"),
        (Refusal::NoMatch, "no column matches [zz]"),
        (Refusal::UnknownFunction, "unknown function [zz]"),
        (Refusal::BadArguments, "wrong arguments in [zz]"),
        (Refusal::BadKind, "wrong kind [zz]"),
        (Refusal::NotBoolean, "condition is not boolean [zz]"),
        (Refusal::NotAggregate, "not an aggregate [zz]"),
        (Refusal::NestedAggregate, "aggregate not allowed here [zz]"),
        (Refusal::BadDissect, "bad DISSECT pattern"),
        (Refusal::BadGrok, "bad GROK pattern"),
        (Refusal::BadRegex, "bad regular expression"),
        (Refusal::EmptyResultColumns, "no columns are left"),
        (Refusal::PatternRoom, "pattern too large"),
    ] {
        if let Some(span) = span_in(text, 17, 19) {
            let line = refusal_line(rt.alloc(), text, refusal, span)?;
            assert_eq!(rt;
                line.as_str().strip_prefix("line 2:8: "),
                Some(format!(in rt.alloc(); "{want}\n")?.as_str())
            );
        }
    }
    if let Some(span) = span_in(text, 17, 19) {
        let line = named_refusal_line(rt.alloc(), text, Refusal::UnknownTable, "t", span)?;
        assert_eq!(rt; line.as_str(), "line 2:8: unknown table [t]\n");
    }
    assert_eq!(rt; out_of_memory(), "out of memory\n");
    assert!(rt; usage().starts_with("usage: esql [--data DIR]"));
    Ok(())
}

#[test]
fn nodes_warn(rt: HostRuntime) -> Result<(), Fail> {
    for (text, spans, failing, want) in [
        (
            "ROW a = 5, b = [1, 2] | EVAL a + b",
            [(22, 34), (29, 34)],
            1,
            "Line 1:30: evaluation of [a + b] failed, treating result as null. Only first 20 failures recorded.\nLine 1:30: single-value function encountered multi-value\n",
        ),
        (
            "ROW n = null, m = [1, 2] | EVAL x = n + m, y = m + n",
            [(36, 41), (47, 52)],
            1,
            "Line 1:48: evaluation of [m + n] failed, treating result as null. Only first 20 failures recorded.\nLine 1:48: single-value function encountered multi-value\n",
        ),
        (
            "ROW a = [1, 2] | EVAL a + 1 + 1",
            [(22, 31), (22, 27)],
            1,
            "Line 1:23: evaluation of [a + 1] failed, treating result as null. Only first 20 failures recorded.\nLine 1:23: single-value function encountered multi-value\n",
        ),
        ("ROW a = 1", [(0, 9), (8, 9)], 2, ""),
    ] {
        let nodes = nodes_at(rt.alloc(), text, &spans)?;
        let mut failures = Seq::new(rt.alloc());
        failures.push(Failure {
            node: NodeId(failing),
            cause: Cause::Multi,
        })?;
        assert_eq!(rt;
            warnings(rt.alloc(), text, &nodes, &failures)?.as_str(),
            want
        );
    }
    Ok(())
}

#[test]
fn causes_are_told_once(rt: HostRuntime) -> Result<(), Fail> {
    let nodes = nodes_at(rt.alloc(), "f", &[(0, 1)])?;
    let mut failures = Seq::new(rt.alloc());
    for text in ["a01", "a01", "a03"] {
        let text = Text::from_str(rt.alloc(), text)?;
        failures.push(Failure {
            node: NodeId(0),
            cause: Cause::CannotParse { text },
        })?;
    }
    for cause in [
        Cause::IntegerOverflow,
        Cause::LongOverflow,
        Cause::ByZero,
        Cause::OutOfInteger { value: 2147483648 },
        Cause::NegativeLength { value: -1 },
        Cause::ByZero,
        Cause::EmptyDelimiter,
    ] {
        failures.push(Failure {
            node: NodeId(0),
            cause,
        })?;
    }
    for number in 10..20i64 {
        failures.push(Failure {
            node: NodeId(0),
            cause: Cause::OutOfInteger {
                value: number.min(11),
            },
        })?;
    }
    failures.push(Failure {
        node: NodeId(0),
        cause: Cause::Multi,
    })?;
    let want =
        "Line 1:1: evaluation of [f] failed, treating result as null. Only first 20 failures recorded.
Line 1:1: Cannot parse number [a01]
Line 1:1: Cannot parse number [a03]
Line 1:1: integer overflow
Line 1:1: long overflow
Line 1:1: / by zero
Line 1:1: [2147483648] out of [integer] range
Line 1:1: length [-1] is negative
Line 1:1: delimiter is empty
Line 1:1: [10] out of [integer] range
Line 1:1: [11] out of [integer] range
";
    assert_eq!(rt;
        warnings(rt.alloc(), "f", &nodes, &failures)?.as_str(),
        want
    );
    Ok(())
}
