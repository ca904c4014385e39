ghost use Rattle.std.specs.Prelude.{◌≡◌, ◌++◌, IfOk, OnOk, All, map, take, codes};
ghost use Rattle.std.specs.String.{string_bytes};
ghost use Rattle.std.specs.Fmt.{signed_decimal};
ghost use Rattle.std.specs.List.{list_any};
ghost use Rattle.esql_types.specs.Spans.{SpanFits};
ghost use Rattle.answer_text.specs.Warnings.{warned, warned_of, at_node, cause_eq, cause_text, cause_line, head_line, line_start, failed_text};

use esql_ast::NodeAt;
use esql_types::{Cause, Failure, NodeId, Place, Seq, Text, place_of, text_at};
use std::alloc::{AllocError, Global};

/// How many failures of a node are told of.
const NOTED: usize = 20;

/// What is warned of: for each node with failures, in the order of the nodes, a head and a line for each distinct cause
/// among its first 20 failures.
pub fn warnings(
    alloc: Global,
    text: &str,
    nodes: &Seq<NodeAt>,
    failures: &Seq<Failure>,
) -> Result<Text, AllocError>
    requires { All (λ n. SpanFits text.now n.span) nodes.now }
    ensures { IfOk result (λ t. t ≡ warned text.now nodes.now failures.now) }
{
    let mut out = String::new(alloc);
    for at in nodes.as_slice() {
        let causes = first_causes(alloc, failures.as_slice(), at.node)?;
        push_warnings(&mut out, text, *at, &causes)?;
    }
    Ok(Text::from_string(out))
}

fn first_causes<'a>(
    alloc: Global,
    failures: &'a [Failure],
    node: NodeId,
) -> Result<Vec<&'a Cause>, AllocError>
    ensures { IfOk result (λ v. map (λ c. c.now) v.items ≡ take 20 (at_node failures.now node)) }
{
    let mut causes = Vec::new(alloc);
    for failure in failures {
        if failure.node.0 == node.0 && causes.len() < NOTED {
            causes.push(&failure.cause)?;
        }
    }
    Ok(causes)
}

/// Writes what is warned of a node whose first failures have these causes: a head and a line for each distinct cause, and
/// nothing where there is none.
pub fn push_warnings(
    out: &mut String,
    text: &str,
    at: NodeAt,
    causes: &[&Cause],
) -> Result<(), AllocError>
    requires { SpanFits text.now at.span }
    ensures { OnOk result (string_bytes out.new ≡ string_bytes out.old ++ warned_of text.now at (map (λ c. c.now) causes.now)) }
{
    if causes.is_empty() {
        return Ok(());
    }
    push_head(out, text, at)?;
    for (place, cause) in causes.iter().enumerate() {
        if !is_among(&causes[..place], cause) {
            push_line(out, text, at, cause)?;
        }
    }
    Ok(())
}

fn is_among(causes: &[&Cause], cause: &Cause) -> bool
    ensures { result ≡ list_any (λ earlier. cause_eq earlier.now cause.now) causes.now }
{
    causes.iter().any(|earlier| is_same(earlier, cause))
}

fn push_head(out: &mut String, text: &str, at: NodeAt) -> Result<(), AllocError>
    requires { SpanFits text.now at.span }
    ensures { OnOk result (string_bytes out.new ≡ string_bytes out.old ++ head_line text.now at) }
{
    push_place(out, text, at)?;
    push_failed(out, text_at(text, at.span))?;
    out.push_str("\n")
}

fn push_failed(out: &mut String, part: &str) -> Result<(), AllocError>
    ensures { OnOk result (string_bytes out.new ≡ string_bytes out.old ++ failed_text part.now) }
{
    out.push_str("evaluation of [")?;
    out.push_str(part)?;
    out.push_str("] failed, treating result as null. Only first 20 failures recorded.")
}

fn push_line(out: &mut String, text: &str, at: NodeAt, cause: &Cause) -> Result<(), AllocError>
    requires { SpanFits text.now at.span }
    ensures { OnOk result (string_bytes out.new ≡ string_bytes out.old ++ cause_line text.now at cause.now) }
{
    push_place(out, text, at)?;
    push_cause(out, cause)?;
    out.push_str("\n")
}

fn push_place(out: &mut String, text: &str, at: NodeAt) -> Result<(), AllocError>
    requires { SpanFits text.now at.span }
    ensures { OnOk result (string_bytes out.new ≡ string_bytes out.old ++ line_start text.now at.span.from) }
{
    let Place { line, column } = place_of(text, at.span.from);
    write!(out, "Line {line}:{column}: ")
}

fn push_cause(out: &mut String, cause: &Cause) -> Result<(), AllocError>
    ensures { OnOk result (string_bytes out.new ≡ string_bytes out.old ++ cause_text cause.now) }
{
    match cause {
        Cause::Multi => out.push_str("single-value function encountered multi-value"),
        Cause::IntegerOverflow => out.push_str("integer overflow"),
        Cause::LongOverflow => out.push_str("long overflow"),
        Cause::ByZero => out.push_str("/ by zero"),
        Cause::CannotParse { text } => push_not_parsed(out, text.as_str()),
        Cause::OutOfInteger { value } => push_not_integer(out, *value),
        Cause::NegativeLength { value } => write!(out, "length [{value}] is negative"),
        Cause::EmptyDelimiter => out.push_str("delimiter is empty"),
    }
}

fn push_not_parsed(out: &mut String, text: &str) -> Result<(), AllocError>
    ensures { OnOk result (string_bytes out.new ≡ string_bytes out.old ++ codes "Cannot parse number [" ++ text.now ++ codes "]") }
{
    out.push_str("Cannot parse number [")?;
    out.push_str(text)?;
    out.push_str("]")
}

fn push_not_integer(out: &mut String, value: i64) -> Result<(), AllocError>
    ensures { OnOk result (string_bytes out.new ≡ string_bytes out.old ++ codes "[" ++ signed_decimal value ++ codes "] out of [integer] range") }
{
    write!(out, "[{value}] out of [integer] range")
}

fn is_same(left: &Cause, right: &Cause) -> bool
    ensures { result ≡ cause_eq left.now right.now }
{
    match (left, right) {
        (Cause::Multi, Cause::Multi)
        | (Cause::IntegerOverflow, Cause::IntegerOverflow)
        | (Cause::LongOverflow, Cause::LongOverflow)
        | (Cause::ByZero, Cause::ByZero)
        | (Cause::EmptyDelimiter, Cause::EmptyDelimiter) => true,
        (Cause::CannotParse { text: left }, Cause::CannotParse { text: right }) => {
            left.as_str() == right.as_str()
        }
        (Cause::OutOfInteger { value: left }, Cause::OutOfInteger { value: right })
        | (Cause::NegativeLength { value: left }, Cause::NegativeLength { value: right }) => {
            left == right
        }
        _ => false,
    }
}
