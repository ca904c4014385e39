ghost use Rattle.std.specs.Prelude.{◌≤◌, length, All};
ghost use Rattle.esql_lex.specs.Tokens.{IsPartOf};

use crate::{Reader, Stepped};
use esql_ast::{Expr, Form};
use esql_lex::{Token, lex};
use esql_phrases::lexeme_of;
use esql_types::Value;
use std::alloc::{AllocError, Global};
use std::test::Fail;

fn show_value(alloc: Global, value: &Value, out: &mut String) -> Result<(), AllocError> {
    let text = match value {
        Value::Int(number) => format!(in alloc; "{number}")?,
        Value::Long(number) => format!(in alloc; "{number}L")?,
        Value::Bool(truth) => format!(in alloc; "{truth}")?,
        Value::Text(text) => format!(in alloc; "'{}'", text.as_str())?,
    };
    out.push_str(text.as_str())
}

fn show_values(alloc: Global, values: &[Value], out: &mut String) -> Result<(), AllocError> {
    out.push('[')?;
    for value in values {
        show_value(alloc, value, out)?;
        out.push(';')?;
    }
    out.push(']')
}

#[cycle(show)]
fn show_all(alloc: Global, head: &str, exprs: &[Expr], out: &mut String) -> Result<(), AllocError> {
    out.push_str(head)?;
    for expr in exprs {
        show_one(alloc, "", expr, "", out)?;
    }
    out.push(')')
}

#[cycle(show)]
fn show_one(
    alloc: Global,
    head: &str,
    arg: &Expr,
    tail: &str,
    out: &mut String,
) -> Result<(), AllocError> {
    out.push_str(head)?;
    out.push(' ')?;
    show(alloc, arg, out)?;
    out.push_str(tail)
}

#[cycle(show)]
fn show_test(alloc: Global, form: &Form, out: &mut String) -> Result<(), AllocError> {
    match form {
        Form::Within {
            negated,
            left,
            items,
        } => {
            let head = format!(in alloc; "(in {negated}")?;
            show_one(alloc, head.as_str(), left.get(), ":", out)?;
            show_all(alloc, "", items.as_slice(), out)
        }
        Form::Like {
            negated,
            regex,
            left,
            pattern,
        } => {
            let head = format!(in alloc; "(like {negated} {regex} {}", pattern.text.as_str())?;
            show_one(alloc, head.as_str(), left.get(), ")", out)
        }
        Form::IsNull { negated, arg } => {
            let head = format!(in alloc; "(null {negated}")?;
            show_one(alloc, head.as_str(), arg.get(), ")", out)
        }
        Form::Cast { arg, kind } => {
            let head = format!(in alloc; "(cast {}", kind.name.as_str())?;
            show_one(alloc, head.as_str(), arg.get(), ")", out)
        }
        _ => Ok(()),
    }
}

// An expression by the names of its forms, each with what is beneath in parentheses.
#[cycle(show)]
fn show(alloc: Global, expr: &Expr, out: &mut String) -> Result<(), AllocError> {
    match &expr.form {
        Form::Constant { cell, .. } => match cell.as_slice() {
            [value] => show_value(alloc, value, out),
            _ => out.push_str("null"),
        },
        Form::List { values } => show_values(alloc, values.as_slice(), out),
        Form::Column { name } => out.push_str(name.as_str()),
        Form::Group { inner } => show_one(alloc, "(group", inner.get(), ")", out),
        Form::Minus { arg } => show_one(alloc, "(minus", arg.get(), ")", out),
        Form::Not { arg } => show_one(alloc, "(not", arg.get(), ")", out),
        Form::Call {
            function,
            args,
            star,
        } => {
            let head = format!(in alloc; "({} {star}", function.name.as_str())?;
            show_all(alloc, head.as_str(), args.as_slice(), out)
        }
        Form::Binary { op, left, right } => {
            let head = format!(in alloc; "({op:?}")?;
            show_one(alloc, head.as_str(), left.get(), "", out)?;
            show_one(alloc, "", right.get(), ")", out)
        }
        form => show_test(alloc, form, out),
    }
}

// The expression that a text begins with, its depth, where it stands, and where the lexeme after it begins.
fn read(alloc: Global, text: &str, tokens: &[Token]) -> Result<String, AllocError>
    requires short { length text.now ≤ 65536 }
    requires fit { All (IsPartOf text.now) tokens.now }
{
    let mut reader = Reader::new(alloc, 0);
    for token in tokens {
        if !reader.is_within(100) {
            return format!(in alloc; "deep {}", token.span.from);
        }
        let lexeme = lexeme_of(alloc, text, *token)?;
        match reader.step(alloc, lexeme)? {
            Stepped::Goes(next) => reader = next,
            Stepped::Ends { part, .. } => {
                let span = part.expr.span;
                let mut out = String::new(alloc);
                show(alloc, &part.expr, &mut out)?;
                let place = format!(in alloc;
                    " {} {}-{} {}",
                    part.depth, span.from, span.to, token.span.from
                )?;
                out.push_str(place.as_str())?;
                return Ok(out);
            }
            Stepped::Stuck => return format!(in alloc; "stuck {}", token.span.from),
        }
    }
    String::from_str(alloc, "unfinished")
}

fn reads(alloc: Global, text: &str) -> Result<String, Fail>
    requires { length text.now ≤ 65536 }
{
    let tokens = lex(alloc, text)?;
    Ok(read(alloc, text, tokens.as_slice())?)
}

const CASES: [(&str, &str); 22] = [
    ("1 + 2 * 3", "(Add 1 (Mul 2 3)) 3 0-9 9"),
    ("1 - 2 - 3", "(Sub (Sub 1 2) 3) 3 0-9 9"),
    ("a OR b AND NOT c", "(Or a (And b (not c))) 4 0-16 16"),
    ("NOT a == 1 AND b", "(And (not (Eq a 1)) b) 4 0-16 16"),
    ("a < b < c", "(Lt a b) 2 0-5 6"),
    ("(a < b) == c", "(Eq (group (Lt a b)) c) 4 0-12 12"),
    ("f(*)", "(f true) 1 0-4 4"),
    ("f()", "(f false) 1 0-3 3"),
    ("f(1, g(a))", "(f false 1 (g false a)) 3 0-10 10"),
    ("[1, -2, 2147483648]", "[1;-2;2147483648L;] 1 0-19 19"),
    ("a IS NOT NULL", "(null true a) 2 0-13 13"),
    ("a NOT IN (1, 2)", "(in true a: 1 2) 2 0-15 15"),
    ("a IN ((1))", "(in false a: (group 1)) 3 0-10 10"),
    (
        "a.b NOT RLIKE \"x.*\"",
        "(like true true x.* a.b) 2 0-19 19",
    ),
    ("- a::long", "(minus (cast long a)) 3 0-9 9"),
    ("-1 * - - 2", "(Mul (minus 1) (minus (minus 2))) 4 0-10 10"),
    ("a NOT x", "stuck 6"),
    ("1 + * 2", "stuck 4"),
    ("[a]", "stuck 1"),
    ("a.b(1)", "a.b 1 0-3 3"),
    ("null | x", "null 1 0-4 5"),
    ("1 * NOT a", "stuck 4"),
];

#[test]
fn expressions_have_their_forms(rt: HostRuntime) -> Result<(), Fail> {
    for (text, expected) in CASES {
        if text.len() <= 65536 {
            let found = reads(rt.alloc(), text)?;
            assert_eq!(rt; found.as_str(), expected, "{text}");
        }
    }
    Ok(())
}
