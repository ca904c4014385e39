ghost use Rattle.std.specs.Prelude.{◌≤◌, length};

use crate::{ParseError, no_refusal, one_query, one_refusal, parse};
use esql_lex::lex;
use std::alloc::{AllocError, Global};
use std::test::Fail;

fn answer_of(alloc: Global, text: &str) -> Result<String, Fail>
    requires { length text.now ≤ 65536 }
{
    let tokens = lex(alloc, text)?;
    let answer = match parse(alloc, text, &tokens) {
        Ok(query) => format!(in alloc; "query {} {}", query.commands.len(), query.nodes)?,
        Err(ParseError::Unexpected { token }) => format!(in alloc; "unexpected {}", token)?,
        Err(ParseError::TooDeep { token }) => format!(in alloc; "deep {}", token)?,
        Err(ParseError::TooMany { token }) => format!(in alloc; "many {}", token)?,
        Err(error) => return Err(Fail::from(error)),
    };
    Ok(answer)
}

// Texts, and the commands after the source and the nodes of the query, or the refusal and its token.
const CASES: [(&str, &str); 18] = [
    ("FROM t, u", "query 0 1"),
    (
        "from t | where a == 1 | EVAL b = a + 1, c | KEEP a*, `b` | DROP c | RENAME a AS d, b AS e | SORT d DESC NULLS LAST, e | LIMIT 5 | MV_EXPAND e",
        "query 8 18",
    ),
    (
        "FROM t | STATS n = COUNT(*) WHERE a > 1, m = MAX(b) BY g = c, d",
        "query 1 11",
    ),
    (
        "FROM t | DISSECT a \"%{x}\" append_separator=\",\" | GROK b \"%{WORD:w}\" | ENRICH p ON a WITH x = y, z | LOOKUP JOIN u ON a",
        "query 4 7",
    ),
    ("ROW a = [1, \"a\"]", "query 0 2"),
    ("ROW a = b NOT x", "unexpected 5"),
    ("ROW a = b NOT IN", "unexpected 6"),
    ("ROW a = CASE(", "unexpected 5"),
    ("ROW a = b IN ()", "unexpected 6"),
    ("ROW a = []", "unexpected 4"),
    ("ROW a = [-]", "unexpected 5"),
    ("ROW a = 1 == 2 == 3", "unexpected 6"),
    ("ROW a = 1 | RENAME a b", "unexpected 7"),
    ("ROW a = 1 | STATS BY", "unexpected 7"),
    (
        "ROW a = 1 | STATS n = COUNT(*) BY v WHERE true",
        "unexpected 14",
    ),
    ("ROW a = 1 | ENRICH p WITH", "unexpected 8"),
    ("ROW a = 1 | LOOKUP x", "unexpected 6"),
    ("", "unexpected 0"),
];

#[test]
fn texts_are_queries_or_refused_at_a_token(rt: HostRuntime) -> Result<(), Fail> {
    for (text, expected) in CASES {
        if text.len() <= 65536 {
            let found = answer_of(rt.alloc(), text)?;
            assert_eq!(rt; found.as_str(), expected, "{text}");
        }
    }
    one_query();
    one_refusal();
    no_refusal();
    Ok(())
}

fn push_repeated(out: &mut String, piece: &str, times: u32) -> Result<(), AllocError> {
    for _ in 0..times {
        out.push_str(piece)?;
    }
    Ok(())
}

// ROW a = , a piece so many times, a text, another piece as many times, a text, and the answer.
const REPEATED: [(&str, u32, &str, &str, &str, &str); 15] = [
    ("(", 99, "1", ")", "", "query 0 101"),
    ("(", 100, "1", ")", "", "deep 102"),
    ("1 + ", 99, "1", "", "", "query 0 200"),
    ("1 + ", 100, "1", "", "", "deep 202"),
    ("NOT ", 99, "true", "", "", "query 0 101"),
    ("NOT ", 100, "true", "", "", "deep 102"),
    ("- ", 99, "1", "", "", "query 0 101"),
    ("- ", 100, "1", "", "", "deep 102"),
    ("f(", 99, "1", ")", "", "query 0 101"),
    ("f(", 100, "1", ")", "", "deep 203"),
    ("(", 99, "1", ")", " IN (1)", "deep 202"),
    ("(", 99, "1", ")", "::long", "deep 202"),
    ("(", 99, "1", ")", " IS NULL", "deep 202"),
    ("", 200, "1", " | LIMIT 1", "", "query 200 202"),
    ("", 201, "1", " | LIMIT 1", "", "many 604"),
];

#[test]
fn limits_of_depth_and_of_commands(rt: HostRuntime) -> Result<(), Fail> {
    for (opening, times, middle, closing, back, expected) in REPEATED {
        let mut text = String::from_str(rt.alloc(), "ROW a = ")?;
        push_repeated(&mut text, opening, times)?;
        text.push_str(middle)?;
        push_repeated(&mut text, closing, times)?;
        text.push_str(back)?;
        if text.len() <= 65536 {
            let found = answer_of(rt.alloc(), text.as_str())?;
            assert_eq!(rt; found.as_str(), expected, "{text}");
        }
    }
    Ok(())
}
