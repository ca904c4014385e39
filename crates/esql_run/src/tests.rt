use super::*;
use esql_io::{HeldFile, MemoryFiles, MemorySink};
use esql_types::{CrateMaker, Seq, Text};
use std::alloc::{AllocError, Global};
use std::test::Fail;

/// Never the number of a call.
const NEVER: u64 = 1_000_000;

const MAPPING: &str =
    "{\"mappings\":{\"properties\":{\"a\":{\"properties\":{\"b\":{\"type\":\"long\"}}}}}}";

const ROWS: &str = "{\"a\":{\"b\":1}}\r\n\r\n{\"a\":[{\"b\":2},{\"b\":[3,null]}]}\r\n{\"a.b\":4}";

/// A policy over the table.
const POLICY: &str =
    "{\"match\":{\"indices\":\"t\",\"match_field\":\"a.b\",\"enrich_fields\":\"a.b\"}}";

/// A policy over the table, and over one that is not there.
const WIDE_POLICY: &str =
    "{\"match\":{\"indices\":[\"t\",\"w\"],\"match_field\":\"a.b\",\"enrich_fields\":[\"a.b\"]}}";

/// The numbers of the calls that fail.
#[derive(Clone, Copy)]
struct Failing {
    read: u64,
    built: u64,
    write: u64,
}

const NONE: Failing = Failing {
    read: NEVER,
    built: NEVER,
    write: NEVER,
};

fn one(alloc: Global, call: u64) -> Result<Seq<u64>, AllocError> {
    let mut calls = Seq::new(alloc);
    calls.push(call)?;
    Ok(calls)
}

fn hold(
    files: &mut Seq<HeldFile>,
    alloc: Global,
    name: &str,
    content: &str,
) -> Result<(), AllocError> {
    let mut bytes = Vec::new(alloc);
    bytes.extend_from_slice(content.as_bytes())?;
    files.push(HeldFile {
        name: Text::from_str(alloc, name)?,
        bytes: Seq::from_vec(bytes),
    })
}

/// A run over tables `t`, of which one is in the folder `d`, and the policies `p` and `q`, whose files are read in pieces of 16 bytes,
/// over sinks that take 10 bytes at once.
fn run_over(
    alloc: Global,
    words: &[&str],
    rows: &str,
    failing: Failing,
) -> Result<(Status, MemorySink, MemorySink), AllocError> {
    let mut texts = Vec::new(alloc);
    for word in words {
        texts.push(String::from_str(alloc, word)?)?;
    }
    let mut held = Seq::new(alloc);
    hold(&mut held, alloc, "t.mapping.json", MAPPING)?;
    hold(&mut held, alloc, "t.ndjson", rows)?;
    hold(&mut held, alloc, "p.policy.json", POLICY)?;
    hold(&mut held, alloc, "q.policy.json", WIDE_POLICY)?;
    hold(&mut held, alloc, "d/t.mapping.json", MAPPING)?;
    hold(&mut held, alloc, "d/t.ndjson", "{\"a\":{\"b\":7}}")?;
    let mut files = MemoryFiles::new(held, 16, one(alloc, failing.read)?);
    let mut maker = CrateMaker::new(one(alloc, failing.built)?);
    let mut out = MemorySink::new(alloc, 10_000, 10, one(alloc, failing.write)?)?;
    let mut err = MemorySink::new(alloc, 10_000, 10, Seq::new(alloc))?;
    let status = run(
        alloc,
        texts.as_slice(),
        &mut files,
        &mut maker,
        &mut out,
        &mut err,
    );
    Ok((status, out, err))
}

/// A query, its status, and what is written; `W` stands for what a head says of each failure.
struct Case {
    query: &'static str,
    status: Status,
    out: &'static str,
    err: &'static str,
}

const HEAD: &str = "failed, treating result as null. Only first 20 failures recorded.";

const CASES: [Case; 18] = [
    Case {
        query: "ROW a = 1 | EVAL b = a + 2",
        status: Status::Done,
        out: "a | b\n--+--\n1 | 3\n",
        err: "",
    },
    Case {
        query: "ROW a = 5, b = [1, 2] | EVAL a + b",
        status: Status::Done,
        out: "a | b      | a + b\n--+--------+------\n5 | [1, 2] | null\n",
        err: "Line 1:30: evaluation of [a + b] W\nLine 1:30: single-value function encountered multi-value\n",
    },
    Case {
        query: "ROW x = [1, 2] | EVAL y = x + 1 | LIMIT 0",
        status: Status::Done,
        out: "x | y\n--+--\n",
        err: "Line 1:27: evaluation of [x + 1] W\nLine 1:27: single-value function encountered multi-value\n",
    },
    Case {
        query: "ROW a = 1, b = 2, c = 3 | RENAME a AS b, b AS c",
        status: Status::Done,
        out: "c\n-\n1\n",
        err: "",
    },
    Case {
        query: "ROW a = 1, b = 2 | DROP a",
        status: Status::Done,
        out: "b\n-\n2\n",
        err: "",
    },
    Case {
        query: "ROW a = 1, b = 2 | DROP z*",
        status: Status::Refused,
        out: "",
        err: "line 1:25: no column matches [z*]\n",
    },
    Case {
        query: "ROW a = 1, b = 2 | DROP *",
        status: Status::Refused,
        out: "",
        err: "line 1:20: no columns are left\n",
    },
    Case {
        query: "FROM u | LOOKUP JOIN t ON a",
        status: Status::Refused,
        out: "",
        err: "line 1:10: command not built\n",
    },
    Case {
        query: "ROW s = \"a b\" | DISSECT s \"%{x} %{y}\"",
        status: Status::Done,
        out: "s   | x | y\n----+---+--\na b | a | b\n",
        err: "",
    },
    Case {
        query: "ROW s = \"n 12\" | GROK s \"%{WORD:w} %{INT:n:int}\"",
        status: Status::Done,
        out: "s    | w | n\n-----+---+---\nn 12 | n | 12\n",
        err: "",
    },
    Case {
        query: "FROM u | EVAL x = ",
        status: Status::Refused,
        out: "",
        err: "line 1:19: unexpected end of query\n",
    },
    Case {
        query: "FROM u",
        status: Status::Refused,
        out: "",
        err: "line 1:6: unknown table [u]\n",
    },
    Case {
        query: "FROM t",
        status: Status::Done,
        out: "a.b\n------\n1\n[2, 3]\n4\n",
        err: "",
    },
    Case {
        query: "FROM t, t | WHERE a.b > 3",
        status: Status::Done,
        out: "a.b\n---\n4\n",
        err: "Line 1:19: evaluation of [a.b > 3] W\nLine 1:19: single-value function encountered multi-value\n",
    },
    Case {
        query: "ROW x = [3, 5] | ENRICH p ON x WITH n = a.b",
        status: Status::Done,
        out: "x      | n\n-------+-------\n[3, 5] | [2, 3]\n",
        err: "",
    },
    Case {
        query: "ROW x = 4 | ENRICH q",
        status: Status::Refused,
        out: "",
        err: "line 1:20: unknown table [w]\n",
    },
    Case {
        query: "ROW x = zz | ENRICH u",
        status: Status::Refused,
        out: "",
        err: "line 1:21: unknown policy [u]\n",
    },
    Case {
        query: "FROM t | EVAL x = zz",
        status: Status::Refused,
        out: "",
        err: "line 1:19: unknown column [zz]\n",
    },
];

#[test]
fn queries(rt: HostRuntime) -> Result<(), Fail> {
    for case in &CASES {
        let (status, out, err) = run_over(rt.alloc(), &[case.query], ROWS, NONE)?;
        let warnings = case.err.replace(rt.alloc(), "W", HEAD)?;
        assert_eq!(rt; status, case.status);
        assert_eq!(rt; out.bytes(), case.out.as_bytes());
        assert_eq!(rt; err.bytes(), warnings.as_bytes());
    }
    Ok(())
}

#[test]
fn bad_rows_are_named_behind_broken_rules(rt: HostRuntime) -> Result<(), Fail> {
    let (status, _, err) = run_over(rt.alloc(), &["FROM t"], "{\"a\":{\"b\":1.5}}", NONE)?;
    assert_eq!(rt; status, Status::BadData);
    assert_eq!(rt;
        err.bytes(),
        b"t.ndjson:1: field [a.b]: not a whole number in range\n".as_slice()
    );
    let (status, _, err) = run_over(rt.alloc(), &["FROM t | KEEP zz"], "[", NONE)?;
    assert_eq!(rt; status, Status::Refused);
    assert_eq!(rt; err.bytes(), b"line 1:15: unknown column [zz]\n".as_slice());
    Ok(())
}

/// Words and what is written for them.
struct Words {
    words: &'static [&'static str],
    out: &'static str,
}

const JSON: &str =
    "{\"columns\":[{\"name\":\"a\",\"type\":\"null\"},{\"name\":\"b\",\"type\":\"integer\"}],\"values\":[[null,[1,2]]]}\n";

const GENERATED: &str =
    "n | total | top   | dept\n--+-------+-------+-----\n1 | 51807 | 51807 | d2\ngenerated 1 rows from 0\n";

const WORDS: [Words; 4] = [
    Words {
        words: &["--format", "json", "ROW a = null, b = [1, 2]"],
        out: JSON,
    },
    Words {
        words: &["--data", "d", "FROM t", "--format=csv"],
        out: "a.b\n7\n",
    },
    Words {
        words: &["--page-size", "1", "--data=d", "FROM t"],
        out: "a.b\n---\n7\n",
    },
    Words {
        words: &["--generate", "0,1"],
        out: GENERATED,
    },
];

#[test]
fn words_say_what_is_asked(rt: HostRuntime) -> Result<(), Fail> {
    for case in &WORDS {
        let (status, out, err) = run_over(rt.alloc(), case.words, ROWS, NONE)?;
        assert_eq!(rt; status, Status::Done);
        assert_eq!(rt; out.bytes(), case.out.as_bytes());
        assert_eq!(rt; err.bytes(), b"".as_slice());
    }
    Ok(())
}

const WRONG: [&[&str]; 4] = [
    &[],
    &["--explain", "ROW a = 1"],
    &["--format", "xml", "FROM t"],
    &["--help"],
];

#[test]
fn other_words_show_the_usage(rt: HostRuntime) -> Result<(), Fail> {
    for words in &WRONG {
        let (status, out, err) = run_over(rt.alloc(), words, ROWS, NONE)?;
        assert_eq!(rt; status.code(), 2);
        assert_eq!(rt; out.bytes(), b"".as_slice());
        assert!(rt; err.bytes().starts_with(b"usage: esql [--data DIR]"));
    }
    Ok(())
}

#[test]
fn a_pattern_is_too_large(rt: HostRuntime) -> Result<(), Fail> {
    let words = ["ROW s = \"ab\" | EVAL x = s RLIKE \"a+\""];
    for call in 0..3 {
        let failing = Failing {
            built: call,
            ..NONE
        };
        let (status, out, err) = run_over(rt.alloc(), &words, ROWS, failing)?;
        if call < 2 {
            assert_eq!(rt; status.code(), 7);
            assert_eq!(rt; out.bytes(), b"".as_slice());
            assert_eq!(rt; err.bytes(), b"line 1:33: pattern too large\n".as_slice());
        } else {
            assert_eq!(rt; status, Status::Done);
        }
    }
    Ok(())
}

#[test]
fn a_failed_call_ends_the_run(rt: HostRuntime) -> Result<(), Fail> {
    let failing = Failing { read: 2, ..NONE };
    let (status, out, err) = run_over(rt.alloc(), &["FROM t"], ROWS, failing)?;
    assert_eq!(rt; status.code(), 4);
    assert_eq!(rt; out.bytes(), b"".as_slice());
    assert_eq!(rt; err.bytes(), b"cannot read t.mapping.json\n".as_slice());
    let failing = Failing { write: 1, ..NONE };
    let (status, out, err) = run_over(rt.alloc(), &["ROW a = 1 | EVAL b = a + 2"], ROWS, failing)?;
    assert_eq!(rt; status.code(), 5);
    assert_eq!(rt; out.bytes(), b"a | b\n--+-".as_slice());
    assert_eq!(rt; err.bytes(), b"".as_slice());
    Ok(())
}
