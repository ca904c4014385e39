ghost use Rattle.std.specs.Prelude.{IfOk, IfSome};
ghost use Rattle.esql_ast.specs.Fits.{QueryFits};

use super::*;
use esql_ast::{Command, CommandKind, NameAt, Query, SourceCommand};
use esql_io::{HeldFile, MemoryFiles};
use esql_plan::{Catalog, PolicyShape};
use esql_types::{NodeId, Seq, Span, Text};
use ndjson_load::Table;
use std::alloc::{AllocError, Global};
use std::test::Fail;

const ABSENT: &str = "absent";

const NEVER: u64 = 1_000_000;

const MAPPING: &str =
    "{\"mappings\":{\"properties\":{\"k\":{\"type\":\"keyword\"},\"a\":{\"properties\":{\"b\":{\"type\":\"integer\"}}}}}}";

const ROWS: &str = "{\"k\":\"x\"}\n\n{\"a\":{\"b\":[1,2]}}\n";

const DONE: &str = "t: a.b k; 2 rows";

const UNKNOWN: &str = "line 1:6: unknown table [t]\n";

// The mapping, the rows, and what is answered of the query `FROM t`.
const CASES: &[(&str, &str, &str)] = &[
    (MAPPING, ROWS, DONE),
    (MAPPING, "", "t: a.b k; 0 rows"),
    (ABSENT, ROWS, UNKNOWN),
    (MAPPING, ABSENT, UNKNOWN),
    (ABSENT, ABSENT, UNKNOWN),
    ("{\"mappings\"", ABSENT, UNKNOWN),
    ("{\"mappings\"", "[]", "t.mapping.json: not readable JSON\n"),
    ("{}", "", "t.mapping.json: no mappings.properties\n"),
    (
        "{\"mappings\":{\"properties\":{\"a\":1}}}",
        "",
        "t.mapping.json: [a] is not an object\n",
    ),
    (
        "{\"mappings\":{\"properties\":{\"a\":{\"type\":1}}}}",
        "",
        "t.mapping.json: type of [a] is not a text\n",
    ),
    (
        "{\"mappings\":{\"properties\":{\"a\":{\"type\":\"long\",\"null_value\":\"x\"}}}}",
        "",
        "t.mapping.json: bad parameter of [a]\n",
    ),
    (
        "{\"mappings\":{\"properties\":{\"a\":{\"properties\":{\"b\":{\"type\":\"long\"}}},\"a.b\":{\"type\":\"long\"}}}}",
        "",
        "t.mapping.json: [a.b] is mapped twice\n",
    ),
    (MAPPING, "{}\n{\n", "t.ndjson:2: not readable JSON\n"),
    (MAPPING, "\n[]", "t.ndjson:2: not an object\n"),
    (
        MAPPING,
        "{}\n\n\n{\"a\":{\"b\":1.5}}\n",
        "t.ndjson:4: field [a.b]: not a whole number in range\n",
    ),
    (
        MAPPING,
        "{\"k\":{}}",
        "t.ndjson:1: field [k]: value expected\n",
    ),
    (
        MAPPING,
        "{\"a\":1}",
        "t.ndjson:1: field [a.b]: object expected\n",
    ),
    (
        MAPPING,
        "{\"k\":1.5}",
        "t.ndjson:1: field [k]: not a text\n",
    ),
    (
        "{\"mappings\":{\"properties\":{\"a\":{\"type\":\"boolean\"}}}}",
        "{\"a\":1}",
        "t.ndjson:1: field [a]: not a boolean\n",
    ),
];

const FULL: &str = "FROM t | ENRICH p";

const POLICY: &str =
    "{\"match\":{\"indices\":[\"t\",\"u\",\"t\"],\"match_field\":\"k\",\"enrich_fields\":[\"n\",\"a.b\"]}}";

const OTHER: &str =
    "{\"mappings\":{\"properties\":{\"k\":{\"type\":\"keyword\"},\"n\":{\"type\":\"integer\"}}}}";

// The document of the policy, the mapping and the rows of its other table, and what is answered of the query
// `FROM t | ENRICH p`.
const POLICY_CASES: &[(&str, &str, &str, &str)] = &[
    (
        POLICY,
        OTHER,
        "{}\n",
        "t: a.b ku: k n, p by k: n a.b of 0 1; 2 rows; 1 rows",
    ),
    (ABSENT, OTHER, "", "line 1:17: unknown policy [p]\n"),
    (POLICY, ABSENT, "", "line 1:17: unknown table [u]\n"),
    (POLICY, OTHER, ABSENT, "line 1:17: unknown table [u]\n"),
    (
        "{\"match\":",
        ABSENT,
        "",
        "p.policy.json: not readable JSON\n",
    ),
    ("{}", ABSENT, "", "p.policy.json: not a match policy\n"),
    (POLICY, "{}", "", "u.mapping.json: no mappings.properties\n"),
    (POLICY, MAPPING, "", "p.policy.json: no field [n]\n"),
    (
        POLICY,
        "{\"mappings\":{\"properties\":{\"k\":{\"type\":\"long\"}}}}",
        "",
        "p.policy.json: [k] has two kinds\n",
    ),
    (POLICY, OTHER, "[]", "u.ndjson:1: not an object\n"),
];

fn hold(
    alloc: Global,
    held: &mut Seq<HeldFile>,
    name: &str,
    bytes: &str,
) -> Result<(), AllocError> {
    if bytes == ABSENT {
        return Ok(());
    }
    held.push(HeldFile {
        name: Text::from_str(alloc, name)?,
        bytes: Seq::from_vec(Vec::from_slice(alloc, bytes.as_bytes())?),
    })
}

// Files of which one read gives at most 16 bytes, and one call fails.
fn files(
    alloc: Global,
    front: &str,
    mapping: &str,
    rows: &str,
    failing: u64,
) -> Result<MemoryFiles, AllocError> {
    let mut held = Seq::new(alloc);
    let mapping_file = format!(in alloc; "{front}t.mapping.json")?;
    hold(alloc, &mut held, mapping_file.as_str(), mapping)?;
    let row_file = format!(in alloc; "{front}t.ndjson")?;
    hold(alloc, &mut held, row_file.as_str(), rows)?;
    let mut numbers = Seq::new(alloc);
    numbers.push(failing)?;
    Ok(MemoryFiles::new(held, 16, numbers))
}

// The files of the table of the query and of the policy and its other table.
fn policy_files(
    alloc: Global,
    policy: &str,
    mapping: &str,
    rows: &str,
) -> Result<MemoryFiles, AllocError> {
    let mut held = Seq::new(alloc);
    hold(alloc, &mut held, "t.mapping.json", MAPPING)?;
    hold(alloc, &mut held, "t.ndjson", ROWS)?;
    hold(alloc, &mut held, "p.policy.json", policy)?;
    hold(alloc, &mut held, "u.mapping.json", mapping)?;
    hold(alloc, &mut held, "u.ndjson", rows)?;
    let mut numbers = Seq::new(alloc);
    numbers.push(NEVER)?;
    Ok(MemoryFiles::new(held, 16, numbers))
}

// The query `FROM t`, where the text is as long as that and has no other characters than those of ASCII.
fn from_table(alloc: Global, text: &str) -> Result<Option<Query>, AllocError>
    ensures { IfOk result (λ query. IfSome query (QueryFits text.now)) }
{
    if !text.is_ascii() || text.len() != 6 {
        return Ok(None);
    }
    let mut tables = Seq::new(alloc);
    tables.push(NameAt {
        name: Text::from_str(alloc, "t")?,
        span: Span { from: 5, to: 6 },
    })?;
    Ok(Some(Query {
        source: SourceCommand::Tables {
            node: NodeId(0),
            span: Span { from: 0, to: 6 },
            tables,
        },
        commands: Seq::new(alloc),
        nodes: 1,
    }))
}

// The query `FROM t | ENRICH p`, where the text is as long as that and has no other characters than those of ASCII.
fn with_policy(alloc: Global, text: &str) -> Result<Option<Query>, AllocError>
    ensures { IfOk result (λ query. IfSome query (QueryFits text.now)) }
{
    if !text.is_ascii() || text.len() != 17 {
        return Ok(None);
    }
    let mut tables = Seq::new(alloc);
    tables.push(NameAt {
        name: Text::from_str(alloc, "t")?,
        span: Span { from: 5, to: 6 },
    })?;
    let policy = NameAt {
        name: Text::from_str(alloc, "p")?,
        span: Span { from: 16, to: 17 },
    };
    let mut commands = Seq::new(alloc);
    commands.push(Command {
        node: NodeId(1),
        span: Span { from: 9, to: 17 },
        kind: CommandKind::Enrich {
            policy,
            on: None,
            fields: None,
        },
    })?;
    Ok(Some(Query {
        source: SourceCommand::Tables {
            node: NodeId(0),
            span: Span { from: 0, to: 6 },
            tables,
        },
        commands,
        nodes: 2,
    }))
}

fn push_stop(out: &mut String, stop: &Stop) -> Result<(), AllocError> {
    match stop {
        Stop::Refused { line } => out.push_str(line.as_str()),
        Stop::BadData { line } => out.push_str(line.as_str()),
        Stop::ReadFault { file } => write!(out, "fault of {}", file.as_str()),
        Stop::Memory(error) => Err(*error),
    }
}

fn push_catalog(out: &mut String, catalog: &Catalog) -> Result<(), AllocError> {
    for table in catalog.tables.as_slice() {
        write!(out, "{}:", table.name.as_str())?;
        for column in table.columns.as_slice() {
            write!(out, " {}", column.name.as_str())?;
        }
    }
    for policy in catalog.policies.as_slice() {
        push_policy(out, policy)?;
    }
    Ok(())
}

fn push_policy(out: &mut String, policy: &PolicyShape) -> Result<(), AllocError> {
    let matched = policy.match_field.name.as_str();
    write!(out, ", {} by {}:", policy.name.as_str(), matched)?;
    for field in policy.fields.as_slice() {
        write!(out, " {}", field.name.as_str())?;
    }
    out.push_str(" of")?;
    for number in policy.tables.as_slice() {
        write!(out, " {number}")?;
    }
    Ok(())
}

fn push_tables(out: &mut String, tables: &[Table]) -> Result<(), AllocError> {
    for table in tables {
        write!(out, "; {} rows", table.rows())?;
    }
    Ok(())
}

// The tables of a query, or why there are none.
fn answer(
    alloc: Global,
    text: &str,
    query: &Query,
    folder: Option<&str>,
    files: &mut MemoryFiles,
) -> Result<String, AllocError>
    requires { QueryFits text.now query.now }
{
    let mut out = String::new(alloc);
    match gather(alloc, text, query, folder, files) {
        Ok(gathered) => match load(alloc, text, query, folder, gathered, files) {
            Ok(loaded) => {
                push_catalog(&mut out, &loaded.catalog)?;
                push_tables(&mut out, loaded.tables.as_slice())?;
            }
            Err(stop) => push_stop(&mut out, &stop)?,
        },
        Err(stop) => push_stop(&mut out, &stop)?,
    }
    Ok(out)
}

#[test]
fn names_stand_for_tables(rt: HostRuntime) -> Result<(), Fail> {
    for (mapping, rows, wanted) in CASES {
        let mut files = files(rt.alloc(), "", mapping, rows, NEVER)?;
        if let Some(query) = from_table(rt.alloc(), "FROM t")? {
            let answer = answer(rt.alloc(), "FROM t", &query, None, &mut files)?;
            assert_eq!(rt; answer.as_str(), *wanted);
        }
    }
    Ok(())
}

#[test]
fn names_stand_for_policies(rt: HostRuntime) -> Result<(), Fail> {
    for (policy, mapping, rows, wanted) in POLICY_CASES {
        let mut files = policy_files(rt.alloc(), policy, mapping, rows)?;
        if let Some(query) = with_policy(rt.alloc(), FULL)? {
            let answer = answer(rt.alloc(), FULL, &query, None, &mut files)?;
            assert_eq!(rt; answer.as_str(), *wanted);
        }
    }
    Ok(())
}

// The mapping is opened and read, then the row file opened, then opened again and read; the last read of a file gives
// nothing.
#[test]
fn each_failed_call_is_a_fault(rt: HostRuntime) -> Result<(), Fail> {
    let mapping_calls = 2 + (MAPPING.len() as u64 + 15) / 16;
    let calls = mapping_calls + 3 + (ROWS.len() as u64 + 15) / 16;
    for call in 0..=calls {
        let mut files = files(rt.alloc(), "d/", MAPPING, ROWS, call)?;
        if let Some(query) = from_table(rt.alloc(), "FROM t")? {
            let answer = answer(rt.alloc(), "FROM t", &query, Some("d"), &mut files)?;
            let wanted = if call < mapping_calls {
                "fault of d/t.mapping.json"
            } else if call < calls {
                "fault of d/t.ndjson"
            } else {
                DONE
            };
            assert_eq!(rt; answer.as_str(), wanted);
        }
    }
    Ok(())
}
