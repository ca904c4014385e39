use crate::{Command, CommandKind, NameAt, Query, SourceCommand, source_names};
use esql_types::{NodeId, Seq, Span, Text};
use std::alloc::{AllocError, Global};
use std::fmt::Write;
use std::test::Fail;

const NODE: NodeId = NodeId(0);

const SPAN: Span = Span { from: 0, to: 1 };

fn name_at(alloc: Global, name: &str, from: u32) -> Result<NameAt, AllocError> {
    Ok(NameAt {
        name: Text::from_str(alloc, name)?,
        span: Span { from, to: from },
    })
}

fn command(kind: CommandKind) -> Command {
    Command {
        node: NODE,
        span: SPAN,
        kind,
    }
}

fn enrich(policy: NameAt) -> Command {
    command(CommandKind::Enrich {
        policy,
        on: None,
        fields: None,
    })
}

// FROM t, u, t | ENRICH p | LOOKUP JOIN u ON a | ENRICH u
fn query(alloc: Global) -> Result<Query, AllocError> {
    let mut tables = Seq::new(alloc);
    tables.push(name_at(alloc, "t", 5)?)?;
    tables.push(name_at(alloc, "u", 8)?)?;
    tables.push(name_at(alloc, "t", 11)?)?;
    let table = name_at(alloc, "u", 38)?;
    let on = name_at(alloc, "a", 43)?;
    let mut commands = Seq::new(alloc);
    commands.push(enrich(name_at(alloc, "p", 22)?))?;
    commands.push(command(CommandKind::Join { table, on }))?;
    commands.push(enrich(name_at(alloc, "u", 54)?))?;
    Ok(Query {
        source: SourceCommand::Tables {
            node: NODE,
            span: SPAN,
            tables,
        },
        commands,
        nodes: 4,
    })
}

#[test]
fn names_count_at_their_first_place(rt: HostRuntime) -> Result<(), Fail> {
    let query = query(rt.alloc())?;
    let uses = source_names(rt.alloc(), &query)?;
    let mut text = String::new(rt.alloc());
    for used in uses.as_slice() {
        let kind = if used.policy { "policy" } else { "table" };
        let name = &used.name;
        write!(
            text,
            "{kind} {} at {}; ",
            name.name.as_str(),
            name.span.from
        )?;
    }
    assert_eq!(rt;
        text.as_str(),
        "table t at 5; table u at 8; policy p at 22; policy u at 54; "
    );
    Ok(())
}
