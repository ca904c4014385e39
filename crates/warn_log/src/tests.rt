ghost use Rattle.std.specs.Prelude.{All, IfSome};
ghost use Rattle.esql_types.specs.Spans.{SpanFits};
ghost use Rattle.esql_ast.specs.Nodes.{warned_nodes_of};

use super::*;
use esql_ast::{Query, SourceCommand};
use esql_types::{Cause, NodeId, RowFailure, Seq, Span};
use std::alloc::Global;
use std::test::Fail;

// A query of one command, which is the whole text, where that has no other characters than those of ASCII.
fn one_command(alloc: Global, text: &str) -> Option<Query>
    ensures { IfSome result (λ query. All (λ n. SpanFits text.now n.span) (warned_nodes_of query)) }
{
    if !text.is_ascii() || text.len() >= 4294967295 {
        return None;
    }
    let span = Span {
        from: 0,
        to: text.len() as u32,
    };
    Some(Query {
        source: SourceCommand::Tables {
            node: NodeId(0),
            span,
            tables: Seq::new(alloc),
        },
        commands: Seq::new(alloc),
        nodes: 1,
    })
}

#[test]
fn the_first_failures_are_printed(rt: HostRuntime) -> Result<(), Fail> {
    let mut log = Log::open(rt.alloc(), 1)?;
    let mut page = Seq::new(rt.alloc());
    for row in 0..18u32 {
        page.push(RowFailure {
            row,
            cause: Cause::ByZero,
        })?;
    }
    log.note(NodeId(0), Cause::LongOverflow);
    log.note_page(NodeId(0), page);
    log.note(NodeId(0), Cause::Multi);
    log.note(NodeId(0), Cause::EmptyDelimiter);
    if let Some(query) = one_command(rt.alloc(), "FROM t") {
        let want =
            "Line 1:1: evaluation of [FROM t] failed, treating result as null. Only first 20 failures recorded.
Line 1:1: long overflow
Line 1:1: / by zero
Line 1:1: single-value function encountered multi-value
";
        assert_eq!(rt; log.print(rt.alloc(), "FROM t", &query)?.as_str(), want);
    }
    Ok(())
}
