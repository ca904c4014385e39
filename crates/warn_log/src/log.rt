ghost use Rattle.std.specs.Prelude.{◌≡◌, ◌<◌, ◌++◌, [], List, All, map, length, IfOk, OnOk};
ghost use Rattle.std.specs.String.{string_bytes};
ghost use Rattle.esql_types.specs.declared.cause.Failure.{Failure};
ghost use Rattle.esql_types.specs.Spans.{SpanFits};
ghost use Rattle.esql_ast.specs.Nodes.{warned_nodes_of};
ghost use Rattle.answer_text.specs.Warnings.{warned, warned_of};
ghost use Rattle.warn_log.specs.Logs.{noted, logged, empty_log, kept_at, failures_at, warned_by, LogStands};

use crate::first::FirstCauses;
use answer_text::push_warnings;
use esql_ast::{NodeAt, Query, warned_nodes_of};
use esql_types::{Cause, NodeId, RowFailure, Seq, Text};
use std::alloc::{AllocError, Global};
use std::marker::Model;

/// The causes of the first 20 failures of each node of a query.
///
/// Contracts see it as the list of the nodes' causes, by the numbers of the nodes.
#[derive(Drop)]
pub struct Log {
    nodes: Vec<FirstCauses>,
}

impl Model for Log {
    ghost use Rattle.std.specs.Prelude.{List};
    ghost use Rattle.esql_types.specs.declared.cause.Cause.{Cause};

    ghost Value = { List (List Cause) };

    ghost view = { λ log. log.nodes.items };
}

impl Log {
    /// The log of so many nodes, without failures. All the room that it ever needs is taken here.
    pub fn open(alloc: Global, nodes: u32) -> Result<Log, AllocError>
        ensures { IfOk result (λ log. log ≡ empty_log nodes) }
    {
        let mut kept = Vec::with_capacity(alloc, nodes as usize)?;
        for _ in 0..nodes {
            kept.push(FirstCauses::new(alloc)?)?;
        }
        Ok(Log { nodes: kept })
    }

    /// Notes that a node failed: the cause is kept, where fewer than 20 of the node are. Takes no memory.
    pub fn note(&mut self, node: NodeId, cause: Cause)
        requires { node.0 < length self.old }
        ensures log { self.new ≡ noted self.old (record { node = node; cause = cause }) }
        ensures nodes { length self.new ≡ length self.old }
    {
        self.nodes[node.0 as usize].note(cause);
    }

    /// Notes the failures of a node at the rows of a page, in order. Takes no memory.
    pub fn note_page(&mut self, node: NodeId, failures: Seq<RowFailure>)
        requires { node.0 < length self.old }
        ensures log { self.new ≡ logged self.old (failures_at node failures) }
        ensures nodes { length self.new ≡ length self.old }
    {
        for failure in failures.into_vec() {
            let RowFailure { cause, .. } = failure;
            self.note(node, cause);
        }
    }

    /// The warnings of a query, which are those of any failures that the log stands for.
    pub fn print(&self, alloc: Global, text: &str, query: &Query) -> Result<Text, AllocError>
        requires { All (λ n. SpanFits text.now n.span) (warned_nodes_of query.now) }
        ensures log { IfOk result (λ t. t ≡ warned_by text.now (warned_nodes_of query.now) self.now) }
        ensures failures { (failures : List Failure) → LogStands self.now failures → IfOk result (λ t. t ≡ warned text.now (warned_nodes_of query.now) failures) }
    {
        let nodes = warned_nodes_of(alloc, query)?;
        let mut out = String::new(alloc);
        for at in nodes.as_slice() {
            self.push_node(alloc, &mut out, text, *at)?;
        }
        Ok(Text::from_string(out))
    }

    // Writes what is warned of a node.
    fn push_node(
        &self,
        alloc: Global,
        out: &mut String,
        text: &str,
        at: NodeAt,
    ) -> Result<(), AllocError>
        requires { SpanFits text.now at.span }
        ensures { OnOk result (string_bytes out.new ≡ string_bytes out.old ++ warned_of text.now at (kept_at self.now at.node)) }
    {
        let causes = each_of(alloc, self.kept_at(at.node))?;
        push_warnings(out, text, at, &causes)
    }

    // The causes that are kept of a node.
    fn kept_at(&self, node: NodeId) -> &[Cause]
        ensures { result.now ≡ kept_at self.now node }
    {
        match self.nodes.get(node.0 as usize) {
            Some(first) => first.as_slice(),
            None => &[],
        }
    }
}

// The causes, each where it stands.
fn each_of<'a>(alloc: Global, causes: &'a [Cause]) -> Result<Vec<&'a Cause>, AllocError>
    ensures { IfOk result (λ each. map (λ cause. cause.now) each.items ≡ causes.now) }
{
    let mut each = Vec::new(alloc);
    for cause in causes {
        each.push(cause)?;
    }
    Ok(each)
}
