//! Commands that are not built.
ghost use Rattle.std.specs.Prelude.{◌≡◌, ℕ, List, IfSome};
ghost use Rattle.esql_types.specs.Spans.{SpanFits};
ghost use Rattle.esql_ast.specs.Fits.{QueryFits};
ghost use Rattle.query_semantics.specs.Built.{is_built_kind};
ghost use Rattle.esql_run.specs.Built.{unbuilt_of};

use esql_ast::{CommandKind, Query};
use esql_types::Span;

/// The span of the first command that is not built.
pub(crate) fn first_unbuilt(query: &Query) -> Option<Span>
    ensures first { result ≡ unbuilt_of query.now }
    ensures place { (text : List ℕ) → QueryFits text query.now → IfSome result (SpanFits text) }
{
    for command in query.commands.as_slice() {
        if !is_built_kind(&command.kind) {
            return Some(command.span);
        }
    }
    None
}

fn is_built_kind(kind: &CommandKind) -> bool
    ensures { result ≡ is_built_kind kind.now }
{
    match kind {
        CommandKind::Filter { .. } => true,
        CommandKind::Eval { .. } => true,
        CommandKind::Keep { .. } => true,
        CommandKind::Drop { .. } => true,
        CommandKind::Rename { .. } => true,
        CommandKind::Sort { .. } => true,
        CommandKind::Limit { .. } => true,
        CommandKind::Expand { .. } => true,
        CommandKind::Stats { .. } => true,
        CommandKind::Dissect { .. } => true,
        CommandKind::Grok { .. } => true,
        CommandKind::Enrich { .. } => true,
        CommandKind::Join { .. } => false,
    }
}
