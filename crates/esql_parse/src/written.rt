//! A query with one more command.

ghost use Rattle.std.specs.Prelude.{◌≡◌, IfOk};
ghost use Rattle.esql_parse.specs.Grammar.{begin_with, continue_with, with_command};

use crate::Written;
use esql_ast::{Command, SourceCommand};
use esql_commands::CommandEnd;
use esql_types::{NodeId, Seq, Span};
use std::alloc::{AllocError, Global};

fn begin_with(alloc: Global, says: CommandEnd, span: Span) -> Option<Written>
    ensures { result ≡ begin_with says span }
{
    let node = NodeId(0);
    let source = match says {
        CommandEnd::From(tables) => SourceCommand::Tables { node, span, tables },
        CommandEnd::Row(fields) => SourceCommand::OneRow { node, span, fields },
        CommandEnd::Piped(_) => return None,
    };
    let commands = Seq::new(alloc);
    Some(Written { source, commands })
}

fn continue_with(
    written: Written,
    says: CommandEnd,
    span: Span,
) -> Result<Option<Written>, AllocError>
    ensures { IfOk result (λ more. more ≡ continue_with written says span) }
{
    let Written {
        source,
        mut commands,
    } = written;
    match says {
        CommandEnd::Piped(kind) => {
            let node = NodeId(0);
            commands.push(Command { node, span, kind })?;
            Ok(Some(Written { source, commands }))
        }
        CommandEnd::From(_) | CommandEnd::Row(_) => Ok(None),
    }
}

pub(crate) fn with_command(
    alloc: Global,
    before: Option<Written>,
    says: CommandEnd,
    span: Span,
) -> Result<Option<Written>, AllocError>
    ensures { IfOk result (λ written. written ≡ with_command before says span) }
{
    match before {
        None => Ok(begin_with(alloc, says, span)),
        Some(written) => continue_with(written, says, span),
    }
}
