ghost use Rattle.std.specs.Prelude.{◌≡◌, IfOk};
ghost use Rattle.esql_types.specs.Spans.{SpanFits};
ghost use Rattle.answer_text.specs.Messages.{bad_data_line};
ghost use Rattle.table_files.specs.Halts.{absent, unknown_policy};
ghost use Rattle.table_files.specs.Stops.{halt_line};
ghost use Rattle.table_files.specs.declared.stop.Stop.TheVariants.{BadData, Memory, Refused};

use answer_text::{Refusal, bad_data_line, named_refusal_line, refusal_line};
use esql_types::{Span, Text};
use std::alloc::{AllocError, Global};

/// Why tables were not found or not loaded.
#[derive(Drop)]
pub enum Stop {
    /// The query is refused at a name that is no table's, with the line that says so.
    Refused { line: Text },
    /// A file is bad, with the line that names it.
    BadData { line: Text },
    /// A call on a file failed.
    ReadFault { file: Text },
    Memory(AllocError),
}

impl From<AllocError> for Stop {
    ghost from_gives = { λ error result. result ≡ Memory error };

    fn from(error: AllocError) -> Stop {
        Stop::Memory(error)
    }
}

/// The stop at a name that is no table's, which stands in the query or, for a policy, at the policy's name.
pub(crate) fn unknown_table(
    alloc: Global,
    text: &str,
    policy: bool,
    name: &str,
    span: Span,
) -> Result<Stop, AllocError>
    requires { SpanFits text.now span }
    ensures { IfOk result (λ stop. stop ≡ Refused (halt_line text.now (absent policy (record { name = name.now; span = span })))) }
{
    let line = if policy {
        named_refusal_line(alloc, text, Refusal::UnknownTable, name, span)?
    } else {
        refusal_line(alloc, text, Refusal::UnknownTable, span)?
    };
    Ok(Stop::Refused { line })
}

/// The stop at a name of the query that is no policy's.
pub(crate) fn unknown_policy(alloc: Global, text: &str, span: Span) -> Result<Stop, AllocError>
    requires { SpanFits text.now span }
    ensures { IfOk result (λ stop. stop ≡ Refused (halt_line text.now (unknown_policy span))) }
{
    Ok(Stop::Refused {
        line: refusal_line(alloc, text, Refusal::UnknownPolicy, span)?,
    })
}

/// The stop at a bad file, of which a message says why.
pub(crate) fn bad_data(alloc: Global, message: Text) -> Result<Stop, AllocError>
    ensures { IfOk result (λ stop. stop ≡ BadData (bad_data_line message)) }
{
    Ok(Stop::BadData {
        line: bad_data_line(alloc, message.as_str())?,
    })
}
