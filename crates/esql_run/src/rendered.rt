ghost use Rattle.std.specs.Prelude.{◌≡◌, ◌≤◌, ◌<◌, IfOk};
ghost use Rattle.std.specs.Str.{IsCharBoundary};
ghost use Rattle.esql_run.specs.Bytes.{one_line, refused};
ghost use Rattle.esql_run.specs.declared.status.Status.TheVariants.{BadData, Refused};
ghost use Rattle.esql_run.specs.Made.{outcome_made};

use crate::Status;
use answer_text::{Refusal, refusal_line};
use esql_types::{Span, Text};
use std::alloc::{AllocError, Global};

/// All that will be written, rendered.
#[derive(Drop)]
pub(crate) struct Rendered {
    pub(crate) status: Status,
    pub(crate) out: Text,
    pub(crate) err: Text,
}

/// Why there is no answer.
#[derive(Drop)]
pub(crate) enum Unanswered {
    /// A call on a file failed.
    ReadFault { file: Text },
    /// A regular expression is too large, as the line says.
    PatternRoom { line: Text },
    Memory(AllocError),
}

impl From<AllocError> for Unanswered {
    ghost use Rattle.esql_run.specs.declared.rendered.Unanswered.TheVariants.{Memory};

    ghost from_gives = { λ refused unanswered. unanswered ≡ Memory refused };

    fn from(refused: AllocError) -> Unanswered {
        Unanswered::Memory(refused)
    }
}

/// The refusal of a part of a query.
pub(crate) fn refuse(
    alloc: Global,
    text: &str,
    refusal: Refusal,
    span: Span,
) -> Result<Rendered, AllocError>
    requires ordered { span.from ≤ span.to }
    requires begins { IsCharBoundary text.now span.from }
    requires ends { IsCharBoundary text.now span.to }
    requires short { span.from < 4294967295 }
    ensures { IfOk result (λ answer. outcome_made answer ≡ refused text.now refusal span) }
{
    Ok(Rendered {
        status: Status::Refused,
        out: Text::from_str(alloc, "")?,
        err: refusal_line(alloc, text, refusal, span)?,
    })
}

/// The refusal of a query, by the line that says it.
pub(crate) fn refuse_by(alloc: Global, line: Text) -> Result<Rendered, AllocError>
    ensures { IfOk result (λ answer. outcome_made answer ≡ one_line Refused line) }
{
    Ok(Rendered {
        status: Status::Refused,
        out: Text::from_str(alloc, "")?,
        err: line,
    })
}

/// The answer where a file is bad, by the line that names it.
pub(crate) fn bad_file(alloc: Global, line: Text) -> Result<Rendered, AllocError>
    ensures { IfOk result (λ answer. outcome_made answer ≡ one_line BadData line) }
{
    Ok(Rendered {
        status: Status::BadData,
        out: Text::from_str(alloc, "")?,
        err: line,
    })
}
