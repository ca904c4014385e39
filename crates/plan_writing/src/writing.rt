ghost use Rattle.std.specs.Prelude.{◌≡◌, [], IfOk};
ghost use Rattle.plan_semantics.specs.Plans.{columns_of};
ghost use Rattle.query_semantics.specs.Shapes.{unless_empty};
ghost use Rattle.query_semantics.specs.Written.{write_limit};
ghost use Rattle.plan_writing.specs.Writings.{seen};
ghost use Rattle.plan_writing.specs.Answers.{Writes};

use dissect_grok::Cutter;
use esql_plan::Step;
use esql_types::{Seq, Span};
use expression_analysis::AnalyzeError;
use row_semantics::NameRule;
use std::alloc::{AllocError, Global};
use text_match::Patterns;
use visible_columns::VisibleColumns;

/// A plan that is being written: the columns that can be seen, the next column number, and what was read and written so far.
#[derive(Drop)]
pub struct Writing {
    pub visible: VisibleColumns,
    pub next: u32,
    pub patterns: Patterns,
    pub cutters: Seq<Cutter>,
    pub steps: Seq<Step>,
}

/// A plan before its first step, over columns that are read; `next` is the first number that none of them has.
pub fn begin(alloc: Global, visible: VisibleColumns, next: u32) -> Writing
    ensures { seen result ≡ record { visible = visible; next = next; whole = []; free = []; cutters = []; steps = [] } }
{
    Writing {
        visible,
        next,
        patterns: Patterns {
            whole: Seq::new(alloc),
            free: Seq::new(alloc),
        },
        cutters: Seq::new(alloc),
        steps: Seq::new(alloc),
    }
}

/// One more step, which leaves the first `count` rows.
pub fn write_limit(count: u64, writing: Writing) -> Result<Writing, AllocError>
    ensures { IfOk result (λ new. seen new ≡ write_limit count (seen writing)) }
{
    let mut writing = writing;
    writing.steps.push(Step::Limit { count })?;
    Ok(writing)
}

/// The plan, unless no column can be seen, which is refused at `span`.
pub fn unless_empty(span: Span, writing: Writing) -> Result<Writing, AnalyzeError>
    ensures { Writes (λ accepts. unless_empty span (columns_of writing.visible)) (seen writing) result }
{
    if writing.visible.is_empty() {
        return Err(AnalyzeError::Broken {
            rule: NameRule::EmptyResultColumns,
            span,
        });
    }
    Ok(writing)
}
