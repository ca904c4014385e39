use esql_types::Span;
use row_semantics::NameRule;
use std::alloc::AllocError;

/// Why FROM has no columns.
#[derive(Debug, Drop)]
pub enum SourceError {
    /// A name breaks a rule: no table has it, or a column of its table has another kind in a table before.
    Broken { rule: NameRule, span: Span },
    /// Memory was refused.
    Memory(AllocError),
}

impl From<AllocError> for SourceError {
    ghost use Rattle.source_columns.specs.Refusals.{IsWantOfMemory};

    ghost from_gives = { λ _ error. IsWantOfMemory error };

    fn from(refused: AllocError) -> SourceError {
        SourceError::Memory(refused)
    }
}
