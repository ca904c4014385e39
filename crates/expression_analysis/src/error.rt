ghost use Rattle.std.specs.Prelude.{◌≡◌};
ghost use Rattle.expression_analysis.specs.declared.error.AnalyzeError.TheVariants.{Memory};

use esql_types::Span;
use row_semantics::NameRule;
use std::alloc::AllocError;
use thiserror::Error;

/// Why a query has no plan.
#[derive(Clone, Copy, Debug, Drop, Error)]
pub enum AnalyzeError {
    /// The first rule that is broken, at its place.
    #[error("a rule of names or kinds is broken")]
    Broken { rule: NameRule, span: Span },
    /// The regular expression at the place is too large to be built.
    #[error("the regular expression is too large")]
    PatternRoom { span: Span },
    #[error(transparent)]
    Memory(AllocError),
}

impl From<AllocError> for AnalyzeError {
    ghost from_gives = { λ error result. result ≡ Memory error };

    fn from(error: AllocError) -> AnalyzeError {
        AnalyzeError::Memory(error)
    }
}
