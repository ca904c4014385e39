ghost use Rattle.std.specs.Prelude.{◌≡◌};
ghost use Rattle.expression_analysis.specs.Steps.{over_of, within_over};

use row_semantics::CallColumn;
use visible_columns::VisibleColumns;

/// What an expression is typed over: the columns that can be seen, those that stand for aggregate calls, and whether it stands
/// in a field of STATS, where aggregates may be called.
#[derive(Clone, Copy)]
pub(crate) struct Sight<'a> {
    pub(crate) columns: &'a VisibleColumns,
    pub(crate) calls: &'a [CallColumn],
    pub(crate) in_field: bool,
}

impl<'a> Sight<'a> {
    /// What the argument of an aggregate is typed over.
    pub(crate) fn within_aggregate(&self) -> Sight<'a>
        ensures { over_of result ≡ within_over (over_of self.now) }
    {
        Sight {
            columns: self.columns,
            calls: self.calls,
            in_field: false,
        }
    }
}
