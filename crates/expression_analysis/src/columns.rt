ghost use Rattle.row_semantics.specs.Typed.{visible_named};
ghost use Rattle.expression_analysis.specs.Steps.{IsPlainAnswer, column_or_rule};

use crate::AnalyzeError;
use esql_plan::{TypedExpr, TypedForm};
use esql_types::{NodeId, Span};
use row_semantics::NameRule;
use visible_columns::VisibleColumns;

/// The first column of the name, which has to be there.
pub(crate) fn typed_column(
    node: NodeId,
    span: Span,
    name: &str,
    columns: &VisibleColumns,
) -> Result<TypedExpr, AnalyzeError>
    ensures { IsPlainAnswer (column_or_rule node span (visible_named columns.now name.now)) result }
{
    match columns.named(name) {
        Some(shown) => Ok(TypedExpr {
            node,
            kind: shown.kind,
            form: TypedForm::Column { id: shown.id },
        }),
        None => Err(AnalyzeError::Broken {
            rule: NameRule::UnknownColumn,
            span,
        }),
    }
}
