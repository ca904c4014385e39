ghost use Rattle.std.specs.Prelude.{◌≡◌};
ghost use Rattle.std.specs.Option.{option_map};
ghost use Rattle.plan_semantics.specs.Plans.{columns_of};
ghost use Rattle.row_semantics.specs.Typed.{visible_named};
ghost use Rattle.query_semantics.specs.Shapes.{shape_of_expand};
ghost use Rattle.query_semantics.specs.Written.{write_expand};
ghost use Rattle.plan_writing.specs.Writings.{seen, HasRoom};
ghost use Rattle.plan_writing.specs.Answers.{Writes};

use esql_ast::NameAt;
use esql_plan::Step;
use esql_types::{ColId, Text};
use expression_analysis::AnalyzeError;
use plan_writing::Writing;
use row_semantics::NameRule;
use std::alloc::Global;
use visible_columns::VisibleColumns;

// The number of the column of a name.
fn number_of(visible: &VisibleColumns, name: &Text) -> Option<ColId>
    ensures { result ≡ option_map (λ column. column.id) (visible_named visible.now name.now) }
{
    match visible.named(name.as_str()) {
        Some(shown) => Some(shown.id),
        None => None,
    }
}

/// MV_EXPAND: a column of a new number takes the place of that of the name.
pub(crate) fn write_expand(
    alloc: Global,
    writing: Writing,
    column: &NameAt,
) -> Result<Writing, AnalyzeError>
    requires { HasRoom (seen writing) 1 }
    ensures { Writes (λ accepts. shape_of_expand column.now (columns_of writing.visible)) (write_expand column.now.name (seen writing)) result }
{
    let Writing {
        visible,
        next,
        patterns,
        cutters,
        steps,
    } = writing;
    let id = match number_of(&visible, &column.name) {
        Some(id) => id,
        None => {
            return Err(AnalyzeError::Broken {
                rule: NameRule::UnknownColumn,
                span: column.span,
            });
        }
    };
    let visible = visible.renumber(alloc, column.name.as_str(), ColId(next))?;
    let mut steps = steps;
    steps.push(Step::Expand {
        id,
        to: ColId(next),
    })?;
    Ok(Writing {
        visible,
        next: next + 1,
        patterns,
        cutters,
        steps,
    })
}
