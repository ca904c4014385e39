ghost use Rattle.std.specs.Prelude.{[], length};
ghost use Rattle.std.specs.List.{flat_map};
ghost use Rattle.esql_ast.specs.Nodes.{nodes_of_key};
ghost use Rattle.plan_semantics.specs.Plans.{columns_of};
ghost use Rattle.query_semantics.specs.Shapes.{shape_of_keys};
ghost use Rattle.query_semantics.specs.Written.{write_sort};
ghost use Rattle.plan_writing.specs.Contexts.{over};
ghost use Rattle.plan_writing.specs.Writings.{seen, HasRoom};
ghost use Rattle.plan_writing.specs.Answers.{Writes, Hears};
ghost use Rattle.esql_analyze.specs.Regulars.{regulars_of_key};

use esql_ast::SortKey;
use esql_plan::{PlanKey, Step};
use esql_types::{Maker, Seq};
use expression_analysis::AnalyzeError;
use plan_writing::{Input, Writing, write_input};
use std::alloc::Global;

/// SORT: the inputs of its keys, then one step.
pub(crate) fn write_sort<M: Maker>(
    alloc: Global,
    writing: Writing,
    keys: &[SortKey],
    maker: &mut M,
) -> Result<Writing, AnalyzeError>
    requires { HasRoom (seen writing) (length (flat_map nodes_of_key keys.now)) }
    ensures writes { Writes (λ accepts. shape_of_keys (over [] accepts) keys.now (columns_of writing.visible)) (write_sort keys.now (seen writing)) result }
    ensures hears { Hears M.refused M.last (flat_map regulars_of_key keys.now) maker.old maker.new result }
{
    let mut writing = writing;
    let mut plan_keys = Seq::new(alloc);
    for key in keys {
        let input = write_input(alloc, writing, &key.expr, maker)?;
        writing = input.writing;
        plan_keys.push(PlanKey {
            id: input.id,
            descending: key.descending,
            nulls_first: key.nulls_first,
        })?;
    }
    writing.steps.push(Step::Sort { keys: plan_keys })?;
    Ok(writing)
}
