ghost use Rattle.std.specs.Prelude.{◌≡◌, All, length, IfOk};
ghost use Rattle.plan_semantics.specs.Plans.{columns_of, plan_means};
ghost use Rattle.plan_semantics.specs.WellFormed.{AreTables};
ghost use Rattle.warn_log.specs.Logs.{LogStands};
ghost use Rattle.plan_rows.specs.Held.{tables_held};

use crate::{Answer, Prepared};
use esql_plan::OutColumn;
use esql_types::{Cell, Column, Seq};
use ndjson_load::Table;
use plan_rows::run_plan;
use plan_semantics::plans_fail_below;
use std::alloc::{AllocError, Global};
use warn_log::{Log, stands_for_its_failures};

/// The answer of a query over the tables of its catalog, which stand in the catalog's order.
///
/// # Errors
///
/// Want of memory alone.
pub fn answer(alloc: Global, prepared: &Prepared, tables: &[Table]) -> Result<Answer, AllocError>
    requires tables { AreTables prepared.now.catalog (tables_held prepared.now.catalog tables.now) }
    ensures columns { IfOk result (λ answer. answer.columns ≡ columns_of prepared.now.plan.output) }
    ensures rows { IfOk result (λ answer. answer.rows ≡ (plan_means prepared.now.plan (tables_held prepared.now.catalog tables.now)).rows) }
    ensures log { IfOk result (λ answer. LogStands answer.log (plan_means prepared.now.plan (tables_held prepared.now.catalog tables.now)).failures) }
    ensures wide { IfOk result (λ answer. All (λ row. length row ≡ length answer.columns) answer.rows) }
{
    plans_fail_below();
    stands_for_its_failures();
    let plan = &prepared.plan;
    let mut log = Log::open(alloc, plan.nodes)?;
    let rows = run_plan(
        alloc,
        plan,
        &prepared.catalog,
        tables,
        &prepared.patterns,
        prepared.cutters.as_slice(),
        &mut log,
    )?;
    let columns = columns_of(alloc, plan.output.as_slice())?;
    Ok(Answer { columns, rows, log })
}

// The names and the kinds of the columns that are shown.
fn columns_of(alloc: Global, output: &[OutColumn]) -> Result<Seq<Column>, AllocError>
    ensures { IfOk result (λ columns. columns ≡ columns_of output.now) }
{
    let mut columns = Seq::new(alloc);
    for out in output {
        columns.push(Column {
            name: out.name.copy()?,
            kind: out.kind,
        })?;
    }
    Ok(columns)
}
