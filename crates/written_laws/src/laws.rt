//! Laws of written plans.

ghost use Rattle.written_laws.specs.Laws.{PlansMeanQueries, RowsHaveTheirColumns, ColumnsDiffer, LimitsKeepFailures, PlansAreWellFormed, PlansAreOrderly};

/// A law: a query that breaks no rule means what the plan means that it is written as: the same columns, the same rows in the
/// same order, and the same causes at each node.
pub fn plans_mean_queries()
    ensures { PlansMeanQueries }
{}

/// A law: the rows of a query that breaks no rule have just the names of its columns.
pub fn rows_have_their_columns()
    ensures { RowsHaveTheirColumns }
{}

/// A law: no two columns of a query that breaks no rule have one name.
pub fn columns_differ()
    ensures { ColumnsDiffer }
{}

/// A law: LIMIT drops no failure of the commands before it, whatever its count is.
pub fn limits_keep_failures()
    ensures { LimitsKeepFailures }
{}

/// A law: the plan that a query is written as, which breaks no rule, is well formed for the catalog and for the patterns that it
/// is written with.
pub fn plans_are_well_formed()
    ensures { PlansAreWellFormed }
{}

/// A law: in the plan that a query is written as, each node fails in one part at most.
pub fn plans_are_orderly()
    ensures { PlansAreOrderly }
{}
