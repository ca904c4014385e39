//! Laws of plans.

ghost use Rattle.plan_semantics.specs.Laws.{RowsSplit, FailuresSplit, ReadsItsColumns, StepsReadTheirColumns, StepsMakeOnce, StepsKeep, EachAgrees, AgreeBack, AgreeThrough, EqualAgree, FailsByRows, FailsByParts, PlanFailsByParts, OwnNodesAreOrderly, ValuesHaveTheirKind, RowsKeepKinds, PlansFitRows, PlansShowKinds, ValuesFailBelow, PlansFailBelow, NewColumnsHold, NullIsCutToNull, GrokHasKinds, EmptyPolicyGivesNull, NullMatchesNothing};

/// A law: the rows after steps and others behind them are the rows after the others of the rows after the first.
pub fn rows_split()
    ensures { RowsSplit }
{}

/// A law: the failures of steps and others behind them are those of the first, and then those of the others on the rows
/// after the first.
pub fn failures_split()
    ensures { FailuresSplit }
{}

/// A law: the value of an expression depends on the columns that it reads alone.
pub fn expressions_read_their_columns()
    ensures { ReadsItsColumns }
{}

/// A law: what steps give of rows, and fail with on them, depends on the columns that they read alone.
pub fn steps_read_their_columns()
    ensures { StepsReadTheirColumns }
{}

/// A law: a source and steps that are well formed make each column once where no step is Stats.
pub fn steps_make_once()
    ensures { StepsMakeOnce }
{}

/// A law: a step of a well formed plan keeps what a row has in the columns that are made before it.
pub fn steps_keep_columns()
    ensures { StepsKeep }
{}

/// A law: what a plan shows agrees with itself.
pub fn each_agrees()
    ensures { EachAgrees }
{}

/// A law: where this agrees with that, that agrees with this.
pub fn agree_back()
    ensures { AgreeBack }
{}

/// A law: what agrees with what agrees with a third agrees with that third.
pub fn agree_through()
    ensures { AgreeThrough }
{}

/// A law: what is equal agrees.
pub fn equal_agree()
    ensures { EqualAgree }
{}

/// A law: over rows on which an expression is orderly, its value fails at each node as its parts do, row by row.
pub fn values_fail_by_rows()
    ensures { FailsByRows }
{}

/// A law: over rows on which an expression is orderly, its value fails at each node as its parts do, part by part.
pub fn values_fail_by_parts()
    ensures { FailsByParts }
{}

/// A law: an orderly plan fails at each node as its parts do, one after another.
pub fn plans_fail_by_parts()
    ensures { PlanFailsByParts }
{}

/// A law: a plan in which no two parts have one node is orderly on all tables.
pub fn own_nodes_are_orderly()
    ensures { OwnNodesAreOrderly }
{}

/// A law: the value of a well formed expression has its kind, on a row with cells of their kinds in the columns that it
/// reads.
pub fn values_have_their_kind()
    ensures { ValuesHaveTheirKind }
{}

/// A law: the rows after the steps of a well formed plan have a cell of its kind in each column that is made.
pub fn rows_keep_kinds()
    ensures { RowsKeepKinds }
{}

/// A law: over tables of the catalog each expression of a well formed plan fits each row that it is evaluated on.
pub fn plans_fit_rows()
    ensures { PlansFitRows }
{}

/// A law: over tables of the catalog a well formed plan shows rows with a cell of its kind for each of its columns.
pub fn plans_show_kinds()
    ensures { PlansShowKinds }
{}

/// A law: an expression of a well formed plan fails at nodes below the plan's number alone.
pub fn values_fail_below()
    ensures { ValuesFailBelow }
{}

/// A law: a well formed plan fails at nodes below its number alone, on all tables.
pub fn plans_fail_below()
    ensures { PlansFailBelow }
{}

/// A law: a row with cells in new columns of different numbers has each in its column, and in every other column what it
/// had.
pub fn new_columns_hold()
    ensures { NewColumnsHold }
{}

/// A law: a DISSECT or GROK of null gives null in each of its columns, and fails in nothing.
pub fn null_is_cut_to_null()
    ensures { NullIsCutToNull }
{}

/// A law: what a GROK takes out of a cell has the kinds of its pattern's columns.
pub fn groks_have_their_kinds()
    ensures { GrokHasKinds }
{}

/// A law: an ENRICH by a policy whose tables have no rows gives null in each of its columns.
pub fn empty_policies_give_null()
    ensures { EmptyPolicyGivesNull }
{}

/// A law: an ENRICH by null gives null in each of its columns.
pub fn null_matches_nothing()
    ensures { NullMatchesNothing }
{}
