ghost use Rattle.std.specs.Prelude.{ℕ};
ghost use Rattle.plan_semantics.specs.WellFormed.{IsTable};
ghost use Rattle.table_generator.specs.Tables.{generated_table};

/// A law: each row of the table has a cell of its kind for each column.
pub fn rows_have_their_kinds()
    ensures { (seed rows : ℕ) → IsTable (generated_table seed rows) }
{}
