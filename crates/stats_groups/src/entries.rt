ghost use Rattle.std.specs.Prelude.{◌≡◌, [], ◌∷◌, ◌++◌, List};
ghost use Rattle.plan_semantics.specs.Groups.{Entry};
ghost use Rattle.stats_groups.specs.Entries.{entry_of_row, entries_code};
ghost use base.Fml.{ftrue};

use esql_plan::{Aggregate, GroupColumn};
use esql_types::{Cell, Seq};
use std::marker::Model;

/// The rows that were added, in order, which contracts alone see: they take no memory, and the program cannot read them.
#[derive(Drop)]
pub(crate) struct Entries {
    ghost list: { List Entry } by { entries_code },
}

/// A row that is added, with the columns and the aggregates that say what groups look at in it.
#[derive(Clone, Copy)]
pub(crate) struct AddedRow<'a> {
    pub(crate) columns: &'a Seq<GroupColumn>,
    pub(crate) aggregates: &'a Seq<Aggregate>,
    pub(crate) row: &'a Seq<Cell>,
}

impl Model for Entries {
    ghost also_owns = { λ _. ftrue };
}

impl Entries {
    /// No rows.
    pub(crate) fn new() -> Entries
        ensures { result.list ≡ [] }
    {
        Entries {}
    }

    /// One more row behind them.
    pub(crate) fn then(&self, _row: &AddedRow<'_>) -> Entries
        ensures { result.list ≡ self.now.list ++ entry_of_row _row.now.columns.now _row.now.aggregates.now _row.now.row.now ∷ [] }
    {
        Entries {}
    }
}
