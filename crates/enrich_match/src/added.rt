ghost use Rattle.std.specs.Prelude.{◌≡◌, [], ◌∷◌, ◌++◌, List};
ghost use Rattle.enrich_match.specs.Matches.{MatchRow};
ghost use Rattle.enrich_match.specs.Lookups.{match_row, rows_code};
ghost use base.Fml.{ftrue};

use esql_types::Cell;
use std::marker::Model;

/// The rows that were added, in order, which contracts alone see: they take no memory, and the program cannot read them.
#[derive(Drop)]
pub(crate) struct AddedRows {
    ghost list: { List MatchRow } by { rows_code },
}

/// A row that is added.
#[derive(Clone, Copy)]
pub(crate) struct AddedRow<'a> {
    pub(crate) key: &'a Cell,
    pub(crate) fields: &'a [Cell],
}

impl Model for AddedRows {
    ghost also_owns = { λ _. ftrue };
}

impl AddedRows {
    /// No rows.
    pub(crate) fn new() -> AddedRows
        ensures { result.list ≡ [] }
    {
        AddedRows {}
    }

    /// One more row behind them.
    pub(crate) fn then(&self, _row: &AddedRow<'_>) -> AddedRows
        ensures { result.list ≡ self.now.list ++ match_row _row.now.key.now _row.now.fields.now ∷ [] }
    {
        AddedRows {}
    }
}
