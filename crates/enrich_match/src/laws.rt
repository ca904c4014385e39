ghost use Rattle.std.specs.Prelude.{◌≡◌, [], ℕ, ℤ, List, filter, length, slice_index_or, true};
ghost use Rattle.std.specs.List.{sum_by};
ghost use Rattle.esql_types.specs.declared.value.Value.{Value};
ghost use Rattle.esql_types.specs.declared.value.Value.TheVariants.{Int, Long};
ghost use Rattle.enrich_match.specs.Matches.{MatchRow, equal_widened, is_match, matched_cell};

/// A law: null matches no row, so that it gives null.
pub fn null_matches_nothing()
    ensures { (rows : List MatchRow) (field : ℕ) → matched_cell rows [] field ≡ [] }
{}

/// A law: where there is no row, each cell gives null.
pub fn no_rows_give_null()
    ensures { (cell : List Value) (field : ℕ) → matched_cell [] cell field ≡ [] }
{}

/// A law: a cell gives as many values as the matching rows have.
pub fn repeats_are_kept()
    ensures { (rows : List MatchRow) (cell : List Value) (field : ℕ)
        → length (matched_cell rows cell field) ≡ sum_by (λ (row : MatchRow). length (slice_index_or row.fields field [])) (filter (is_match cell) rows) }
{}

/// A law: an integer is equal to the long of the same number.
pub fn integers_match_longs()
    ensures { (number : ℤ) → equal_widened (Int number) (Long number) ≡ true }
{}
