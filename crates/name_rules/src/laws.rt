//! Laws of the columns that KEEP and RENAME leave.
ghost use Rattle.std.specs.Prelude.{List, ℕ};
ghost use Rattle.esql_ast.specs.declared.query.NamePattern.{NamePattern};
ghost use Rattle.esql_ast.specs.declared.query.RenamePair.{RenamePair};
ghost use Rattle.name_rules.specs.NameLaws.{KeptAreWon, KeptOnce, KeptDiffer, RenamedDiffer};

/// A law: each place that KEEP leaves is that of a column that a pattern wins: no pattern of a higher rank meets the column, and
/// none of the same rank to its right.
pub fn kept_are_won()
    ensures { (names : List (List ℕ)) (patterns : List NamePattern) → KeptAreWon names patterns }
{}

/// A law: KEEP leaves each column that some pattern meets once, and no other.
pub fn kept_once()
    ensures { (names : List (List ℕ)) (patterns : List NamePattern) → KeptOnce names patterns }
{}

/// A law: the places that KEEP leaves differ.
pub fn kept_differ()
    ensures { (names : List (List ℕ)) (patterns : List NamePattern) → KeptDiffer names patterns }
{}

/// A law: where the names of columns differ, the names that RENAME leaves do.
pub fn renamed_differ()
    ensures { (names : List (List ℕ)) (pairs : List RenamePair) → RenamedDiffer names pairs }
{}
