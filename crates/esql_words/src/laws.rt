ghost use Rattle.std.specs.Prelude.{◌≡◌, ◌≢◌, ℕ, List, [], ◌∷◌, slice_index, Some};
ghost use Rattle.esql_words.specs.Words.{options_alone, options_of};

/// A law: one word that does not begin with `-` is a query, whatever else it holds.
pub fn plain_word()
    ensures { (query : List ℕ) → slice_index query 0 ≢ 45 → options_of (query ∷ []) ≡ Some (options_alone query) }
{}
