//! Laws of LIKE patterns.

ghost use Rattle.std.specs.Prelude.{◌≡◌, ◌↔◌, ◌++◌, ℕ, List, true, false, codes};
ghost use Rattle.std.specs.List.{list_all};
ghost use Rattle.std.specs.Str.{chars, IsUtf8};
ghost use Rattle.function_rules.specs.Wildcards.{wildcards, is_like};
ghost use Rattle.function_rules.specs.Laws.{is_plain, end_open, IsCut};

/// A law: a text is like a pattern without `*`, `?` and backslash exactly where it is the pattern.
pub fn plain_pattern_is_itself()
    ensures { (pattern : List ℕ) (text : List ℕ) → IsUtf8 pattern → IsUtf8 text → list_all is_plain (chars pattern) ≡ true
        → (is_like pattern text ≡ true) ↔ (text ≡ pattern) }
{}

/// A law: the pattern `*` stands for every text.
pub fn run_alone_is_any()
    ensures { (text : List ℕ) → is_like (codes "*") text ≡ true }
{}

/// A law: a text is like two patterns with a `*` between them, where the first does not end in a lone backslash, exactly where
/// it is a part that is like the first, any run, and a part that is like the second.
pub fn run_between_cuts()
    ensures { (front : List ℕ) (back : List ℕ) (text : List ℕ) → IsUtf8 front → end_open false (chars front) ≡ false
        → (is_like (front ++ (codes "*" ++ back)) text ≡ true) ↔ IsCut (wildcards front) (wildcards back) (chars text) }
{}
