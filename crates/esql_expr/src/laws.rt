ghost use Rattle.std.specs.Prelude.{◌≡◌, ℕ, List};
ghost use Rattle.esql_phrases.specs.declared.lexeme.Lexeme.{Lexeme};
ghost use Rattle.esql_phrases.specs.declared.part.Part.{Part};
ghost use Rattle.esql_phrases.specs.Phrases.{Phrase};

/// A law: lexemes spell at most one expression of a line of the grammar.
pub fn one_expression()
    ensures { (line : ℕ) (lexemes : List Lexeme) (part other : Part) → Phrase line lexemes part → Phrase line lexemes other → part ≡ other }
{}
