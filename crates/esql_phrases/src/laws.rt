ghost use Rattle.std.specs.Prelude.{◌≡◌, ℕ, List};
ghost use Rattle.esql_ast.specs.Depths.{depth_of_expr};
ghost use Rattle.esql_ast.specs.Fits.{ExprFits};
ghost use Rattle.esql_phrases.specs.declared.lexeme.Lexeme.{Lexeme};
ghost use Rattle.esql_phrases.specs.declared.part.Part.{Part};
ghost use Rattle.esql_phrases.specs.Ends.{first_from, last_to};
ghost use Rattle.esql_phrases.specs.Parts.{span_of};
ghost use Rattle.esql_phrases.specs.Phrases.{Phrase};
ghost use Rattle.esql_phrases.specs.Stands.{Stands};

/// A law: the span of an expression runs from its first lexeme to its last.
pub fn from_first_to_last()
    ensures { (line : ℕ) (lexemes : List Lexeme) (part : Part) → Phrase line lexemes part
        → (first_from lexemes ≡ (span_of part).from) × (last_to lexemes ≡ (span_of part).to) }
{}

/// A law: where lexemes stand in a text one after another, the spans of the expression that they spell are parts of the text.
pub fn spans_fit()
    ensures { (text : List ℕ) (line : ℕ) (lexemes : List Lexeme) (part : Part) → Phrase line lexemes part → Stands text lexemes → ExprFits text part.expr }
{}

/// A law: the depth that the grammar gives an expression is that of its tree.
pub fn depth_of_phrase()
    ensures { (line : ℕ) (lexemes : List Lexeme) (part : Part) → Phrase line lexemes part → part.depth ≡ depth_of_expr part.expr }
{}
