ghost use Rattle.std.specs.Prelude.{◌≡◌, ℕ, List};
ghost use Rattle.esql_ast.specs.declared.query.Query.{Query};
ghost use Rattle.esql_lex.specs.declared.token.Token.{Token};
ghost use Rattle.esql_parse.specs.declared.error.ParseError.{ParseError};
ghost use Rattle.esql_parse.specs.Depth.{DeepAreFronts};
ghost use Rattle.esql_parse.specs.Spells.{Refuses, Spells};

/// A law: tokens of a text spell one query at most.
pub fn one_query()
    ensures { (text : List ℕ) (tokens : List Token) (query other : Query) → Spells text tokens query → Spells text tokens other → query ≡ other }
{}

/// A law: tokens of a text are refused in one way at most.
pub fn one_refusal()
    ensures { (text : List ℕ) (tokens : List Token) (error other : ParseError) → Refuses text tokens error → Refuses text tokens other → error ≡ other }
{}

/// A law: tokens that spell a query are not refused.
pub fn no_refusal()
    ensures { (text : List ℕ) (tokens : List Token) (query : Query) (error : ParseError) → Spells text tokens query → Refuses text tokens error → ⊥ }
{}

/// A law: tokens that are refused as too deep begin a query of at most 200 commands, which is refused for its depth alone.
pub fn deep_are_fronts()
    ensures { DeepAreFronts }
{}
