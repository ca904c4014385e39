ghost use Rattle.std.specs.Prelude.{◌≡◌, ◌≢◌, [], ℕ, List, All, IsUtf8};
ghost use Rattle.esql_lex.specs.declared.error.LexError.{LexError};
ghost use Rattle.esql_lex.specs.declared.token.Token.{Token};
ghost use Rattle.esql_lex.specs.declared.token.TokenKind.TheVariants.{QuotedName, Text};
ghost use Rattle.esql_lex.specs.Contents.{in_backticks, in_quotes, Holds};
ghost use Rattle.esql_lex.specs.Tokens.{Tokens, LexFault, IsPartOf, HasForm, pieces_of};

/// A law: the gaps and the slices of a text's tokens, joined, are the text.
pub fn pieces_join()
    ensures { (text : List ℕ) (tokens : List Token) → Tokens text tokens → pieces_of text 0 tokens ≡ text }
{}

/// A law: the slice of each token but the end is of the form that gives the token's kind.
pub fn slices_have_forms()
    ensures { (text : List ℕ) (tokens : List Token) → Tokens text tokens → All (HasForm text) tokens }
{}

/// A law: each token begins and ends at the start of a character of the text.
pub fn tokens_are_parts()
    ensures { (text : List ℕ) (tokens : List Token) → IsUtf8 text → Tokens text tokens → All (IsPartOf text) tokens }
{}

/// A law: a text has one list of tokens at most.
pub fn one_list()
    ensures { (text : List ℕ) (tokens others : List Token) → Tokens text tokens → Tokens text others → tokens ≡ others }
{}

/// A law: a text has one first fault at most.
pub fn one_fault()
    ensures { (text : List ℕ) (fault other : LexError) → LexFault text fault → LexFault text other → fault ≡ other }
{}

/// A law: a text that has a list of tokens has no fault.
pub fn not_both()
    ensures { (text : List ℕ) (tokens : List Token) (fault : LexError) → Tokens text tokens → LexFault text fault → ⊥ }
{}

/// A law: every name but the empty one can be written in backticks.
pub fn names_in_backticks()
    ensures { (name : List ℕ) → name ≢ [] → Holds (in_backticks name) QuotedName name }
{}

/// A law: every text can be written in quotes.
pub fn texts_in_quotes()
    ensures { (text : List ℕ) → Holds (in_quotes text) Text text }
{}
