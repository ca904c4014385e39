//! Laws of the rules that a query breaks.

ghost use Rattle.std.specs.Prelude.{ℕ, List};
ghost use Rattle.esql_ast.specs.declared.expr.Expr.{Expr};
ghost use Rattle.esql_ast.specs.declared.query.Query.{Query};
ghost use Rattle.esql_ast.specs.Fits.{ExprFits, QueryFits};
ghost use Rattle.row_semantics.specs.Scopes.{Scope};
ghost use Rattle.row_semantics.specs.Kinds.{kind_or_rule};
ghost use Rattle.query_semantics.specs.Shapes.{Context, shape_in};
ghost use Rattle.query_semantics.specs.Places.{BrokenFits};

/// A law: the first rule that an expression breaks stands in a part of the text, where its spans are parts of it.
pub fn broken_rules_of_expressions_have_places()
    ensures { (text : List ℕ) (expr : Expr) → ExprFits text expr → (scope : Scope) → BrokenFits text (kind_or_rule expr scope) }
{}

/// A law: the first rule that a query breaks stands in a part of its text.
pub fn broken_rules_have_places()
    ensures { (context : Context) (query : Query) → QueryFits context.text query → BrokenFits context.text (shape_in context query) }
{}
