//! Laws of the numbers, the spans, the depth and the names of a query.

ghost use Rattle.std.specs.Prelude.{◌≡◌, ℕ, List, All};
ghost use Rattle.esql_types.specs.Spans.{SpanFits};
ghost use Rattle.esql_ast.specs.declared.query.Command.{Command};
ghost use Rattle.esql_ast.specs.declared.query.Query.{Query};
ghost use Rattle.esql_ast.specs.declared.query.SourceCommand.{SourceCommand};
ghost use Rattle.esql_ast.specs.Bare.{bare_query};
ghost use Rattle.esql_ast.specs.Depths.{depth_of_query};
ghost use Rattle.esql_ast.specs.Fits.{QueryFits};
ghost use Rattle.esql_ast.specs.Nodes.{warned_nodes_of};
ghost use Rattle.esql_ast.specs.Numbering.{numbered_query};
ghost use Rattle.esql_ast.specs.Laws.{as_it_was, spans_of, IsNumbered};
ghost use Rattle.esql_ast.specs.UseLaws.{MentionedAreUsed, UsesAreFirst, UsesDiffer};

/// A law: the nodes of a numbered query have the numbers from 0 in written order, and it has as many nodes as it says.
pub fn numbers_in_order()
    ensures { (source : SourceCommand) (commands : List Command) → IsNumbered (numbered_query source commands) }
{}

/// A law: a numbered query without its numbers is the query as it was without its numbers.
pub fn numbering_keeps_all()
    ensures { (source : SourceCommand) (commands : List Command) → bare_query (numbered_query source commands) ≡ bare_query (as_it_was source commands) }
{}

/// A law: a numbered query's nodes stand where they stood, in the same order.
pub fn numbering_keeps_spans()
    ensures { (source : SourceCommand) (commands : List Command) → spans_of (numbered_query source commands) ≡ spans_of (as_it_was source commands) }
{}

/// A law: where the spans of a query are parts of a text, they still are once it is numbered.
pub fn numbering_keeps_fit()
    ensures { (text : List ℕ) (source : SourceCommand) (commands : List Command) → QueryFits text (as_it_was source commands) → QueryFits text (numbered_query source commands) }
{}

/// A law: the deepest expression of a query is as deep once the query is numbered.
pub fn numbering_keeps_depth()
    ensures { (source : SourceCommand) (commands : List Command) → depth_of_query (numbered_query source commands) ≡ depth_of_query (as_it_was source commands) }
{}

/// A law: where the spans of a query are parts of its text, so are the places where its failures are said to be.
pub fn warned_places_fit()
    ensures { (text : List ℕ) (query : Query) → QueryFits text query → All (λ place. SpanFits text place.span) (warned_nodes_of query) }
{}

/// A law: no table and no policy is used twice.
pub fn uses_differ()
    ensures { (query : Query) → UsesDiffer query }
{}

/// A law: each table and policy that a query mentions is used.
pub fn mentioned_are_used()
    ensures { (query : Query) → MentionedAreUsed query }
{}

/// A law: each table and policy is used where it is mentioned first.
pub fn uses_are_first()
    ensures { (query : Query) → UsesAreFirst query }
{}
