ghost use Rattle.std.specs.Prelude.{◌≡◌, ℕ, List, None};
ghost use Rattle.esql_ast.specs.declared.query.Query.{Query};
ghost use Rattle.esql_io.specs.Files.{Held};
ghost use Rattle.query_semantics.specs.Built.{IsBuiltQuery};
ghost use Rattle.esql_run.specs.Built.{unbuilt_of};
ghost use Rattle.esql_run.specs.Bytes.{Outcome};
ghost use Rattle.esql_run.specs.Outcome.{IsOutcome, ReadsKnown};

use esql_lex::{not_both, one_fault, one_list};
use esql_parse::{no_refusal, one_query, one_refusal};
use table_files::{one_gathering, one_loading};

/// A law: each command of a query is built, where there is no first one that is not.
pub fn none_unbuilt()
    ensures { (query : Query) → unbuilt_of query ≡ None → IsBuiltQuery query }
{}

/// A law: words have at most one outcome where the files tell what they hold, or no file is read for their query, so that
/// what `run` tells is the only answer.
pub fn one_outcome()
    ensures { (words : List (List ℕ)) (held : Held) (outcome other : Outcome) → ReadsKnown words held
        → IsOutcome words held outcome → IsOutcome words held other → outcome ≡ other }
{
    one_list();
    one_fault();
    not_both();
    one_query();
    one_refusal();
    no_refusal();
    one_gathering();
    one_loading();
}
