//! Laws of the log.

ghost use Rattle.std.specs.Prelude.{◌≡◌, ◌<◌, ◌++◌, ℕ, List, All};
ghost use Rattle.esql_types.specs.declared.cause.Cause.{Cause};
ghost use Rattle.esql_types.specs.declared.cause.Failure.{Failure};
ghost use Rattle.esql_types.specs.declared.names.NodeId.{NodeId};
ghost use Rattle.answer_text.specs.Warnings.{at_node};
ghost use Rattle.warn_log.specs.Logs.{logged, empty_log, LogStands};

/// A law: what is kept of one list of failures after another is what is kept of both as one list.
pub fn one_list_after_another()
    ensures { (log : List (List Cause)) (first second : List Failure) → logged (logged log first) second ≡ logged log (first ++ second) }
{}

/// A law: where two lists of failures have the same causes at each node, the same is kept of both.
pub fn equal_at_each_node()
    ensures { (log : List (List Cause)) (some other : List Failure) → ((node : NodeId) → at_node some node ≡ at_node other node) → logged log some ≡ logged log other }
{}

/// A law: a log that was empty before failures stands for them.
pub fn stands_for_its_failures()
    ensures { (nodes : ℕ) (failures : List Failure) → All (λ failure. failure.node.0 < nodes) failures → LogStands (logged (empty_log nodes) failures) failures }
{}
