//! Laws of what functions give.

ghost use Rattle.std.specs.Prelude.{◌≡◌, true, false, List, [], ◌∷◌, ◌++◌, map, Some};
ghost use Rattle.esql_types.specs.declared.value.Kind.{Kind};
ghost use Rattle.esql_types.specs.declared.value.Value.{Value};
ghost use Rattle.esql_types.specs.declared.cause.Failure.{Failure};
ghost use Rattle.esql_types.specs.declared.cause.Cause.TheVariants.{Multi};
ghost use Rattle.esql_types.specs.declared.names.NodeId.{NodeId};
ghost use Rattle.esql_plan.specs.declared.function.Function.{Function};
ghost use Rattle.esql_plan.specs.declared.function.Function.TheVariants.{And, Case, Coalesce};
ghost use Rattle.esql_plan.specs.Rules.{Given, given_nothing, failed, given_singles, multi_of, truth_in};
ghost use Rattle.esql_plan.specs.Values.{Valued, silent, behind, failures_at, cells_of, applied};
ghost use Rattle.esql_plan.specs.Signatures.{always, signature_of};
ghost use Rattle.esql_plan.specs.Fits.{has_kind};

/// A law: a function of single values gives, of arguments with one value each, what its rule gives of the values.
pub fn single_arguments()
    ensures { (function : List Value → Given) (values : List Value) →
        given_singles function (map (λ value. value ∷ []) values) ≡ function values }
{}

/// A law: the first argument from the left that has not exactly one value decides. Where it is null, nothing is given.
pub fn null_decides()
    ensures { (function : List Value → Given) (values : List Value) (cells : List (List Value)) →
        given_singles function (map (λ value. value ∷ []) values ++ [] ∷ cells) ≡ given_nothing }
{}

/// A law: where the first argument from the left that has not exactly one value has several, the function fails once.
pub fn several_values_decide()
    ensures { (function : List Value → Given) (values : List Value) (first : Value) (second : Value) (more : List Value) (cells : List (List Value)) →
        given_singles function (map (λ value. value ∷ []) values ++ (first ∷ second ∷ more) ∷ cells) ≡ failed Multi }
{}

/// A law: AND evaluates both sides, and an operand of several values is a failure of its own.
pub fn and_evaluates_both_sides()
    ensures { (node : NodeId) (left : Valued) (right : Valued) →
        (applied And node (left ∷ right ∷ [])).failures
        ≡ left.failures ++ (right.failures ++ failures_at node (multi_of left.cell ++ multi_of right.cell)) }
{}

/// A law: a CASE whose first condition is true is its second part, behind the condition's failures.
pub fn case_takes_the_first_true()
    ensures { (node : NodeId) (condition : Valued) (part : Valued) (rest : List Valued) →
        truth_in condition.cell ≡ Some true → applied Case node (condition ∷ part ∷ rest) ≡ behind condition.failures part }
{}

/// A law: a CASE whose first condition is false goes on behind it, and its second part is not evaluated.
pub fn case_passes_the_false()
    ensures { (node : NodeId) (condition : Valued) (part : Valued) (rest : List Valued) →
        truth_in condition.cell ≡ Some false → applied Case node (condition ∷ part ∷ rest) ≡ behind condition.failures (applied Case node rest) }
{}

/// A law: COALESCE is its first part where that is not null, and the others are not evaluated.
pub fn coalesce_takes_the_first()
    ensures { (node : NodeId) (value : Value) (values : List Value) (failures : List Failure) (rest : List Valued) →
        applied Coalesce node (record { cell = value ∷ values; failures = failures } ∷ rest) ≡ record { cell = value ∷ values; failures = failures } }
{}

/// A law: the cell that a function gives depends on the cells of its parts alone.
pub fn cells_alone_count()
    ensures { (function : Function) (node : NodeId) (parts : List Valued) →
        (applied function node parts).cell ≡ (applied function node (map silent (cells_of parts))).cell }
{}

/// A law: a function whose result always has one kind gives cells of that kind, whatever its arguments are.
pub fn results_have_their_kind()
    ensures { (function : Function) (kind : Kind) → (signature_of function).gives ≡ always kind →
        (node : NodeId) (parts : List Valued) → has_kind kind (applied function node parts).cell ≡ true }
{}
