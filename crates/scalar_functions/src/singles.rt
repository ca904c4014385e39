ghost use Rattle.std.specs.Prelude.{◌≡◌, ◌≢◌, [], ◌∷◌, length, MatchOption};
ghost use Rattle.esql_plan.specs.Rules.{arguments_of};
ghost use Rattle.scalar_functions.specs.Results.{arguments_by, first_values, AreSingle};

use esql_types::{Cell, Value};

/// What is told of arguments that are taken as one value each: they are looked at from the left, and the first that has not
/// exactly one value decides.
#[derive(Clone, Copy)]
pub(crate) enum Singles {
    Are,
    Null,
    Several,
}

/// What cells are as arguments that are taken as one value each.
#[tactic(auto, using(crate::proofs::Arguments::arguments_next))]
pub(crate) fn singles_of(cells: &[Cell]) -> Singles
    ensures told { arguments_of cells.now ≡ arguments_by result cells.now }
    ensures single { result ≡ Singles.Are → AreSingle cells.now }
{
    match cells {
        [] => Singles::Are,
        [cell, rest @ ..] => match cell.as_slice() {
            [] => Singles::Null,
            [_] => singles_of(rest),
            [_, _, ..] => Singles::Several,
        },
    }
}

/// The value of a cell that has exactly one.
pub(crate) fn only(cell: &Cell) -> &Value
    requires { length cell.now ≡ 1 }
    ensures { cell.now ≡ result.now ∷ [] }
{
    match cell.as_slice() {
        [value] => value,
        [] | [_, _, ..] => unreachable!(),
    }
}

/// The value of the one cell, if there is exactly one.
#[tactic(auto, using(crate::proofs::Arguments::values_as_many))]
pub(crate) fn one(cells: &[Cell]) -> Option<&Value>
    requires { AreSingle cells.now }
    ensures { MatchOption result (length (first_values cells.now) ≢ 1) (λ value. first_values cells.now ≡ value.now ∷ []) }
{
    match cells {
        [value] => Some(only(value)),
        _ => None,
    }
}

/// The values of the two cells, if there are exactly two.
#[tactic(auto, using(crate::proofs::Arguments::values_as_many))]
pub(crate) fn two(cells: &[Cell]) -> Option<(&Value, &Value)>
    requires { AreSingle cells.now }
    ensures { MatchOption result (length (first_values cells.now) ≢ 2)
        (λ values. first_values cells.now ≡ values.0.now ∷ values.1.now ∷ []) }
{
    match cells {
        [first, second] => Some((only(first), only(second))),
        _ => None,
    }
}

/// The values of the three cells, if there are exactly three.
#[tactic(auto, using(crate::proofs::Arguments::values_as_many))]
pub(crate) fn three(cells: &[Cell]) -> Option<(&Value, &Value, &Value)>
    requires { AreSingle cells.now }
    ensures { MatchOption result (length (first_values cells.now) ≢ 3)
        (λ values. first_values cells.now ≡ values.0.now ∷ values.1.now ∷ values.2.now ∷ []) }
{
    match cells {
        [first, second, third] => Some((only(first), only(second), only(third))),
        _ => None,
    }
}
