ghost use Rattle.std.specs.Prelude.{◌≡◌, []};
ghost use Rattle.std.specs.Option.{option_copied, option_to_list, unwrap_or};
ghost use Rattle.plan_semantics.specs.Orders.{sort_value, order_of_values, order_of_cells, null_order};

use esql_plan::PlanKey;
use esql_types::{Cell, Value, compare_values};
use plain_functions::lists::{greatest, least};
use std::cmp::Ordering;

/// The order of two cells by a key, where one that is absent counts as null.
pub fn compare_cells(key: PlanKey, left: Option<&Cell>, right: Option<&Cell>) -> Ordering
    ensures { result ≡ order_of_cells key.descending key.nulls_first (unwrap_or (option_copied left.entry) []) (unwrap_or (option_copied right.entry) []) }
{
    compare_sorted(
        key,
        sort_value(key.descending, left),
        sort_value(key.descending, right),
    )
}

/// The value that a cell is sorted by, which null has not.
fn sort_value(descending: bool, cell: Option<&Cell>) -> Option<&Value>
    ensures { option_to_list (option_copied result) ≡ sort_value descending (unwrap_or (option_copied cell.entry) []) }
{
    let cell = cell?;
    if descending {
        greatest(cell.as_slice())
    } else {
        least(cell.as_slice())
    }
}

/// The order of the values that two cells are sorted by.
fn compare_sorted(key: PlanKey, left: Option<&Value>, right: Option<&Value>) -> Ordering
    ensures { result ≡ order_of_values key.descending key.nulls_first (option_to_list (option_copied left.entry)) (option_to_list (option_copied right.entry)) }
{
    match (left, right) {
        (None, None) => Ordering::Equal,
        (None, Some(_)) => null_order(key.nulls_first),
        (Some(_), None) => null_order(!key.nulls_first),
        (Some(left), Some(right)) => {
            if key.descending {
                compare_values(right, left)
            } else {
                compare_values(left, right)
            }
        }
    }
}

/// The order of a null and a value.
fn null_order(first: bool) -> Ordering
    ensures { result ≡ null_order first }
{
    if first {
        Ordering::Less
    } else {
        Ordering::Greater
    }
}
