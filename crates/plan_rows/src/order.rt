ghost use Rattle.std.specs.Prelude.{◌≡◌, [], take, slice_index_or, IfOk};
ghost use Rattle.function_rules.specs.Lists.{sorted_by};
ghost use Rattle.plan_semantics.specs.Orders.{order_of_cells};
ghost use Rattle.plan_rows.specs.Kept.{order_of_kept};

use esql_plan::PlanKey;
use esql_types::{Cell, Seq};
use page_ops::compare_cells;
use std::alloc::AllocError;
use std::cmp::Ordering;

/// The rows in the order of keys, in their earlier order where the keys tie.
pub(crate) fn sort_rows(
    keys: &[PlanKey],
    rows: Seq<Seq<Cell>>,
) -> Result<Seq<Seq<Cell>>, AllocError>
    ensures { IfOk result (λ new. new ≡ sorted_by (order_of_kept keys.now) rows) }
{
    let mut rows = rows.into_vec();
    rows.sort_by(
        |left: &Seq<Cell>, right: &Seq<Cell>| -> Ordering
            ensures { result ≡ order_of_kept keys.entry.now left.now right.now }
        { compare_rows(keys, left, right) },
    )?;
    Ok(Seq::from_vec(rows))
}

/// The first of rows, at most so many.
pub(crate) fn first_rows(rows: Seq<Seq<Cell>>, count: u64) -> Seq<Seq<Cell>>
    ensures { result ≡ take count rows }
{
    let mut rows = rows.into_vec();
    rows.truncate(count as usize);
    Seq::from_vec(rows)
}

/// The order of two rows, which the first of the keys decides at which they differ.
fn compare_rows(keys: &[PlanKey], left: &Seq<Cell>, right: &Seq<Cell>) -> Ordering
    ensures { result ≡ order_of_kept keys.now left.now right.now }
{
    for key in keys {
        match compare_at(*key, left, right) {
            Ordering::Equal => {}
            other => return other,
        }
    }
    Ordering::Equal
}

fn compare_at(key: PlanKey, left: &Seq<Cell>, right: &Seq<Cell>) -> Ordering
    ensures { result ≡ order_of_cells key.descending key.nulls_first (slice_index_or left.now key.id.0 []) (slice_index_or right.now key.id.0 []) }
{
    let place = key.id.0 as usize;
    compare_cells(key, left.at(place), right.at(place))
}
