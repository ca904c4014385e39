ghost use Rattle.std.specs.Prelude.{◌≡◌, [], slice_index_or, IfOk};
ghost use Rattle.std.specs.Option.{option_copied, unwrap_or};
ghost use Rattle.page_ops.specs.Orders.{order_of_places, places_in_order};

use crate::compare_cells;
use esql_plan::PlanKey;
use esql_types::{Cell, Seq};
use std::alloc::{AllocError, Global};
use std::cmp::Ordering;

/// The places of rows in the order of keys, and in their own order where the keys tie; a row has the cell of each key, in the
/// order of the keys.
pub fn sort_order(
    alloc: Global,
    rows: &[Seq<Cell>],
    keys: &[PlanKey],
) -> Result<Seq<usize>, AllocError>
    ensures { IfOk result (λ places. places ≡ places_in_order keys.now rows.now) }
{
    let mut places = Vec::new(alloc);
    for place in 0..rows.len() {
        places.push(place)?;
    }
    places.sort_by(
        |left: &usize, right: &usize| -> Ordering
            ensures { result ≡ order_of_places keys.entry.now rows.entry.now left.now right.now }
        { compare_places(keys, rows, *left, *right) },
    )?;
    Ok(Seq::from_vec(places))
}

/// The order of the rows at two places, which the first of the keys decides at which they differ.
fn compare_places(keys: &[PlanKey], rows: &[Seq<Cell>], left: usize, right: usize) -> Ordering
    ensures { result ≡ order_of_places keys.now rows.now left right }
{
    for (place, key) in keys.iter().enumerate() {
        let order = compare_cells(
            *key,
            cell_at(rows, left, place),
            cell_at(rows, right, place),
        );
        match order {
            Ordering::Equal => {}
            other => return other,
        }
    }
    Ordering::Equal
}

fn cell_at(rows: &[Seq<Cell>], row: usize, place: usize) -> Option<&Cell>
    ensures { unwrap_or (option_copied result) [] ≡ slice_index_or (slice_index_or rows.now row []) place [] }
{
    rows.get(row)?.at(place)
}
