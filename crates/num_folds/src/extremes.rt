// The least and the greatest number over the places that are set in two masks.
ghost use Rattle.std.specs.Prelude.{◌≡◌, ℕ, ◌+◌, ◌%◌, ◌<◌, ◌≤◌, true, length, map, option_map, eqb, if◌then◌else◌};
ghost use Rattle.std.specs.Int.{bit_at};
ghost use Rattle.num_folds.specs.Lanes.{IsLaneCount, Marks, at};
ghost use Rattle.num_folds.specs.Totals.{AsGood, IsBest, IsGreatest, IsLeast, IsNoBetter, better_of, both_at, is_better};

use crate::number::{Laned, Number};
use bit_masks::Mask;

// Which number is sought.
const LEAST: bool = true;

const GREATEST: bool = false;

fn is_better<T: Number, const SOUGHT: bool>(value: T, best: T) -> bool
    ensures { result ≡ is_better SOUGHT (T.whole value) (T.whole best) }
{
    if SOUGHT == LEAST {
        value.is_less(best)
    } else {
        best.is_less(value)
    }
}

fn is_kept(valid: &Mask, keep: &Mask, place: usize) -> bool
    requires { (place < length valid.now) × (place < length keep.now) }
    ensures { result ≡ both_at valid.now keep.now place }
{
    valid.get(place) && keep.get(place)
}

/// The best number so far, with one more that may be kept.
fn best_of<T: Number, const SOUGHT: bool>(so_far: Option<T>, kept: bool, value: T) -> Option<T>
    ensures { option_map T.whole result ≡ (if kept then better_of SOUGHT (option_map T.whole so_far) (T.whole value) else option_map T.whole so_far) }
{
    if !kept {
        return so_far;
    }
    match so_far {
        Some(best) => {
            if is_better::<T, SOUGHT>(value, best) {
                Some(value)
            } else {
                Some(best)
            }
        }
        None => Some(value),
    }
}

/// The best kept number before `end`, from that before `start`.
fn best_in<T: Number, const SOUGHT: bool>(
    values: &[T],
    valid: &Mask,
    keep: &Mask,
    start: usize,
    end: usize,
    so_far: Option<T>,
) -> Option<T>
    requires { (length valid.now ≡ length values.now) × (length keep.now ≡ length values.now) × (start ≤ end) × (end ≤ length values.now) × IsBest (AsGood SOUGHT) (map T.whole values.now) valid.now keep.now start (option_map T.whole so_far) }
    ensures { IsBest (AsGood SOUGHT) (map T.whole values.now) valid.now keep.now end (option_map T.whole result) }
{
    let mut best = so_far;
    for place in start..end {
        best = best_of::<T, SOUGHT>(best, is_kept(valid, keep, place), values[place]);
    }
    best
}

/// The lanes that hold a better number, by their bits.
#[inline(always)]
fn better_lanes<T: Laned<N>, const SOUGHT: bool, const N: usize>(
    values: &[T],
    start: usize,
    best: T,
) -> u64
    requires { (N ≤ 16) × (start + N ≤ length values.now) }
    ensures { Marks N result (λ k. is_better SOUGHT (at (map T.whole values.now) (start + k)) (T.whole best)) }
{
    if SOUGHT == LEAST {
        T::lanes_below(values, start, best)
    } else {
        T::lanes_above(values, start, best)
    }
}

/// Whether no lane whose bit is 1 holds a better number.
#[inline(always)]
fn none_better<T: Laned<N>, const SOUGHT: bool, const N: usize>(
    values: &[T],
    start: usize,
    bits: u64,
    so_far: Option<T>,
) -> bool
    requires { (N ≤ 16) × (start + N ≤ length values.now) }
    ensures { result ≡ true → (k : ℕ) → k < N → eqb (bit_at bits k) 1 ≡ true → IsNoBetter (AsGood SOUGHT) (option_map T.whole so_far) (at (map T.whole values.now) (start + k)) }
{
    match so_far {
        Some(best) => bits & better_lanes::<T, SOUGHT, N>(values, start, best) == 0,
        None => bits == 0,
    }
}

/// The best kept number before `start + N`, from that before `start`: the lanes tell whether one of them may be better.
fn best_after<T: Laned<N>, const SOUGHT: bool, const N: usize>(
    values: &[T],
    valid: &Mask,
    keep: &Mask,
    start: usize,
    so_far: Option<T>,
) -> Option<T>
    requires { IsLaneCount N × (length valid.now ≡ length values.now) × (length keep.now ≡ length values.now) × (start + N ≤ length values.now) × (start % N ≡ 0) × IsBest (AsGood SOUGHT) (map T.whole values.now) valid.now keep.now start (option_map T.whole so_far) }
    ensures { IsBest (AsGood SOUGHT) (map T.whole values.now) valid.now keep.now (start + N) (option_map T.whole result) }
{
    let bits = valid.bits(start, N) & keep.bits(start, N);
    if none_better::<T, SOUGHT, N>(values, start, bits, so_far) {
        so_far
    } else {
        best_in::<T, SOUGHT>(values, valid, keep, start, start + N, so_far)
    }
}

/// The best number at the places that are set in both masks, or None where no place is, `N` places at a time.
fn best<T: Laned<N>, const SOUGHT: bool, const N: usize>(
    values: &[T],
    valid: &Mask,
    keep: &Mask,
) -> Option<T>
    requires { IsLaneCount N × (length valid.now ≡ length values.now) × (length keep.now ≡ length values.now) }
    ensures { IsBest (AsGood SOUGHT) (map T.whole values.now) valid.now keep.now (length values.now) (option_map T.whole result) }
{
    let mut best = None;
    let mut start = 0;
    while values.len() - start >= N {
        best = best_after::<T, SOUGHT, N>(values, valid, keep, start, best);
        start += N;
    }
    best_in::<T, SOUGHT>(values, valid, keep, start, values.len(), best)
}

/// The least number at the places that are set in both masks, or None where no place is, `N` places at a time. `N` is 4, 8 or 16.
pub fn least_ints<const N: usize>(values: &[i32], valid: &Mask, keep: &Mask) -> Option<i32>
    requires { IsLaneCount N × (length valid.now ≡ length values.now) × (length keep.now ≡ length values.now) }
    ensures { IsLeast values.now valid.now keep.now (length values.now) result }
{
    best::<i32, LEAST, N>(values, valid, keep)
}

/// The least number at the places that are set in both masks, or None where no place is, `N` places at a time. `N` is 4, 8 or 16.
pub fn least_longs<const N: usize>(values: &[i64], valid: &Mask, keep: &Mask) -> Option<i64>
    requires { IsLaneCount N × (length valid.now ≡ length values.now) × (length keep.now ≡ length values.now) }
    ensures { IsLeast values.now valid.now keep.now (length values.now) result }
{
    best::<i64, LEAST, N>(values, valid, keep)
}

/// The greatest number at the places that are set in both masks, or None where no place is, `N` places at a time. `N` is 4, 8 or 16.
pub fn greatest_ints<const N: usize>(values: &[i32], valid: &Mask, keep: &Mask) -> Option<i32>
    requires { IsLaneCount N × (length valid.now ≡ length values.now) × (length keep.now ≡ length values.now) }
    ensures { IsGreatest values.now valid.now keep.now (length values.now) result }
{
    best::<i32, GREATEST, N>(values, valid, keep)
}

/// The greatest number at the places that are set in both masks, or None where no place is, `N` places at a time. `N` is 4, 8 or 16.
pub fn greatest_longs<const N: usize>(values: &[i64], valid: &Mask, keep: &Mask) -> Option<i64>
    requires { IsLaneCount N × (length valid.now ≡ length values.now) × (length keep.now ≡ length values.now) }
    ensures { IsGreatest values.now valid.now keep.now (length values.now) result }
{
    best::<i64, GREATEST, N>(values, valid, keep)
}
