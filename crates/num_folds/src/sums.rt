// Sums over the places that are set in two masks.
ghost use Rattle.std.specs.Prelude.{◌≡◌, ℕ, ◌+◌, ◌%◌, ◌*◌, ◌^◌, ◌<◌, ◌≤◌, length, eqb, if◌then◌else◌, ◌&&◌, FitsSigned, unsigned_abs};
ghost use Rattle.std.specs.Int.{bit_at, w32, w64};
ghost use Rattle.num_folds.specs.Lanes.{IsLaneCount, at};
ghost use Rattle.num_folds.specs.Totals.{IsTotal, kept_at, total};
ghost use lib.IntN.{pos};

use crate::int_lanes::{fit, marks};
use crate::long_lanes;
use bit_masks::Mask;
use std::simd::prelude::*;

/// The sum of the lanes whose bit is 1.
#[inline(always)]
fn lanes_sum<const N: usize>(values: &[i32], start: usize, bits: u64) -> i64
    requires { (0 < N) × (N ≤ 16) × (start + N ≤ length values.now) × (bits < 2 ^ 32) × ((k : ℕ) → k < N → FitsSigned w32 (at values.now (start + k))) }
    ensures { IsTotal 31 (λ k. if eqb (bit_at bits k) 1 then at values.now (start + k) else pos 0) N result }
{
    let values = Simd::<i32, N>::from_slice(&values[start..]);
    let kept = marks::<N>(bits).select(values, Simd::splat(0));
    kept.cast::<i64>().reduce_sum()
}

fn sum_rest(values: &[i32], valid: &Mask, keep: &Mask, start: usize, sum: i64) -> i64
    requires { (length valid.now ≡ length values.now) × (length keep.now ≡ length values.now) × (length values.now ≤ 65536) × (start ≤ length values.now) × IsTotal 31 (kept_at values.now valid.now keep.now) start sum }
    ensures { IsTotal 31 (kept_at values.now valid.now keep.now) (length values.now) result }
{
    let mut sum = sum;
    for place in start..values.len() {
        sum += kept(valid.get(place), keep.get(place), values[place]);
    }
    sum
}

fn kept(valid: bool, keep: bool, value: i32) -> i64
    ensures { result ≡ (if valid && keep then value else pos 0) }
{
    if valid && keep { value as i64 } else { 0 }
}

/// The sum of the numbers at the places that are set in both masks, `N` places at a time. `N` is 4, 8 or 16.
pub fn sum_ints<const N: usize>(values: &[i32], valid: &Mask, keep: &Mask) -> i64
    requires { IsLaneCount N × (length valid.now ≡ length values.now) × (length keep.now ≡ length values.now) × (length values.now ≤ 65536) }
    ensures { result ≡ total (kept_at values.now valid.now keep.now) (length values.now) }
{
    let mut sum = 0;
    let mut start = 0;
    while values.len() - start >= N {
        fit::<N>(values, start);
        let bits = valid.bits(start, N) & keep.bits(start, N);
        sum += lanes_sum::<N>(values, start, bits);
        start += N;
    }
    sum_rest(values, valid, keep, start, sum)
}

fn kept_long(valid: bool, keep: bool, value: i64) -> i128
    ensures { result ≡ (if valid && keep then value else pos 0) }
{
    if valid && keep { value as i128 } else { 0 }
}

/// The numbers of the lanes whose bit is 1, and 0 in the others.
#[inline(always)]
fn kept_lanes<const N: usize>(values: &[i64], start: usize, bits: u64) -> [i64; N]
    requires { (0 < N) × (N ≤ 16) × (start + N ≤ length values.now) × (bits < 2 ^ 32) × ((k : ℕ) → k < N → FitsSigned w64 (at values.now (start + k))) }
    ensures { (k : ℕ) → k < N → at result k ≡ (if eqb (bit_at bits k) 1 then at values.now (start + k) else pos 0) }
{
    let values = Simd::<i64, N>::from_slice(&values[start..]);
    let kept = long_lanes::marks::<N>(bits).select(values, Simd::splat(0));
    kept.to_array()
}

/// The sum before `start + N`, from that before `start`.
#[inline(always)]
fn sum_after<const N: usize>(
    values: &[i64],
    valid: &Mask,
    keep: &Mask,
    start: usize,
    sum: i128,
) -> i128
    requires { IsLaneCount N × (length valid.now ≡ length values.now) × (length keep.now ≡ length values.now) × (length values.now ≤ 65536) × (start + N ≤ length values.now) × (start % N ≡ 0) × IsTotal 63 (kept_at values.now valid.now keep.now) start sum }
    ensures { IsTotal 63 (kept_at values.now valid.now keep.now) (start + N) result }
{
    long_lanes::fit::<N>(values, start);
    let bits = valid.bits(start, N) & keep.bits(start, N);
    let kept = kept_lanes::<N>(values, start, bits);
    let mut sum = sum;
    for k in 0..N {
        sum += kept[k] as i128;
    }
    sum
}

fn sum_long_rest(values: &[i64], valid: &Mask, keep: &Mask, start: usize, sum: i128) -> i128
    requires { (length valid.now ≡ length values.now) × (length keep.now ≡ length values.now) × (length values.now ≤ 65536) × (start ≤ length values.now) × IsTotal 63 (kept_at values.now valid.now keep.now) start sum }
    ensures { IsTotal 63 (kept_at values.now valid.now keep.now) (length values.now) result }
{
    let mut sum = sum;
    for place in start..values.len() {
        sum += kept_long(valid.get(place), keep.get(place), values[place]);
    }
    sum
}

/// The sum of the numbers at the places that are set in both masks, in 128 bits, `N` places at a time. `N` is 4, 8 or 16.
pub fn sum_longs<const N: usize>(values: &[i64], valid: &Mask, keep: &Mask) -> i128
    requires { IsLaneCount N × (length valid.now ≡ length values.now) × (length keep.now ≡ length values.now) × (length values.now ≤ 65536) }
    ensures { result ≡ total (kept_at values.now valid.now keep.now) (length values.now) }
{
    let mut sum = 0i128;
    let mut start = 0;
    while values.len() - start >= N {
        sum = sum_after::<N>(values, valid, keep, start, sum);
        start += N;
    }
    sum_long_rest(values, valid, keep, start, sum)
}
