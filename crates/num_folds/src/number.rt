// What the folds ask of numbers: integers of 32 bits and longs of 64.
ghost use Rattle.std.specs.Prelude.{◌≡◌, ℕ, ◌+◌, ◌<◌, ◌≤◌, length, map, int_lt};
ghost use Rattle.num_folds.specs.Lanes.{Marks, at};
ghost use lib.IntN.{ℤ};

use crate::{int_lanes, long_lanes};
use std::simd::prelude::*;

/// A number of a column: an integer of 32 bits or a long of 64.
pub trait Number: Copy {
    /// The whole number that it is.
    ghost whole: { Self → ℤ };

    /// Whether it is less than another.
    fn is_less(self, other: Self) -> bool
        ensures { result ≡ int_lt (whole self) (whole other) };
}

/// A number whose lanes are taken `N` at a time.
pub trait Laned<const N: usize>: Number {
    /// The lanes that hold a number below `bound`, by their bits.
    fn lanes_below(values: &[Self], start: usize, bound: Self) -> u64
        requires { (N ≤ 16) × (start + N ≤ length values.now) }
        ensures { Marks N result (λ k. int_lt (at (map Self.whole values.now) (start + k)) (Self.whole bound)) };

    /// The lanes that hold a number above `bound`, by their bits.
    fn lanes_above(values: &[Self], start: usize, bound: Self) -> u64
        requires { (N ≤ 16) × (start + N ≤ length values.now) }
        ensures { Marks N result (λ k. int_lt (Self.whole bound) (at (map Self.whole values.now) (start + k))) };
}

impl Number for i32 {
    ghost whole = { λ number. number };

    #[inline(always)]
    fn is_less(self, other: i32) -> bool {
        self < other
    }
}

impl<const N: usize> Laned<N> for i32 {
    #[inline(always)]
    fn lanes_below(values: &[i32], start: usize, bound: i32) -> u64 {
        int_lanes::fit::<N>(values, start);
        let lanes = Simd::<i32, N>::from_slice(&values[start..]);
        lanes.simd_lt(Simd::splat(bound)).to_bitmask()
    }

    #[inline(always)]
    fn lanes_above(values: &[i32], start: usize, bound: i32) -> u64 {
        int_lanes::fit::<N>(values, start);
        let lanes = Simd::<i32, N>::from_slice(&values[start..]);
        lanes.simd_gt(Simd::splat(bound)).to_bitmask()
    }
}

impl Number for i64 {
    ghost whole = { λ number. number };

    #[inline(always)]
    fn is_less(self, other: i64) -> bool {
        self < other
    }
}

impl<const N: usize> Laned<N> for i64 {
    #[inline(always)]
    fn lanes_below(values: &[i64], start: usize, bound: i64) -> u64 {
        long_lanes::fit::<N>(values, start);
        let lanes = Simd::<i64, N>::from_slice(&values[start..]);
        lanes.simd_lt(Simd::splat(bound)).to_bitmask()
    }

    #[inline(always)]
    fn lanes_above(values: &[i64], start: usize, bound: i64) -> u64 {
        long_lanes::fit::<N>(values, start);
        let lanes = Simd::<i64, N>::from_slice(&values[start..]);
        lanes.simd_gt(Simd::splat(bound)).to_bitmask()
    }
}
