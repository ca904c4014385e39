ghost use Rattle.std.specs.Prelude.{◌≡◌, ℕ, ◌<◌, ◌&&◌, length};
ghost use Rattle.std.specs.Int.{w32};
ghost use Rattle.std.proofs.Common.{sym};
ghost use Rattle.std.proofs.lemmas.List.{map-id};
ghost use Rattle.num_kernels.specs.Numbers.{IsArithmetic, IsComparison, compares, fails, result_at};
ghost use Rattle.num_folds.specs.Lanes.{IsLaneCount, at, set_at};

use crate::columns::{arith_columns, compare_columns};
use crate::operand::Operand;
use bit_masks::Mask;
use num_folds::int_lanes::{fit, marks};
use std::simd::prelude::*;

impl<const N: usize> Operand<N> for i32 {
    ghost width = { w32 };

    ghost whole = { λ number. number };

    ghost wholes = { λ numbers. numbers };

    #[inline(always)]
    fn fit(numbers: &[i32], start: usize) {
        fit::<N>(numbers, start);
    }

    #[inline(always)]
    fn equal_lanes(left: &[i32], right: &[i32], start: usize) -> u64 {
        let left = Simd::<i32, N>::from_slice(&left[start..]);
        let right = Simd::<i32, N>::from_slice(&right[start..]);
        left.simd_eq(right).to_bitmask()
    }

    #[inline(always)]
    fn less_lanes(left: &[i32], right: &[i32], start: usize) -> u64 {
        let left = Simd::<i32, N>::from_slice(&left[start..]);
        let right = Simd::<i32, N>::from_slice(&right[start..]);
        left.simd_lt(right).to_bitmask()
    }

    /// The sum is below the left number where the right one is not negative, or the other way round.
    #[inline(always)]
    fn sum_fails(left: &[i32], right: &[i32], start: usize) -> u64 {
        let left = Simd::<i32, N>::from_slice(&left[start..]);
        let right = Simd::<i32, N>::from_slice(&right[start..]);
        right.simd_lt(Simd::splat(0)).to_bitmask() ^ (left + right).simd_lt(left).to_bitmask()
    }

    #[inline(always)]
    fn difference_fails(left: &[i32], right: &[i32], start: usize) -> u64 {
        let left = Simd::<i32, N>::from_slice(&left[start..]);
        let right = Simd::<i32, N>::from_slice(&right[start..]);
        right.simd_lt(Simd::splat(0)).to_bitmask() ^ left.simd_lt(left - right).to_bitmask()
    }

    /// Taken in 64 bits.
    #[inline(always)]
    fn product_fails(left: &[i32], right: &[i32], start: usize) -> u64 {
        let left = Simd::<i32, N>::from_slice(&left[start..]).cast::<i64>();
        let right = Simd::<i32, N>::from_slice(&right[start..]).cast::<i64>();
        let products = left * right;
        let below = products.simd_lt(Simd::splat(i32::MIN as i64)).to_bitmask();
        below | products.simd_gt(Simd::splat(i32::MAX as i64)).to_bitmask()
    }

    #[inline(always)]
    fn quotient_fails(left: &[i32], right: &[i32], start: usize) -> u64 {
        let left = Simd::<i32, N>::from_slice(&left[start..]);
        let right = Simd::<i32, N>::from_slice(&right[start..]);
        let least = left.simd_eq(Simd::splat(i32::MIN)).to_bitmask();
        let by_minus_one = right.simd_eq(Simd::splat(-1)).to_bitmask();
        right.simd_eq(Simd::splat(0)).to_bitmask() | (least & by_minus_one)
    }

    #[inline(always)]
    fn remainder_fails(left: &[i32], right: &[i32], start: usize) -> u64 {
        let right = Simd::<i32, N>::from_slice(&right[start..]);
        right.simd_eq(Simd::splat(0)).to_bitmask()
    }

    #[inline(always)]
    fn put_sums(left: &[i32], right: &[i32], start: usize, fine: u64, to: &mut [i32]) {
        let left = Simd::<i32, N>::from_slice(&left[start..]);
        let right = Simd::<i32, N>::from_slice(&right[start..]);
        let sums = marks::<N>(fine).select(left + right, Simd::splat(0));
        sums.copy_to_slice(&mut to[start..]);
    }

    #[inline(always)]
    fn put_differences(left: &[i32], right: &[i32], start: usize, fine: u64, to: &mut [i32]) {
        let left = Simd::<i32, N>::from_slice(&left[start..]);
        let right = Simd::<i32, N>::from_slice(&right[start..]);
        let differences = marks::<N>(fine).select(left - right, Simd::splat(0));
        differences.copy_to_slice(&mut to[start..]);
    }

    #[inline(always)]
    fn put_products(left: &[i32], right: &[i32], start: usize, fine: u64, to: &mut [i32]) {
        let left = Simd::<i32, N>::from_slice(&left[start..]);
        let right = Simd::<i32, N>::from_slice(&right[start..]);
        let products = marks::<N>(fine).select(left * right, Simd::splat(0));
        products.copy_to_slice(&mut to[start..]);
    }

    /// A lane that is not fine divides 0 by 1.
    #[inline(always)]
    fn put_quotients(left: &[i32], right: &[i32], start: usize, fine: u64, to: &mut [i32]) {
        let left = Simd::<i32, N>::from_slice(&left[start..]);
        let right = Simd::<i32, N>::from_slice(&right[start..]);
        let marks = marks::<N>(fine);
        let dividends = marks.select(left, Simd::splat(0));
        let divisors = marks.select(right, Simd::splat(1));
        let quotients = dividends / divisors;
        quotients.copy_to_slice(&mut to[start..]);
    }

    /// The remainder by -1 is that by 1, which no machine refuses.
    #[inline(always)]
    fn put_remainders(left: &[i32], right: &[i32], start: usize, fine: u64, to: &mut [i32]) {
        let left = Simd::<i32, N>::from_slice(&left[start..]);
        let right = Simd::<i32, N>::from_slice(&right[start..]);
        let marks = marks::<N>(fine);
        let dividends = marks.select(left, Simd::splat(0));
        let divisors = marks.select(right, Simd::splat(1));
        let divisors = divisors
            .simd_eq(Simd::splat(-1))
            .select(Simd::splat(1), divisors);
        let remainders = dividends % divisors;
        remainders.copy_to_slice(&mut to[start..]);
    }

    fn zero() -> i32 {
        0
    }

    fn is_equal(self, right: i32) -> bool {
        self == right
    }

    fn is_less(self, right: i32) -> bool {
        self < right
    }

    fn sum(self, right: i32) -> Option<i32> {
        self.checked_add(right)
    }

    fn difference(self, right: i32) -> Option<i32> {
        self.checked_sub(right)
    }

    fn product(self, right: i32) -> Option<i32> {
        self.checked_mul(right)
    }

    fn quotient(self, right: i32) -> Option<i32> {
        self.checked_div(right)
    }

    /// The remainder by -1 is 0, also where the quotient overflows.
    fn remainder(self, right: i32) -> Option<i32> {
        if right == -1 {
            Some(0)
        } else {
            self.checked_rem(right)
        }
    }

    ghost each = { λ numbers. sym (map-id numbers) };
}

/// Arithmetic at each place, `N` places at a time. `OP` is one of ADD, SUB, MUL, DIV and MOD, and `N` is 4, 8 or 16.
/// A valid place gets its result; one that fails, by overflow or a zero divisor, gets 0 and is set in `failed`.
/// A place that is not valid gets 0 and never fails.
pub fn arith_ints<const OP: u8, const N: usize>(
    left: &[i32],
    right: &[i32],
    valid: &Mask,
    to: &mut [i32],
    failed: &mut Mask,
)
    requires { IsArithmetic OP × IsLaneCount N × (length right.now ≡ length left.now) × (length valid.now ≡ length left.now) × (length to.old ≡ length left.now) × (length failed.old ≡ length left.now) }
    ensures same_length { length to.new ≡ length to.old }
    ensures as_many { length failed.new ≡ length failed.old }
    ensures results { (k : ℕ) → k < length left.now → at to.new k ≡ result_at w32 OP (set_at valid.now k) (at left.now k) (at right.now k) }
    ensures failures { (k : ℕ) → k < length left.now → set_at failed.new k ≡ (set_at valid.now k && fails w32 OP (at left.now k) (at right.now k)) }
{
    arith_columns::<i32, OP, N>(left, right, valid, to, failed);
}

/// Compares at each place, `N` places at a time. `OP` is one of EQ, NE, LT, LE, GT and GE, and `N` is 4, 8 or 16.
/// A place that is not valid gets false.
pub fn compare_ints<const OP: u8, const N: usize>(
    left: &[i32],
    right: &[i32],
    valid: &Mask,
    to: &mut Mask,
)
    requires { IsComparison OP × IsLaneCount N × (length right.now ≡ length left.now) × (length valid.now ≡ length left.now) × (length to.old ≡ length left.now) }
    ensures same_length { length to.new ≡ length to.old }
    ensures results { (k : ℕ) → k < length left.now → set_at to.new k ≡ (set_at valid.now k && compares OP (at left.now k) (at right.now k)) }
{
    compare_columns::<i32, OP, N>(left, right, valid, to);
}
