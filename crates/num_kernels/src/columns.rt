// The kernels over columns of any numbers.
ghost use Rattle.std.specs.Prelude.{◌≡◌, ℕ, ◌+◌, ◌<◌, ◌≤◌, ◌&&◌, length, option_map};
ghost use Rattle.num_kernels.specs.Numbers.{IsArithmetic, IsComparison, checked, compares, fails, result_at};
ghost use Rattle.num_kernels.specs.Steps.{CanLoad, CanPut, IsPut, MarksPairs};
ghost use Rattle.num_folds.specs.Lanes.{IsLaneCount, at, set_at};

use crate::constants::{ADD, DIV, EQ, GT, LE, LT, MUL, NE, SUB};
use crate::operand::Operand;
use crate::tables::{arith_by, compare_by};
use bit_masks::Mask;

/// At which lanes an operation fails.
#[inline(always)]
fn lanes_fail<T: Operand<N>, const OP: u8, const N: usize>(
    left: &[T],
    right: &[T],
    start: usize,
) -> u64
    requires { IsArithmetic OP × CanLoad T.width N start (T.wholes left.now) (T.wholes right.now) }
    ensures { MarksPairs (fails T.width OP) N start (T.wholes left.now) (T.wholes right.now) result }
{
    arith_by!(
        OP,
        T::sum_fails(left, right, start),
        T::difference_fails(left, right, start),
        T::product_fails(left, right, start),
        T::quotient_fails(left, right, start),
        T::remainder_fails(left, right, start)
    )
}

/// Writes the results of the lanes that are fine, and 0 at the others.
#[inline(always)]
fn put<T: Operand<N>, const OP: u8, const N: usize>(
    left: &[T],
    right: &[T],
    start: usize,
    fine: u64,
    to: &mut [T],
)
    requires { IsArithmetic OP × CanPut T.width OP N start fine (T.wholes left.now) (T.wholes right.now) (T.wholes to.old) }
    ensures { IsPut OP N start fine (T.wholes left.now) (T.wholes right.now) (T.wholes to.old) (T.wholes to.new) }
{
    arith_by!(
        OP,
        T::put_sums(left, right, start, fine, to),
        T::put_differences(left, right, start, fine, to),
        T::put_products(left, right, start, fine, to),
        T::put_quotients(left, right, start, fine, to),
        T::put_remainders(left, right, start, fine, to)
    )
}

fn arith<T: Operand<N>, const OP: u8, const N: usize>(left: T, right: T) -> Option<T>
    requires { IsArithmetic OP }
    ensures { option_map T.whole result ≡ checked T.width OP (T.whole left) (T.whole right) }
{
    arith_by!(
        OP,
        left.sum(right),
        left.difference(right),
        left.product(right),
        left.quotient(right),
        left.remainder(right)
    )
}

/// What a place gets, and whether it fails.
fn arith_at<T: Operand<N>, const OP: u8, const N: usize>(
    valid: bool,
    left: T,
    right: T,
) -> (T, bool)
    requires { IsArithmetic OP }
    ensures value { T.whole result.0 ≡ result_at T.width OP valid (T.whole left) (T.whole right) }
    ensures failure { result.1 ≡ (valid && fails T.width OP (T.whole left) (T.whole right)) }
{
    if !valid {
        return (T::zero(), false);
    }
    match arith::<T, OP, N>(left, right) {
        Some(value) => (value, false),
        None => (T::zero(), true),
    }
}

fn arith_rest<T: Operand<N>, const OP: u8, const N: usize>(
    left: &[T],
    right: &[T],
    valid: &Mask,
    to: &mut [T],
    failed: &mut Mask,
    start: usize,
)
    requires { IsArithmetic OP × (length right.now ≡ length left.now) × (length valid.now ≡ length left.now) × (length to.old ≡ length left.now) × (length failed.old ≡ length left.now) }
    ensures same_length { length to.new ≡ length to.old }
    ensures as_many { length failed.new ≡ length failed.old }
    ensures before { (k : ℕ) → k < start → at (T.wholes to.new) k ≡ at (T.wholes to.old) k }
    ensures failed_before { (k : ℕ) → k < start → set_at failed.new k ≡ set_at failed.old k }
    ensures results { (k : ℕ) → start ≤ k → k < length left.now → at (T.wholes to.new) k ≡ result_at T.width OP (set_at valid.now k) (at (T.wholes left.now) k) (at (T.wholes right.now) k) }
    ensures failures { (k : ℕ) → start ≤ k → k < length left.now → set_at failed.new k ≡ (set_at valid.now k && fails T.width OP (at (T.wholes left.now) k) (at (T.wholes right.now) k)) }
{
    for place in start..left.len() {
        let (value, fails) = arith_at::<T, OP, N>(valid.get(place), left[place], right[place]);
        to[place] = value;
        failed.set(place, fails);
    }
}

/// Arithmetic at each place, `N` places at a time.
pub(crate) fn arith_columns<T: Operand<N>, const OP: u8, const N: usize>(
    left: &[T],
    right: &[T],
    valid: &Mask,
    to: &mut [T],
    failed: &mut Mask,
)
    requires { IsArithmetic OP × IsLaneCount N × (length right.now ≡ length left.now) × (length valid.now ≡ length left.now) × (length to.old ≡ length left.now) × (length failed.old ≡ length left.now) }
    ensures same_length { length to.new ≡ length to.old }
    ensures as_many { length failed.new ≡ length failed.old }
    ensures results { (k : ℕ) → k < length left.now → at (T.wholes to.new) k ≡ result_at T.width OP (set_at valid.now k) (at (T.wholes left.now) k) (at (T.wholes right.now) k) }
    ensures failures { (k : ℕ) → k < length left.now → set_at failed.new k ≡ (set_at valid.now k && fails T.width OP (at (T.wholes left.now) k) (at (T.wholes right.now) k)) }
{
    let mut start = 0;
    while left.len() - start >= N {
        T::fit(left, start);
        T::fit(right, start);
        let failing = lanes_fail::<T, OP, N>(left, right, start);
        let marked = valid.bits(start, N);
        put::<T, OP, N>(left, right, start, marked & !failing, to);
        failed.put_bits(start, N, marked & failing);
        start += N;
    }
    arith_rest::<T, OP, N>(left, right, valid, to, failed, start);
}

/// At which lanes a comparison holds.
#[inline(always)]
fn compare_lanes<T: Operand<N>, const OP: u8, const N: usize>(
    left: &[T],
    right: &[T],
    start: usize,
) -> u64
    requires { IsComparison OP × CanLoad T.width N start (T.wholes left.now) (T.wholes right.now) }
    ensures { MarksPairs (compares OP) N start (T.wholes left.now) (T.wholes right.now) result }
{
    compare_by!(
        OP,
        T::equal_lanes(left, right, start),
        !T::equal_lanes(left, right, start),
        T::less_lanes(left, right, start),
        !T::less_lanes(right, left, start),
        T::less_lanes(right, left, start),
        !T::less_lanes(left, right, start)
    )
}

/// Whether a place is valid and its comparison holds.
fn compare_at<T: Operand<N>, const OP: u8, const N: usize>(valid: bool, left: T, right: T) -> bool
    requires { IsComparison OP }
    ensures { result ≡ (valid && compares OP (T.whole left) (T.whole right)) }
{
    valid && compare::<T, OP, N>(left, right)
}

fn compare<T: Operand<N>, const OP: u8, const N: usize>(left: T, right: T) -> bool
    requires { IsComparison OP }
    ensures { result ≡ compares OP (T.whole left) (T.whole right) }
{
    compare_by!(
        OP,
        left.is_equal(right),
        !left.is_equal(right),
        left.is_less(right),
        !right.is_less(left),
        right.is_less(left),
        !left.is_less(right)
    )
}

fn compare_rest<T: Operand<N>, const OP: u8, const N: usize>(
    left: &[T],
    right: &[T],
    valid: &Mask,
    to: &mut Mask,
    start: usize,
)
    requires { IsComparison OP × (length right.now ≡ length left.now) × (length valid.now ≡ length left.now) × (length to.old ≡ length left.now) }
    ensures same_length { length to.new ≡ length to.old }
    ensures before { (k : ℕ) → k < start → set_at to.new k ≡ set_at to.old k }
    ensures results { (k : ℕ) → start ≤ k → k < length left.now → set_at to.new k ≡ (set_at valid.now k && compares OP (at (T.wholes left.now) k) (at (T.wholes right.now) k)) }
{
    for place in start..left.len() {
        let holds = compare_at::<T, OP, N>(valid.get(place), left[place], right[place]);
        to.set(place, holds);
    }
}

/// Compares at each place, `N` places at a time.
pub(crate) fn compare_columns<T: Operand<N>, const OP: u8, const N: usize>(
    left: &[T],
    right: &[T],
    valid: &Mask,
    to: &mut Mask,
)
    requires { IsComparison OP × IsLaneCount N × (length right.now ≡ length left.now) × (length valid.now ≡ length left.now) × (length to.old ≡ length left.now) }
    ensures same_length { length to.new ≡ length to.old }
    ensures results { (k : ℕ) → k < length left.now → set_at to.new k ≡ (set_at valid.now k && compares OP (at (T.wholes left.now) k) (at (T.wholes right.now) k)) }
{
    let mut start = 0;
    while left.len() - start >= N {
        T::fit(left, start);
        T::fit(right, start);
        let holding = compare_lanes::<T, OP, N>(left, right, start);
        to.put_bits(start, N, valid.bits(start, N) & holding);
        start += N;
    }
    compare_rest::<T, OP, N>(left, right, valid, to, start);
}
