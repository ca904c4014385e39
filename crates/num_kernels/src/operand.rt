// What the kernels ask of their operands: steps over lanes, and steps at one place.
ghost use Rattle.std.specs.Prelude.{◌≡◌, ℕ, ℤ, ◌+◌, ◌<◌, ◌≤◌, List, length, map, option_map, FitsSigned, pos};
ghost use Rattle.std.specs.Int.{Width};
ghost use Rattle.std.specs.Int.RustNames.{int_lt};
ghost use Rattle.std.specs.Ordering.{int_eq};
ghost use Rattle.num_kernels.specs.Numbers.{add, sub, mul, div, mod_of, checked, fails};
ghost use Rattle.num_kernels.specs.Steps.{CanLoad, CanPut, IsPut, MarksPairs};
ghost use Rattle.num_folds.specs.Lanes.{at};

/// A number of some width, of which a step over lanes takes `N`.
pub(crate) trait Operand<const N: usize>: Copy {
    /// Its width.
    ghost width: { Width };

    /// The whole number that it stands for.
    ghost whole: { Self → ℤ };

    /// Those of a column. Both kinds have the column itself here, so no proof over lanes goes through a map.
    ghost wholes: { List Self → List ℤ };

    /// Reads the lanes' numbers and does nothing with them: a number that was read is known to fit its type.
    fn fit(numbers: &[Self], start: usize)
        requires { start + N ≤ length numbers.now }
        ensures { (k : ℕ) → k < N → FitsSigned width (at (wholes numbers.now) (start + k)) };

    /// At which lanes the two are equal.
    fn equal_lanes(left: &[Self], right: &[Self], start: usize) -> u64
        requires { CanLoad width N start (wholes left.now) (wholes right.now) }
        ensures { MarksPairs int_eq N start (wholes left.now) (wholes right.now) result };

    /// At which lanes the left number is less.
    fn less_lanes(left: &[Self], right: &[Self], start: usize) -> u64
        requires { CanLoad width N start (wholes left.now) (wholes right.now) }
        ensures { MarksPairs int_lt N start (wholes left.now) (wholes right.now) result };

    /// At which lanes the sum overflows.
    fn sum_fails(left: &[Self], right: &[Self], start: usize) -> u64
        requires { CanLoad width N start (wholes left.now) (wholes right.now) }
        ensures { MarksPairs (fails width add) N start (wholes left.now) (wholes right.now) result };

    /// At which lanes the difference overflows.
    fn difference_fails(left: &[Self], right: &[Self], start: usize) -> u64
        requires { CanLoad width N start (wholes left.now) (wholes right.now) }
        ensures { MarksPairs (fails width sub) N start (wholes left.now) (wholes right.now) result };

    /// At which lanes the product overflows.
    fn product_fails(left: &[Self], right: &[Self], start: usize) -> u64
        requires { CanLoad width N start (wholes left.now) (wholes right.now) }
        ensures { MarksPairs (fails width mul) N start (wholes left.now) (wholes right.now) result };

    /// At which lanes the quotient fails: at a zero divisor, and at the least number divided by -1.
    fn quotient_fails(left: &[Self], right: &[Self], start: usize) -> u64
        requires { CanLoad width N start (wholes left.now) (wholes right.now) }
        ensures { MarksPairs (fails width div) N start (wholes left.now) (wholes right.now) result };

    /// At which lanes the remainder fails: at a zero divisor.
    fn remainder_fails(left: &[Self], right: &[Self], start: usize) -> u64
        requires { CanLoad width N start (wholes left.now) (wholes right.now) }
        ensures { MarksPairs (fails width mod_of) N start (wholes left.now) (wholes right.now) result };

    /// Writes the sums of the lanes that are fine, and 0 at the others; so do the next four with the other results.
    fn put_sums(left: &[Self], right: &[Self], start: usize, fine: u64, to: &mut [Self])
        requires { CanPut width add N start fine (wholes left.now) (wholes right.now) (wholes to.old) }
        ensures { IsPut add N start fine (wholes left.now) (wholes right.now) (wholes to.old) (wholes to.new) };

    fn put_differences(left: &[Self], right: &[Self], start: usize, fine: u64, to: &mut [Self])
        requires { CanPut width sub N start fine (wholes left.now) (wholes right.now) (wholes to.old) }
        ensures { IsPut sub N start fine (wholes left.now) (wholes right.now) (wholes to.old) (wholes to.new) };

    fn put_products(left: &[Self], right: &[Self], start: usize, fine: u64, to: &mut [Self])
        requires { CanPut width mul N start fine (wholes left.now) (wholes right.now) (wholes to.old) }
        ensures { IsPut mul N start fine (wholes left.now) (wholes right.now) (wholes to.old) (wholes to.new) };

    fn put_quotients(left: &[Self], right: &[Self], start: usize, fine: u64, to: &mut [Self])
        requires { CanPut width div N start fine (wholes left.now) (wholes right.now) (wholes to.old) }
        ensures { IsPut div N start fine (wholes left.now) (wholes right.now) (wholes to.old) (wholes to.new) };

    fn put_remainders(left: &[Self], right: &[Self], start: usize, fine: u64, to: &mut [Self])
        requires { CanPut width mod_of N start fine (wholes left.now) (wholes right.now) (wholes to.old) }
        ensures { IsPut mod_of N start fine (wholes left.now) (wholes right.now) (wholes to.old) (wholes to.new) };

    fn zero() -> Self
        ensures { whole result ≡ pos 0 };

    fn is_equal(self, right: Self) -> bool
        ensures { result ≡ int_eq (whole self) (whole right) };

    fn is_less(self, right: Self) -> bool
        ensures { result ≡ int_lt (whole self) (whole right) };

    fn sum(self, right: Self) -> Option<Self>
        ensures { option_map whole result ≡ checked width add (whole self) (whole right) };

    fn difference(self, right: Self) -> Option<Self>
        ensures { option_map whole result ≡ checked width sub (whole self) (whole right) };

    fn product(self, right: Self) -> Option<Self>
        ensures { option_map whole result ≡ checked width mul (whole self) (whole right) };

    fn quotient(self, right: Self) -> Option<Self>
        ensures { option_map whole result ≡ checked width div (whole self) (whole right) };

    fn remainder(self, right: Self) -> Option<Self>
        ensures { option_map whole result ≡ checked width mod_of (whole self) (whole right) };

    /// A column stands for the whole numbers of its items.
    ghost each: { (numbers : List Self) → wholes numbers ≡ map whole numbers };
}
