//! Arithmetic, comparison and sums.
ghost use Rattle.std.specs.Prelude.{◌≡◌, pos};
ghost use Rattle.number_rules.specs.Arithmetic.{arithmetic, negated, absolute};
ghost use Rattle.number_rules.specs.Comparisons.{compares};
ghost use Rattle.number_rules.specs.Sums.{plus_128, sum_in};

use number_rules::{Arithmetic, Comparison, NumberFault};
use std::cmp::Ordering;
use std::marker::Model;

/// The result of an operation on integers.
///
/// Fails with `ByZero` at a zero divisor, and with `Overflow` where the result is no integer.
pub fn arithmetic_integers(op: Arithmetic, left: i32, right: i32) -> Result<i32, NumberFault>
    ensures { result ≡ arithmetic 31 op left right }
{
    match op {
        Arithmetic::Add => left.checked_add(right).ok_or(NumberFault::Overflow),
        Arithmetic::Sub => left.checked_sub(right).ok_or(NumberFault::Overflow),
        Arithmetic::Mul => left.checked_mul(right).ok_or(NumberFault::Overflow),
        Arithmetic::Div => integer_quotient(left, right),
        Arithmetic::Mod => integer_remainder(left, right),
    }
}

fn integer_quotient(left: i32, right: i32) -> Result<i32, NumberFault>
    ensures { result ≡ arithmetic 31 Arithmetic.Div left right }
{
    if right == 0 {
        return Err(NumberFault::ByZero);
    }
    left.checked_div(right).ok_or(NumberFault::Overflow)
}

// The remainder of the least number by -1 is 0, though its quotient overflows.
fn integer_remainder(left: i32, right: i32) -> Result<i32, NumberFault>
    ensures { result ≡ arithmetic 31 Arithmetic.Mod left right }
{
    if right == 0 {
        return Err(NumberFault::ByZero);
    }
    Ok(left.wrapping_rem(right))
}

/// The result of an operation on longs.
///
/// Fails with `ByZero` at a zero divisor, and with `Overflow` where the result is no long.
pub fn arithmetic_longs(op: Arithmetic, left: i64, right: i64) -> Result<i64, NumberFault>
    ensures { result ≡ arithmetic 63 op left right }
{
    match op {
        Arithmetic::Add => left.checked_add(right).ok_or(NumberFault::Overflow),
        Arithmetic::Sub => left.checked_sub(right).ok_or(NumberFault::Overflow),
        Arithmetic::Mul => left.checked_mul(right).ok_or(NumberFault::Overflow),
        Arithmetic::Div => long_quotient(left, right),
        Arithmetic::Mod => long_remainder(left, right),
    }
}

fn long_quotient(left: i64, right: i64) -> Result<i64, NumberFault>
    ensures { result ≡ arithmetic 63 Arithmetic.Div left right }
{
    if right == 0 {
        return Err(NumberFault::ByZero);
    }
    left.checked_div(right).ok_or(NumberFault::Overflow)
}

// The remainder of the least number by -1 is 0, though its quotient overflows.
fn long_remainder(left: i64, right: i64) -> Result<i64, NumberFault>
    ensures { result ≡ arithmetic 63 Arithmetic.Mod left right }
{
    if right == 0 {
        return Err(NumberFault::ByZero);
    }
    Ok(left.wrapping_rem(right))
}

/// The integer with the other sign. Fails with `Overflow` at the least integer.
pub fn negate_integer(number: i32) -> Result<i32, NumberFault>
    ensures { result ≡ negated 31 number }
{
    number.checked_neg().ok_or(NumberFault::Overflow)
}

/// The long with the other sign. Fails with `Overflow` at the least long.
pub fn negate_long(number: i64) -> Result<i64, NumberFault>
    ensures { result ≡ negated 63 number }
{
    number.checked_neg().ok_or(NumberFault::Overflow)
}

/// The integer without its sign. Fails with `Overflow` at the least integer.
pub fn absolute_integer(number: i32) -> Result<i32, NumberFault>
    ensures { result ≡ absolute 31 number }
{
    number.checked_abs().ok_or(NumberFault::Overflow)
}

/// The long without its sign. Fails with `Overflow` at the least long.
pub fn absolute_long(number: i64) -> Result<i64, NumberFault>
    ensures { result ≡ absolute 63 number }
{
    number.checked_abs().ok_or(NumberFault::Overflow)
}

/// Whether a comparison holds of two values that stand in the order.
pub fn holds(op: Comparison, order: Ordering) -> bool
    ensures { result ≡ compares op order }
{
    match op {
        Comparison::Equal => order.is_eq(),
        Comparison::NotEqual => order.is_ne(),
        Comparison::Less => order.is_lt(),
        Comparison::LessEqual => order.is_le(),
        Comparison::Greater => order.is_gt(),
        Comparison::GreaterEqual => order.is_ge(),
    }
}

/// A sum of numbers in order, in 128 bits. A sum that has left them stays without a value.
///
/// Contracts see it as the sum so far, or as `None`.
#[derive(Debug, Drop)]
pub struct Sum {
    total: Option<i128>,
}

impl Model for Sum {
    ghost use Rattle.std.specs.Prelude.{Option, ℤ};

    ghost Value = { Option ℤ };

    ghost view = { λ sum. sum.total };
}

impl Sum {
    /// The sum of no numbers.
    pub fn new() -> Sum
        ensures { result ≡ Some (pos 0) }
    {
        Sum { total: Some(0) }
    }

    /// Adds one more number.
    pub fn add(&mut self, number: i64)
        ensures { self.new ≡ plus_128 self.old number }
    {
        self.total = match self.total {
            Some(total) => total.checked_add(i128::from(number)),
            None => None,
        };
    }

    /// The sum, where it is an integer and no partial sum has left 128 bits.
    pub fn integer(self) -> Option<i32>
        ensures { result ≡ sum_in 31 self }
    {
        i32::try_from(self.total?).ok()
    }

    /// The sum, where it is a long and no partial sum has left 128 bits.
    pub fn long(self) -> Option<i64>
        ensures { result ≡ sum_in 63 self }
    {
        i64::try_from(self.total?).ok()
    }
}
