//! Laws of the rules in other words.
ghost use Rattle.std.specs.Prelude.{◌≡◌, ◌≢◌, ◌<◌, ◌^◌, ℕ, ℤ, pos, negsuc, neg_ℤ, ◌+ℤ◌, ◌*ℤ◌, ◌≤ℤ◌, unsigned_abs, List, All, length, fold, Some, Ok, Err};
ghost use Rattle.number_rules.specs.declared.Arithmetic.TheVariants.{Div, Mod};
ghost use Rattle.number_rules.specs.declared.NumberFault.TheVariants.{Overflow};
ghost use Rattle.number_rules.specs.Arithmetic.{arithmetic, exact};
ghost use Rattle.number_rules.specs.Ranges.{IsLong};
ghost use Rattle.number_rules.specs.Sums.{sum_in, sum_within};

/// A law: the quotient times the divisor, plus the remainder, is the left number.
pub fn quotient_and_remainder()
    ensures { (left right : ℤ) → right ≢ pos 0 → left ≡ (exact Div left right *ℤ right) +ℤ exact Mod left right }
{}

/// A law: the remainder's size is below the divisor's.
pub fn remainder_below_divisor()
    ensures { (left right : ℤ) → right ≢ pos 0 → unsigned_abs (exact Mod left right) < unsigned_abs right }
{}

/// A law: a remainder that is not 0 has the sign of the left number.
pub fn remainder_of_the_sign()
    ensures positive { (left right : ℤ) → pos 0 ≤ℤ left → pos 0 ≤ℤ exact Mod left right }
    ensures negative { (left right : ℤ) → left ≤ℤ pos 0 → exact Mod left right ≤ℤ pos 0 }
{}

/// A law: the least number of a kind, divided by -1, overflows.
pub fn least_by_minus_one()
    ensures { (bits : ℕ) → arithmetic bits Div (neg_ℤ (pos (2 ^ bits))) (negsuc 0) ≡ Err Overflow }
{}

/// A law: the remainder of the least number of a kind by -1 is 0.
pub fn remainder_by_minus_one()
    ensures { (bits : ℕ) → arithmetic bits Mod (neg_ℤ (pos (2 ^ bits))) (negsuc 0) ≡ Ok (pos 0) }
{}

/// A law: a sum that a kind holds is the plain sum of the numbers.
pub fn plain_sum()
    ensures { (bits : ℕ) (numbers : List ℤ) (total : ℤ) → sum_within bits numbers ≡ Some total → total ≡ fold ◌+ℤ◌ (pos 0) numbers }
{}

/// A law: no partial sum of fewer than 2 ^ 64 longs leaves 128 bits, so their sum is the plain one wherever the kind holds it.
pub fn sum_of_longs()
    ensures { (bits : ℕ) (numbers : List ℤ) → All IsLong numbers → length numbers < 2 ^ 64 → sum_within bits numbers ≡ sum_in bits (Some (fold ◌+ℤ◌ (pos 0) numbers)) }
{}
