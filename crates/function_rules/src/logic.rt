//! Laws of three-valued logic.

ghost use Rattle.std.specs.Prelude.{◌≡◌, Bool, Option};
ghost use Rattle.function_rules.specs.Logic.{and_of, not_of, or_of};

/// A law of de Morgan: that two truths hold is denied as that one of them is denied.
pub fn and_is_denied_by_or()
    ensures { (left right : Option Bool) → not_of (and_of left right) ≡ or_of (not_of left) (not_of right) }
{}

/// A law of de Morgan: that one of two truths holds is denied as that both are denied.
pub fn or_is_denied_by_and()
    ensures { (left right : Option Bool) → not_of (or_of left right) ≡ and_of (not_of left) (not_of right) }
{}

/// A law: the sides of AND change places.
pub fn and_is_symmetric()
    ensures { (left right : Option Bool) → and_of left right ≡ and_of right left }
{}

/// A law: the sides of OR change places.
pub fn or_is_symmetric()
    ensures { (left right : Option Bool) → or_of left right ≡ or_of right left }
{}

/// A law: AND groups to the left as to the right.
pub fn and_is_associative()
    ensures { (left middle right : Option Bool) → and_of (and_of left middle) right ≡ and_of left (and_of middle right) }
{}

/// A law: OR groups to the left as to the right.
pub fn or_is_associative()
    ensures { (left middle right : Option Bool) → or_of (or_of left middle) right ≡ or_of left (or_of middle right) }
{}
