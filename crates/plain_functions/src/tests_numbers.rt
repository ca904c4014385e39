use crate::conversions::*;
use crate::numbers::*;
use number_rules::{Arithmetic, Comparison, NumberFault};
use std::cmp::Ordering;
use std::test::Fail;

#[test]
fn edges_of_arithmetic(rt: HostRuntime) {
    let integers = [
        (Arithmetic::Add, 2147483647, 1, Err(NumberFault::Overflow)),
        (Arithmetic::Sub, -2147483648, 1, Err(NumberFault::Overflow)),
        (Arithmetic::Mul, 65536, -32768, Ok(-2147483648)),
        (Arithmetic::Div, -7, 2, Ok(-3)),
        (Arithmetic::Div, 1, 0, Err(NumberFault::ByZero)),
        (Arithmetic::Div, -2147483648, -1, Err(NumberFault::Overflow)),
        (Arithmetic::Mod, -7, 2, Ok(-1)),
        (Arithmetic::Mod, 0, 0, Err(NumberFault::ByZero)),
        (Arithmetic::Mod, -2147483648, -1, Ok(0)),
    ];
    for (op, left, right, wanted) in integers {
        assert_eq!(rt;
            arithmetic_integers(op, left, right),
            wanted,
            "{op:?} of {left} and {right}"
        );
    }
    assert_eq!(rt;
        arithmetic_longs(Arithmetic::Div, i64::MIN, -1),
        Err(NumberFault::Overflow)
    );
    assert_eq!(rt; arithmetic_longs(Arithmetic::Mod, i64::MIN, -1), Ok(0));
    assert_eq!(rt; negate_integer(i32::MIN), Err(NumberFault::Overflow));
    assert_eq!(rt; negate_long(i64::MAX), Ok(-9223372036854775807));
    assert_eq!(rt; absolute_integer(-5), Ok(5));
    assert_eq!(rt; absolute_long(i64::MIN), Err(NumberFault::Overflow));
    assert!(rt; holds(Comparison::GreaterEqual, 3.cmp(&3)));
    assert!(rt; !holds(Comparison::NotEqual, Ordering::Equal));
}

#[test]
fn sums_in_order(rt: HostRuntime) {
    let mut sum = Sum::new();
    for number in [i64::MAX, i64::MAX, i64::MIN, i64::MIN, 5] {
        sum.add(number);
    }
    assert_eq!(rt; sum.integer(), Some(3));
    let mut sum = Sum::new();
    sum.add(2147483648);
    assert_eq!(rt; sum.integer(), None);
}

#[test]
fn numbers_in_texts(rt: HostRuntime) -> Result<(), Fail> {
    let texts = [
        ("+7", Some(7), Some(7)),
        ("-0", Some(0), Some(0)),
        ("", None, None),
        ("+", None, None),
        (" 1", None, None),
        ("2147483648", None, Some(2147483648)),
        ("-2147483648", Some(-2147483648), Some(-2147483648)),
        ("10000000000000000000", None, None),
    ];
    for (text, integer, long) in texts {
        assert_eq!(rt; integer_of_text(text), integer, "{text:?} as an integer");
        assert_eq!(rt; long_of_text(text), long, "{text:?} as a long");
    }
    assert_eq!(rt; integer_of_long(2147483648), None);
    assert_eq!(rt; integer_of_truth(true), 1);
    assert!(rt; truth_of_number(-1));
    assert!(rt; truth_of_text("TrUe"));
    assert!(rt; !truth_of_text("true "));
    let least = text_of_number(rt.alloc(), i64::MIN)?;
    assert_eq!(rt; least.as_str(), "-9223372036854775808");
    assert_eq!(rt; text_of_truth(false), "false");
    Ok(())
}
