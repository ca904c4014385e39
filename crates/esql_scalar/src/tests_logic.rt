use crate::rows::{Shown, given};
use crate::trees::{NODE, call, column, number, one, three, two};
use esql_plan::Function;
use esql_types::{ColId, Kind, NodeId};
use std::test::Fail;

#[test]
fn conjunctions(rt: HostRuntime) -> Result<(), Fail> {
    let alloc = rt.alloc();
    let left = column(Kind::Boolean, ColId(0));
    let right = column(Kind::Boolean, ColId(1));
    let both = call(
        NODE,
        Kind::Boolean,
        Function::And,
        None,
        two(alloc, left, right)?,
    );
    let cases: [(&[bool], &[bool], &[bool], &[&str]); 10] = [
        (&[true], &[true], &[true], &[]),
        (&[true], &[false], &[false], &[]),
        (&[false], &[], &[false], &[]),
        (&[], &[false], &[false], &[]),
        (&[true], &[], &[], &[]),
        (&[], &[], &[], &[]),
        (&[true, true], &[true], &[], &["several"]),
        (&[false], &[true, true], &[false], &["several"]),
        (&[true, false], &[], &[], &["several"]),
        (&[true, true], &[false, true], &[], &["several", "several"]),
    ];
    for (left, right, cell, words) in cases {
        let given = given(alloc, &both, &[Shown::Truths(left), Shown::Truths(right)])?;
        assert!(rt;
            given.is(Shown::Truths(cell), words),
            "{left:?} AND {right:?}"
        );
    }
    Ok(())
}

#[test]
fn disjunctions(rt: HostRuntime) -> Result<(), Fail> {
    let alloc = rt.alloc();
    let left = column(Kind::Boolean, ColId(0));
    let right = column(Kind::Boolean, ColId(1));
    let either = call(
        NODE,
        Kind::Boolean,
        Function::Or,
        None,
        two(alloc, left, right)?,
    );
    let cases: [(&[bool], &[bool], &[bool], &[&str]); 10] = [
        (&[false], &[false], &[false], &[]),
        (&[false], &[true], &[true], &[]),
        (&[true], &[], &[true], &[]),
        (&[], &[true], &[true], &[]),
        (&[false], &[], &[], &[]),
        (&[], &[], &[], &[]),
        (&[false, true], &[false], &[], &["several"]),
        (&[true], &[false, false], &[true], &["several"]),
        (&[], &[true, false], &[], &["several"]),
        (&[true, true], &[true, true], &[], &["several", "several"]),
    ];
    for (left, right, cell, words) in cases {
        let given = given(alloc, &either, &[Shown::Truths(left), Shown::Truths(right)])?;
        assert!(rt;
            given.is(Shown::Truths(cell), words),
            "{left:?} OR {right:?}"
        );
    }
    Ok(())
}

#[test]
fn negations(rt: HostRuntime) -> Result<(), Fail> {
    let alloc = rt.alloc();
    let truth = column(Kind::Boolean, ColId(0));
    let negation = call(NODE, Kind::Boolean, Function::Not, None, one(alloc, truth)?);
    let cases: [(&[bool], &[bool], &[&str]); 4] = [
        (&[true], &[false], &[]),
        (&[false], &[true], &[]),
        (&[], &[], &[]),
        (&[true, true], &[], &["several"]),
    ];
    for (truth, cell, words) in cases {
        let given = given(alloc, &negation, &[Shown::Truths(truth)])?;
        assert!(rt; given.is(Shown::Truths(cell), words), "NOT {truth:?}");
    }
    Ok(())
}

#[test]
fn members(rt: HostRuntime) -> Result<(), Fail> {
    let alloc = rt.alloc();
    let left = column(Kind::Integer, ColId(0));
    let first = column(Kind::Integer, ColId(1));
    let mut args = three(alloc, left, first, column(Kind::Integer, ColId(2)))?;
    args.push(column(Kind::Integer, ColId(3)))?;
    let member = call(NODE, Kind::Boolean, Function::In, None, args);
    let cases: [(&[i32], [&[i32]; 3], &[bool], &[&str]); 10] = [
        (&[5], [&[1], &[5, 6], &[5]], &[true], &["several"]),
        (&[5], [&[1], &[2], &[5]], &[true], &[]),
        (&[5], [&[1], &[2], &[3]], &[false], &[]),
        (&[5], [&[], &[2], &[5]], &[true], &[]),
        (&[5], [&[], &[2], &[3]], &[], &[]),
        (&[5], [&[5, 5], &[2], &[3]], &[], &["several"]),
        (&[5], [&[5, 6], &[7, 8], &[]], &[], &["several"]),
        (&[], [&[1], &[5, 6], &[5]], &[], &[]),
        (&[5, 6], [&[], &[5, 6], &[5]], &[], &["several"]),
        (
            &[-2147483648],
            [&[0], &[2147483647], &[-2147483648]],
            &[true],
            &[],
        ),
    ];
    for (left, [first, second, third], cell, words) in cases {
        let row = [
            Shown::Ints(left),
            Shown::Ints(first),
            Shown::Ints(second),
            Shown::Ints(third),
        ];
        let given = given(alloc, &member, &row)?;
        assert!(rt;
            given.is(Shown::Truths(cell), words),
            "{left:?} IN ({first:?}, {second:?}, {third:?})"
        );
    }
    Ok(())
}

#[test]
fn first_true_conditions(rt: HostRuntime) -> Result<(), Fail> {
    let alloc = rt.alloc();
    let first = column(Kind::Boolean, ColId(0));
    let second = column(Kind::Boolean, ColId(1));
    let mut args = three(alloc, first, number(alloc, 1), second)?;
    args.push(number(alloc, 2))?;
    args.push(number(alloc, 3))?;
    let case = call(NODE, Kind::Integer, Function::Case, None, args);
    let cases: [(&[bool], &[bool], &[i32], &[&str]); 10] = [
        (&[true], &[true], &[1], &[]),
        (&[true], &[false, true], &[1], &[]),
        (&[false], &[true], &[2], &[]),
        (&[], &[true], &[2], &[]),
        (&[true, true], &[true], &[2], &["several"]),
        (&[false], &[false], &[3], &[]),
        (&[], &[], &[3], &[]),
        (&[false], &[true, true], &[3], &["several"]),
        (&[true, true], &[true, false], &[3], &["several", "several"]),
        (&[true], &[], &[1], &[]),
    ];
    for (first, second, cell, words) in cases {
        let given = given(alloc, &case, &[Shown::Truths(first), Shown::Truths(second)])?;
        assert!(rt; given.is(Shown::Ints(cell), words), "{first:?}, {second:?}");
    }
    Ok(())
}

#[test]
fn no_condition_is_true(rt: HostRuntime) -> Result<(), Fail> {
    let alloc = rt.alloc();
    let condition = column(Kind::Boolean, ColId(0));
    let args = two(alloc, condition, number(alloc, 1))?;
    let case = call(NODE, Kind::Integer, Function::Case, None, args);
    let cases: [(&[bool], &[i32], &[&str]); 4] = [
        (&[true], &[1], &[]),
        (&[false], &[], &[]),
        (&[], &[], &[]),
        (&[true, true], &[], &["several"]),
    ];
    for (condition, cell, words) in cases {
        let given = given(alloc, &case, &[Shown::Truths(condition)])?;
        assert!(rt; given.is(Shown::Ints(cell), words), "{condition:?}");
    }
    Ok(())
}

#[test]
fn first_cells_that_are_not_null(rt: HostRuntime) -> Result<(), Fail> {
    let alloc = rt.alloc();
    let first = column(Kind::Integer, ColId(0));
    let second = column(Kind::Integer, ColId(1));
    let quotient = call(
        NODE,
        Kind::Integer,
        Function::Div,
        None,
        two(alloc, number(alloc, 6), second)?,
    );
    let third = column(Kind::Integer, ColId(2));
    let some = call(
        NODE,
        Kind::Integer,
        Function::Coalesce,
        None,
        three(alloc, first, quotient, third)?,
    );
    let cases: [(&[i32], &[i32], &[i32], &[i32], &[&str]); 10] = [
        (&[1], &[2], &[3], &[1], &[]),
        (&[1], &[0], &[3], &[1], &[]),
        (&[1, 2], &[0], &[3], &[1, 2], &[]),
        (&[], &[2], &[7], &[3], &[]),
        (&[], &[0], &[7], &[7], &["zero"]),
        (&[], &[1, 2], &[7, 8], &[7, 8], &["several"]),
        (&[], &[], &[7], &[7], &[]),
        (&[], &[], &[], &[], &[]),
        (&[], &[0], &[], &[], &["zero"]),
        (&[0], &[], &[], &[0], &[]),
    ];
    for (first, second, third, cell, words) in cases {
        let row = [Shown::Ints(first), Shown::Ints(second), Shown::Ints(third)];
        let given = given(alloc, &some, &row)?;
        assert!(rt;
            given.is(Shown::Ints(cell), words),
            "{first:?}, {second:?}, {third:?}"
        );
    }
    Ok(())
}

#[test]
fn case_leaves_out_what_no_row_reaches(rt: HostRuntime) -> Result<(), Fail> {
    let alloc = rt.alloc();
    let number_of = column(Kind::Integer, ColId(0));
    let args = two(alloc, number_of, column(Kind::Integer, ColId(1)))?;
    let quotient = call(NODE, Kind::Integer, Function::Div, None, args);
    let args = two(alloc, column(Kind::Integer, ColId(1)), number(alloc, 0))?;
    let differs = call(NODE, Kind::Boolean, Function::Ne, None, args);
    let args = three(alloc, differs, quotient, number(alloc, 0))?;
    let case = call(NODE, Kind::Integer, Function::Case, None, args);
    let cases: [(&[i32], &[i32], &[i32], &[&str]); 5] = [
        (&[6], &[0], &[0], &[]),
        (&[6], &[2], &[3], &[]),
        (&[6], &[], &[0], &[]),
        (&[], &[2], &[], &[]),
        (&[6], &[1, 2], &[0], &["several"]),
    ];
    for (number, divisor, cell, words) in cases {
        let given = given(alloc, &case, &[Shown::Ints(number), Shown::Ints(divisor)])?;
        assert!(rt;
            given.is(Shown::Ints(cell), words),
            "{number:?}, {divisor:?}"
        );
    }
    Ok(())
}

#[test]
fn and_evaluates_its_right_side(rt: HostRuntime) -> Result<(), Fail> {
    let alloc = rt.alloc();
    let args = two(alloc, column(Kind::Integer, ColId(1)), number(alloc, 0))?;
    let differs = call(NodeId(1), Kind::Boolean, Function::Ne, None, args);
    let number_of = column(Kind::Integer, ColId(0));
    let args = two(alloc, number_of, column(Kind::Integer, ColId(1)))?;
    let quotient = call(NodeId(2), Kind::Integer, Function::Div, None, args);
    let args = two(alloc, quotient, number(alloc, 1))?;
    let above = call(NodeId(3), Kind::Boolean, Function::Gt, None, args);
    let args = two(alloc, differs, above)?;
    let both = call(NODE, Kind::Boolean, Function::And, None, args);
    let given = given(alloc, &both, &[Shown::Ints(&[6]), Shown::Ints(&[0])])?;
    assert!(rt; given.is(Shown::Truths(&[false]), &["zero"]));
    assert!(rt; given.failures.at(0).map(|failure| failure.node) == Some(NodeId(2)));
    Ok(())
}
