ghost use Rattle.num_kernels.specs.Numbers.{IsArithmetic, IsComparison};
ghost use Rattle.num_folds.specs.Lanes.{IsLaneCount};

use super::*;
use bit_masks::Mask;
use std::alloc::Global;
use std::test::Fail;

// Numbers at the ends of their types, and some between. A place has one of them on the left and a later one on the right.
const ENDS_INTS: [i32; 10] = [i32::MIN, -1, 6, 0, i32::MAX, 2, -7, 1, 65536, i32::MIN + 1];

const ENDS_LONGS: [i64; 10] = [
    i64::MIN,
    -1,
    6,
    0,
    i64::MAX,
    2,
    -7,
    1,
    1 << 32,
    i64::MIN + 1,
];

// As many places as three vectors of 16 lanes have, and two more.
fn ints() -> ([i32; 50], [i32; 50]) {
    let (mut left, mut right) = ([0; 50], [0; 50]);
    for place in 0..50 {
        left[place] = ENDS_INTS[place % 10];
        right[place] = ENDS_INTS[(place + place / 10 + 1) % 10];
    }
    (left, right)
}

fn longs() -> ([i64; 50], [i64; 50]) {
    let (mut left, mut right) = ([0; 50], [0; 50]);
    for place in 0..50 {
        left[place] = ENDS_LONGS[place % 10];
        right[place] = ENDS_LONGS[(place + place / 10 + 1) % 10];
    }
    (left, right)
}

// The number that an operation gives, taken in a wider type, or None at a zero divisor.
fn widely(op: u8, left: i64, right: i64) -> Option<i128> {
    let (left, right) = (left as i128, right as i128);
    match op {
        ADD => Some(left + right),
        SUB => Some(left - right),
        MUL => Some(left * right),
        _ if right == 0 => None,
        DIV => left.checked_div(right),
        _ => left.checked_rem(right),
    }
}

fn compared(op: u8, left: i64, right: i64) -> bool {
    match op {
        EQ => left == right,
        NE => left != right,
        LT => left < right,
        LE => left <= right,
        GT => left > right,
        _ => left >= right,
    }
}

// Whether the kernel and the plain loop agree on the first places of the tables.
fn ints_agree<const OP: u8, const N: usize>(alloc: Global, len: usize) -> Result<bool, Fail>
    requires { IsArithmetic OP × IsLaneCount N }
{
    if len > 50 {
        return Ok(false);
    }
    let (left, right) = ints();
    let (left, right) = (&left[..len], &right[..len]);
    let all = Mask::new(alloc, len, true)?;
    let mut valid = Mask::new(alloc, len, true)?;
    compare_ints::<NE, 4>(left, &[2; 50][..len], &all, &mut valid);
    let mut to = vec![in alloc; 5; len]?;
    let mut failed = Mask::new(alloc, len, true)?;
    arith_ints::<OP, N>(left, right, &valid, &mut to, &mut failed);
    for place in 0..len {
        let exact = widely(OP, left[place] as i64, right[place] as i64);
        let held = exact.filter(|x| *x >= i32::MIN as i128 && *x <= i32::MAX as i128);
        let fails = valid.get(place) && held.is_none();
        let value = if valid.get(place) {
            held.unwrap_or(0)
        } else {
            0
        };
        if to[place] as i128 != value || failed.get(place) != fails {
            return Ok(false);
        }
    }
    Ok(true)
}

fn ints_compare<const OP: u8, const N: usize>(alloc: Global, len: usize) -> Result<bool, Fail>
    requires { IsComparison OP × IsLaneCount N }
{
    if len > 50 {
        return Ok(false);
    }
    let (left, right) = ints();
    let (left, right) = (&left[..len], &right[..len]);
    let all = Mask::new(alloc, len, true)?;
    let mut valid = Mask::new(alloc, len, true)?;
    compare_ints::<NE, 4>(left, &[2; 50][..len], &all, &mut valid);
    let mut to = Mask::new(alloc, len, true)?;
    compare_ints::<OP, N>(left, right, &valid, &mut to);
    for place in 0..len {
        let holds = valid.get(place) && compared(OP, left[place] as i64, right[place] as i64);
        if to.get(place) != holds {
            return Ok(false);
        }
    }
    Ok(true)
}

// Whether the kernel and the plain loop agree on the first places of the tables.
fn longs_agree<const OP: u8, const N: usize>(alloc: Global, len: usize) -> Result<bool, Fail>
    requires { IsArithmetic OP × IsLaneCount N }
{
    if len > 50 {
        return Ok(false);
    }
    let (left, right) = longs();
    let (left, right) = (&left[..len], &right[..len]);
    let all = Mask::new(alloc, len, true)?;
    let mut valid = Mask::new(alloc, len, true)?;
    compare_longs::<NE, 4>(left, &[2; 50][..len], &all, &mut valid);
    let mut to = vec![in alloc; 5; len]?;
    let mut failed = Mask::new(alloc, len, true)?;
    arith_longs::<OP, N>(left, right, &valid, &mut to, &mut failed);
    for place in 0..len {
        let exact = widely(OP, left[place] as i64, right[place] as i64);
        let held = exact.filter(|x| *x >= i64::MIN as i128 && *x <= i64::MAX as i128);
        let fails = valid.get(place) && held.is_none();
        let value = if valid.get(place) {
            held.unwrap_or(0)
        } else {
            0
        };
        if to[place] as i128 != value || failed.get(place) != fails {
            return Ok(false);
        }
    }
    Ok(true)
}

fn longs_compare<const OP: u8, const N: usize>(alloc: Global, len: usize) -> Result<bool, Fail>
    requires { IsComparison OP × IsLaneCount N }
{
    if len > 50 {
        return Ok(false);
    }
    let (left, right) = longs();
    let (left, right) = (&left[..len], &right[..len]);
    let all = Mask::new(alloc, len, true)?;
    let mut valid = Mask::new(alloc, len, true)?;
    compare_longs::<NE, 4>(left, &[2; 50][..len], &all, &mut valid);
    let mut to = Mask::new(alloc, len, true)?;
    compare_longs::<OP, N>(left, right, &valid, &mut to);
    for place in 0..len {
        let holds = valid.get(place) && compared(OP, left[place] as i64, right[place] as i64);
        if to.get(place) != holds {
            return Ok(false);
        }
    }
    Ok(true)
}

fn all_agree<const N: usize>(alloc: Global, len: usize) -> Result<bool, Fail>
    requires { IsLaneCount N }
{
    let ints = ints_agree::<ADD, N>(alloc, len)?
        && ints_agree::<SUB, N>(alloc, len)?
        && ints_agree::<MUL, N>(alloc, len)?
        && ints_agree::<DIV, N>(alloc, len)?
        && ints_agree::<MOD, N>(alloc, len)?;
    let longs = longs_agree::<ADD, N>(alloc, len)?
        && longs_agree::<SUB, N>(alloc, len)?
        && longs_agree::<MUL, N>(alloc, len)?
        && longs_agree::<DIV, N>(alloc, len)?
        && longs_agree::<MOD, N>(alloc, len)?;
    Ok(ints && longs)
}

fn all_compare<const N: usize>(alloc: Global, len: usize) -> Result<bool, Fail>
    requires { IsLaneCount N }
{
    let ints = ints_compare::<EQ, N>(alloc, len)?
        && ints_compare::<NE, N>(alloc, len)?
        && ints_compare::<LT, N>(alloc, len)?
        && ints_compare::<LE, N>(alloc, len)?
        && ints_compare::<GT, N>(alloc, len)?
        && ints_compare::<GE, N>(alloc, len)?;
    let longs = longs_compare::<EQ, N>(alloc, len)?
        && longs_compare::<NE, N>(alloc, len)?
        && longs_compare::<LT, N>(alloc, len)?
        && longs_compare::<LE, N>(alloc, len)?
        && longs_compare::<GT, N>(alloc, len)?
        && longs_compare::<GE, N>(alloc, len)?;
    Ok(ints && longs)
}

// No place, one, one vector without a place, whole and with one more, and three vectors with two more.
#[test]
fn every_operation_is_the_plain_one(rt: HostRuntime) -> Result<(), Fail> {
    for len in [0, 1, 3, 4, 5, 14] {
        assert!(rt; all_agree::<4>(rt.alloc(), len)?, "four lanes at {len}");
        assert!(rt; all_compare::<4>(rt.alloc(), len)?, "four lanes at {len}");
    }
    for len in [0, 1, 7, 8, 9, 26] {
        assert!(rt; all_agree::<8>(rt.alloc(), len)?, "eight lanes at {len}");
        assert!(rt; all_compare::<8>(rt.alloc(), len)?, "eight lanes at {len}");
    }
    for len in [0, 1, 15, 16, 17, 50] {
        assert!(rt; all_agree::<16>(rt.alloc(), len)?, "sixteen lanes at {len}");
        assert!(rt;
            all_compare::<16>(rt.alloc(), len)?,
            "sixteen lanes at {len}"
        );
    }
    Ok(())
}

#[test]
fn products_and_quotients_of_integers(rt: HostRuntime) -> Result<(), Fail> {
    let mut valid = Mask::new(rt.alloc(), 3, true)?;
    let mut failed = Mask::new(rt.alloc(), 3, false)?;
    let mut to = [5; 3];
    arith_ints::<DIV, 8>(
        &[i32::MIN, 6, -7],
        &[-1, 0, 2],
        &valid,
        &mut to,
        &mut failed,
    );
    assert_eq!(rt; to, [0, 0, -3]);
    assert_eq!(rt; failed.bits(0, 3), 3);
    valid.set(1, false);
    arith_ints::<MUL, 4>(
        &[2147483647, 7, 3],
        &[2, 0, -4],
        &valid,
        &mut to,
        &mut failed,
    );
    assert_eq!(rt; to, [0, 0, -12]);
    assert_eq!(rt; failed.bits(0, 3), 1);
    Ok(())
}

#[test]
fn remainders_of_longs(rt: HostRuntime) -> Result<(), Fail> {
    let valid = Mask::new(rt.alloc(), 2, true)?;
    let mut failed = Mask::new(rt.alloc(), 2, true)?;
    let mut to = [5; 2];
    arith_longs::<MOD, 4>(&[i64::MIN, -7], &[-1, 2], &valid, &mut to, &mut failed);
    assert_eq!(rt; to, [0, -1]);
    assert_eq!(rt; failed.bits(0, 2), 0);
    let empty = Mask::new(rt.alloc(), 0, true)?;
    let mut none = Mask::new(rt.alloc(), 0, true)?;
    compare_longs::<LT, 16>(&[], &[], &empty, &mut none);
    assert_eq!(rt; none.len(), 0);
    Ok(())
}
