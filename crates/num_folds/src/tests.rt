use super::*;
use bit_masks::Mask;
use std::test::Fail;

#[test]
fn sums_and_extremes(rt: HostRuntime) -> Result<(), Fail> {
    let mut valid = Mask::new(rt.alloc(), 6, true)?;
    let all = Mask::new(rt.alloc(), 6, true)?;
    let none = Mask::new(rt.alloc(), 6, false)?;
    valid.set(1, false);
    let ints = [i32::MAX, 5, i32::MAX, -1, 2, -9];
    assert_eq!(rt; sum_ints::<4>(&ints, &valid, &all), 4294967286);
    assert_eq!(rt; sum_ints::<8>(&ints, &valid, &none), 0);
    assert_eq!(rt; least_ints::<4>(&ints, &valid, &all), Some(-9));
    assert_eq!(rt; greatest_ints::<4>(&ints, &all, &valid), Some(i32::MAX));
    assert_eq!(rt; least_ints::<16>(&ints, &none, &all), None);
    let longs = [i64::MIN, 9, i64::MIN, 0, 7, 1];
    assert_eq!(rt; sum_longs::<8>(&longs, &valid, &all), -18446744073709551608);
    assert_eq!(rt; least_longs::<4>(&longs, &valid, &all), Some(i64::MIN));
    assert_eq!(rt; greatest_longs::<4>(&longs, &valid, &all), Some(7));
    assert_eq!(rt; greatest_longs::<4>(&longs, &all, &none), None);
    Ok(())
}

#[test]
fn lanes_are_marked_by_bits(rt: HostRuntime) {
    int_lanes::fit::<4>(&[1, -2, 3, i32::MIN], 0);
    long_lanes::fit::<4>(&[1, -2, 3, i64::MIN, 5], 1);
    assert_eq!(rt; int_lanes::marks::<4>(5).to_bitmask(), 5);
    assert_eq!(rt; long_lanes::marks::<8>(130).to_bitmask(), 130);
}
