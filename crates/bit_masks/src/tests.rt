use super::*;
use std::test::Fail;

#[test]
fn places_are_found(rt: HostRuntime) -> Result<(), Fail> {
    let mut mask = Mask::new(rt.alloc(), 200, false)?;
    // Places over several words: the first, the ends of words, and the last.
    mask.set(0, true);
    mask.set(5, true);
    mask.set(63, true);
    mask.set(64, true);
    mask.set(130, true);
    mask.set(199, true);
    assert_eq!(rt; mask.len(), 200);
    assert_eq!(rt; mask.count(), 6);
    assert!(rt; mask.get(130));
    assert!(rt; !mask.get(131));
    assert_eq!(rt; mask.next_set(1), Some(5));
    assert_eq!(rt; mask.next_set(64), Some(64));
    assert_eq!(rt; mask.next_set(65), Some(130));
    assert_eq!(rt; mask.next_set(200), None);
    assert_eq!(rt; mask.bits(60, 4), 8);
    mask.flip();
    assert_eq!(rt; mask.count(), 194);
    assert_eq!(rt; mask.next_set(199), None);
    mask.set(1, false);
    assert_eq!(rt; mask.next_set(0), Some(2));
    mask.put_bits(0, 4, 9);
    assert_eq!(rt; mask.next_set(1), Some(3));
    Ok(())
}

#[test]
fn masks_are_combined(rt: HostRuntime) -> Result<(), Fail> {
    let mut left = Mask::new(rt.alloc(), 400, true)?;
    let mut right = Mask::new(rt.alloc(), 400, false)?;
    right.set(399, true);
    right.set(7, true);
    left.and_with(&right);
    assert_eq!(rt; left.count(), 2);
    right.flip();
    left.or_with(&right);
    assert_eq!(rt; left.count(), 400);
    assert_eq!(rt; Mask::new(rt.alloc(), 0, true)?.count(), 0);
    Ok(())
}
