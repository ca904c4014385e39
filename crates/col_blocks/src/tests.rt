use super::*;
use bit_masks::Mask;
use esql_types::{Cell, ColId, Kind, Seq, Value, ValueRef};
use std::rc::Rc;
use std::test::Fail;

#[test]
fn values_stand_in_their_rows(rt: HostRuntime) -> Result<(), Fail> {
    // The cells null, [4, 4] and 5.
    let mut builder = Builder::new(rt.alloc(), Kind::Integer);
    builder.push_null()?;
    builder.add_int(4)?;
    builder.add_int(4)?;
    builder.end_row()?;
    builder.push_int(5)?;
    let block = builder.finish()?;
    assert_eq!(rt; block.len(), 3);
    assert!(rt; matches!(block.form(), BlockForm::Multi));
    assert_eq!(rt; block.count_at(0), 0);
    assert_eq!(rt; block.count_at(1), 2);
    assert_eq!(rt; block.count_at(2), 1);
    assert!(rt; matches!(block.value_at(1, 1), Some(ValueRef::Int(4))));
    assert!(rt; block.value_at(2, 1).is_none());
    assert_eq!(rt; block.cell_at(rt.alloc(), 1)?.len(), 2);
    let mut keep = Mask::new(rt.alloc(), 3, true)?;
    keep.set(1, false);
    let kept = block.filter(rt.alloc(), &keep)?;
    assert_eq!(rt; kept.len(), 2);
    assert_eq!(rt; kept.count_at(0), 0);
    assert!(rt; matches!(kept.value_at(1, 0), Some(ValueRef::Int(5))));
    assert_eq!(rt; kept.ints(), Some([0, 5].as_slice()));
    assert!(rt; kept.longs().is_none());
    Ok(())
}

#[test]
fn forms_and_moves(rt: HostRuntime) -> Result<(), Fail> {
    // Texts without a null, then with one.
    let mut builder = Builder::new(rt.alloc(), Kind::Keyword);
    builder.push_text("a")?;
    builder.push_text("")?;
    builder.push_text("cd")?;
    let block = builder.finish()?;
    assert!(rt; matches!(block.form(), BlockForm::Vector));
    let part = block.slice(rt.alloc(), 1, 2)?;
    assert_eq!(rt; part.len(), 2);
    assert!(rt; matches!(part.value_at(1, 0), Some(ValueRef::Text("cd"))));
    let mut places = Mask::new(rt.alloc(), 3, true)?;
    places.set(0, false);
    assert_eq!(rt; places.count(), 2);
    let spread = part.scatter(rt.alloc(), &places)?;
    assert!(rt; matches!(spread.form(), BlockForm::Nullable));
    assert_eq!(rt; spread.len(), 3);
    assert_eq!(rt; spread.count_at(0), 0);
    assert!(rt; matches!(spread.value_at(2, 0), Some(ValueRef::Text("cd"))));
    Ok(())
}

#[test]
fn pages_share_blocks(rt: HostRuntime) -> Result<(), Fail> {
    let cell = Cell::one(rt.alloc(), Value::Long(7));
    let block = Block::constant(cell, Kind::Long, 2);
    let mut page = Page::new(rt.alloc(), 2);
    page.put(ColId(3), Rc::new(rt.alloc(), block)?)?;
    let mut ids = Seq::new(rt.alloc());
    ids.push(ColId(3))?;
    let some = page.project(rt.alloc(), &ids)?;
    assert_eq!(rt; some.rows, 2);
    assert!(rt; some.block(ColId(3)).is_some());
    assert!(rt; some.block(ColId(4)).is_none());
    Ok(())
}
