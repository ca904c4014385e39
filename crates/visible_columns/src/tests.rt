use super::*;
use esql_plan::OutColumn;
use esql_types::{ColId, Kind, Seq, Text};
use std::alloc::{AllocError, Global};
use std::test::Fail;

fn column(alloc: Global, name: &str, number: u32) -> Result<OutColumn, AllocError> {
    let name = Text::from_str(alloc, name)?;
    Ok(OutColumn {
        name,
        kind: Kind::Long,
        id: ColId(number),
    })
}

#[test]
fn a_name_is_taken_over(rt: HostRuntime) -> Result<(), Fail> {
    let mut columns = Seq::new(rt.alloc());
    columns.push(column(rt.alloc(), "a", 0)?)?;
    columns.push(column(rt.alloc(), "b", 1)?)?;
    let visible = VisibleColumns::from_seq(rt.alloc(), columns)?;
    let visible = visible.put(rt.alloc(), column(rt.alloc(), "a", 2)?)?;
    assert_eq!(rt;
        visible.named("a"),
        Some(Shown {
            kind: Kind::Long,
            id: ColId(2)
        })
    );
    let visible = visible.renumber(rt.alloc(), "b", ColId(3))?;
    assert_eq!(rt; visible.named("c"), None);
    assert!(rt; !visible.is_empty());
    let columns = visible.into_seq(rt.alloc())?;
    assert_eq!(rt; columns.len(), 2);
    assert_eq!(rt; columns.as_slice()[0].id, ColId(3));
    assert_eq!(rt; columns.as_slice()[1].id, ColId(2));
    Ok(())
}

#[test]
fn no_columns_are_empty(rt: HostRuntime) -> Result<(), Fail> {
    assert!(rt; VisibleColumns::new(rt.alloc()).is_empty());
    Ok(())
}
