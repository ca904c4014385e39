use crate::{generated_line, generated_rows, generated_shape};
use std::test::Fail;

#[test]
fn a_table_is_made(rt: HostRuntime) -> Result<(), Fail> {
    let alloc = rt.alloc();
    assert!(rt; generated_shape(alloc)?.columns.len() == 3);
    assert!(rt; generated_rows(alloc, 0, 1)?.len() == 1);
    assert!(rt; generated_line(alloc, 0, 1)?.as_str() == "generated 1 rows from 0\n");
    Ok(())
}
