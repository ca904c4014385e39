//! Lists that are filled item by item.
ghost use Rattle.std.specs.Prelude.{◌≡◌, [], Some, IfOk, OnOk, replicate};
ghost use Rattle.dissect_grok.specs.Numbered.{put_at};

use esql_types::Seq;
use std::alloc::{AllocError, Global};

/// So many empty lists.
pub(crate) fn empty_lists<Item: Drop>(
    alloc: Global,
    count: usize,
) -> Result<Vec<Seq<Item>>, AllocError>
    ensures { IfOk result (λ lists. lists.items ≡ replicate count []) }
{
    let mut lists = Vec::new(alloc);
    for _ in 0..count {
        lists.push(Seq::new(alloc))?;
    }
    Ok(lists)
}

/// Adds an item to the list of a number, if there is one.
pub(crate) fn add_at<Item: Drop>(
    lists: &mut Vec<Seq<Item>>,
    number: usize,
    item: Item,
) -> Result<(), AllocError>
    ensures { OnOk result (lists.new.items ≡ put_at (Some number) lists.old.items item) }
{
    match lists.get_mut(number) {
        Some(list) => list.push(item),
        None => Ok(()),
    }
}
