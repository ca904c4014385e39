ghost use Rattle.std.specs.Prelude.{◌≡◌, ◌≤◌, ◌+◌, length, IfOk};
ghost use Rattle.query_semantics.specs.WrittenAppended.{put_new, new_columns};

use esql_plan::NewColumn;
use esql_types::{ColId, Column, Seq};
use plan_writing::{Writing, put_visible};
use std::alloc::{AllocError, Global};
use visible_columns::VisibleColumns;

/// A plan whose columns that can be seen have new ones, which the next step is to make.
#[derive(Drop)]
pub(crate) struct Appended {
    pub(crate) writing: Writing,
    pub(crate) to: Seq<NewColumn>,
}

// The columns that can be seen with new ones in the places of those of their names, at the end, under numbers in turn.
fn put_new(
    alloc: Global,
    visible: VisibleColumns,
    columns: Seq<Column>,
    next: u32,
) -> Result<VisibleColumns, AllocError>
    requires { next + length columns ≤ 4294967295 }
    ensures { IfOk result (λ new. new ≡ put_new visible columns next) }
{
    let mut visible = visible;
    let mut number = next;
    for column in columns.into_vec() {
        let Column { name, kind } = column;
        visible = put_visible(alloc, visible, name, kind, number)?;
        number += 1;
    }
    Ok(visible)
}

fn new_columns(alloc: Global, columns: &[Column], next: u32) -> Result<Seq<NewColumn>, AllocError>
    requires { next + length columns.now ≤ 4294967295 }
    ensures { IfOk result (λ made. made ≡ new_columns next columns.now) }
{
    let mut made = Seq::new(alloc);
    let mut number = next;
    for column in columns {
        made.push(NewColumn {
            id: ColId(number),
            kind: column.kind,
        })?;
        number += 1;
    }
    Ok(made)
}

/// New columns under the next numbers.
pub(crate) fn append(
    alloc: Global,
    writing: Writing,
    columns: Seq<Column>,
) -> Result<Appended, AllocError>
    requires { writing.next + length columns ≤ 4294967295 }
    ensures visible { IfOk result (λ made. made.writing.visible ≡ put_new writing.visible columns writing.next) }
    ensures next { IfOk result (λ made. made.writing.next ≡ writing.next + length columns) }
    ensures patterns { IfOk result (λ made. made.writing.patterns ≡ writing.patterns) }
    ensures cutters { IfOk result (λ made. made.writing.cutters ≡ writing.cutters) }
    ensures steps { IfOk result (λ made. made.writing.steps ≡ writing.steps) }
    ensures to { IfOk result (λ made. made.to ≡ new_columns writing.next columns) }
{
    let Writing {
        visible,
        next,
        patterns,
        cutters,
        steps,
    } = writing;
    let to = new_columns(alloc, columns.as_slice(), next)?;
    let count = columns.len() as u32;
    let visible = put_new(alloc, visible, columns, next)?;
    let writing = Writing {
        visible,
        next: next + count,
        patterns,
        cutters,
        steps,
    };
    Ok(Appended { writing, to })
}
