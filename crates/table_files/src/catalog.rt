//! The catalog that tables and policies make.
ghost use Rattle.std.specs.Prelude.{◌≡◌, map, IfOk};
ghost use Rattle.table_files.specs.Catalogs.{columns_of, shape_of};

use crate::tables::FoundTable;
use esql_plan::TableShape;
use esql_types::{Column, Seq};
use ndjson_load::MappedColumn;
use std::alloc::{AllocError, Global};

/// The shapes of tables that were found: each with its name and its columns, in order.
pub(crate) fn shapes_of(alloc: Global, founds: &[FoundTable]) -> Result<Seq<TableShape>, AllocError>
    ensures { IfOk result (λ shapes. shapes ≡ map shape_of founds.now) }
{
    let mut tables = Seq::new(alloc);
    for found in founds {
        tables.push(shape_of(alloc, found)?)?;
    }
    Ok(tables)
}

fn shape_of(alloc: Global, found: &FoundTable) -> Result<TableShape, AllocError>
    ensures { IfOk result (λ shape. shape ≡ shape_of found.now) }
{
    Ok(TableShape {
        name: found.name.copy()?,
        columns: columns_of(alloc, found.columns.as_slice())?,
    })
}

fn columns_of(alloc: Global, columns: &[MappedColumn]) -> Result<Seq<Column>, AllocError>
    ensures { IfOk result (λ copies. copies ≡ columns_of columns.now) }
{
    let mut copies = Seq::new(alloc);
    for mapped in columns {
        copies.push(Column {
            name: mapped.column.name.copy()?,
            kind: mapped.column.kind,
        })?;
    }
    Ok(copies)
}
