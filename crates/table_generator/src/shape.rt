ghost use Rattle.std.specs.Prelude.{◌≡◌, IfOk};
ghost use Rattle.table_generator.specs.Tables.{generated_shape};

use esql_plan::TableShape;
use esql_types::{Column, Kind, Seq, Text};
use std::alloc::{AllocError, Global};

/// The name and the columns of the table: `gen` with dept (keyword), id (long) and pay (integer).
pub fn generated_shape(alloc: Global) -> Result<TableShape, AllocError>
    ensures { IfOk result (λ shape. shape ≡ generated_shape) }
{
    let mut columns = Seq::new(alloc);
    columns.push(column(alloc, "dept", Kind::Keyword)?)?;
    columns.push(column(alloc, "id", Kind::Long)?)?;
    columns.push(column(alloc, "pay", Kind::Integer)?)?;
    Ok(TableShape {
        name: Text::from_str(alloc, "gen")?,
        columns,
    })
}

fn column(alloc: Global, name: &str, kind: Kind) -> Result<Column, AllocError>
    ensures { IfOk result (λ column. column ≡ record { name = name.now; kind = kind }) }
{
    Ok(Column {
        name: Text::from_str(alloc, name)?,
        kind,
    })
}
