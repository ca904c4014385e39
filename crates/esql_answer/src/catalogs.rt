//! Copies of catalogs.
ghost use Rattle.std.specs.Prelude.{◌≡◌, IfOk};

use esql_plan::{Catalog, PolicyShape, TableShape};
use esql_types::{Column, Seq};
use std::alloc::{AllocError, Global};

/// A catalog that is equal to another.
pub fn copy_catalog(alloc: Global, catalog: &Catalog) -> Result<Catalog, AllocError>
    ensures { IfOk result (λ copy. copy ≡ catalog.now) }
{
    Ok(Catalog {
        tables: copy_tables(alloc, catalog.tables.as_slice())?,
        policies: copy_policies(alloc, catalog.policies.as_slice())?,
    })
}

fn copy_tables(alloc: Global, tables: &[TableShape]) -> Result<Seq<TableShape>, AllocError>
    ensures { IfOk result (λ copies. copies ≡ tables.now) }
{
    let mut copies = Seq::new(alloc);
    for table in tables {
        copies.push(copy_table(alloc, table)?)?;
    }
    Ok(copies)
}

fn copy_table(alloc: Global, table: &TableShape) -> Result<TableShape, AllocError>
    ensures { IfOk result (λ copy. copy ≡ table.now) }
{
    Ok(TableShape {
        name: table.name.copy()?,
        columns: copy_columns(alloc, table.columns.as_slice())?,
    })
}

fn copy_policies(alloc: Global, policies: &[PolicyShape]) -> Result<Seq<PolicyShape>, AllocError>
    ensures { IfOk result (λ copies. copies ≡ policies.now) }
{
    let mut copies = Seq::new(alloc);
    for policy in policies {
        copies.push(copy_policy(alloc, policy)?)?;
    }
    Ok(copies)
}

fn copy_policy(alloc: Global, policy: &PolicyShape) -> Result<PolicyShape, AllocError>
    ensures { IfOk result (λ copy. copy ≡ policy.now) }
{
    Ok(PolicyShape {
        name: policy.name.copy()?,
        tables: copy_numbers(alloc, policy.tables.as_slice())?,
        match_field: copy_column(&policy.match_field)?,
        fields: copy_columns(alloc, policy.fields.as_slice())?,
    })
}

fn copy_numbers(alloc: Global, numbers: &[u32]) -> Result<Seq<u32>, AllocError>
    ensures { IfOk result (λ copies. copies ≡ numbers.now) }
{
    let mut copies = Seq::new(alloc);
    for number in numbers {
        copies.push(*number)?;
    }
    Ok(copies)
}

fn copy_columns(alloc: Global, columns: &[Column]) -> Result<Seq<Column>, AllocError>
    ensures { IfOk result (λ copies. copies ≡ columns.now) }
{
    let mut copies = Seq::new(alloc);
    for column in columns {
        copies.push(copy_column(column)?)?;
    }
    Ok(copies)
}

fn copy_column(column: &Column) -> Result<Column, AllocError>
    ensures { IfOk result (λ copy. copy ≡ column.now) }
{
    Ok(Column {
        name: column.name.copy()?,
        kind: column.kind,
    })
}
