//! The tables of a query: as they are found, and as they are handed on.
ghost use Rattle.std.specs.Prelude.{◌≡◌, map, IfOk};
ghost use Rattle.table_files.specs.Found.{table_in};

use esql_plan::Catalog;
use esql_types::{Seq, Span, Text};
use ndjson_load::{MappedColumn, Table};
use std::alloc::{AllocError, Global};

/// A table that was found: its name, where that stands first in the query, and its columns.
///
/// The name of a table that only a policy has stands at the policy's name.
#[derive(Drop)]
pub struct FoundTable {
    pub name: Text,
    pub span: Span,
    pub policy: bool,
    pub columns: Seq<MappedColumn>,
}

/// Where the rows of a table come from.
///
/// So far from a row file alone; page files and the tables of joins come as further variants.
#[derive(Drop)]
pub enum TableSource {
    /// The row file of a table that was found.
    Rows(FoundTable),
}

/// The catalog of a query, and a source for each of its tables, in its order.
#[derive(Drop)]
pub struct Gathered {
    pub catalog: Catalog,
    pub sources: Seq<TableSource>,
}

/// The catalog of a query, and the rows of each of its tables, in its order.
#[derive(Drop)]
pub struct Loaded {
    pub catalog: Catalog,
    pub tables: Seq<Table>,
}

/// The sources of tables that were found.
pub(crate) fn sources_of(
    alloc: Global,
    founds: Seq<FoundTable>,
) -> Result<Seq<TableSource>, AllocError>
    ensures { IfOk result (λ sources. map table_in sources ≡ founds) }
{
    let mut sources = Seq::new(alloc);
    for found in founds.into_vec() {
        sources.push(TableSource::Rows(found))?;
    }
    Ok(sources)
}
