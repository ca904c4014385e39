ghost use Rattle.std.specs.Prelude.{◌≡◌, fold, IfOk, OnOk};
ghost use Rattle.std.specs.List.{list_any};
ghost use Rattle.esql_plan.specs.Signatures.{same_kind};
ghost use Rattle.row_semantics.specs.Sources as source;
ghost use Rattle.source_columns.specs.Gathered.{columns_in, AreOrdered};

use esql_types::{Column, Kind, Seq, Text};
use std::alloc::{AllocError, Global};
use std::collections::BTreeMap;

/// Columns: the kind of each name, in byte order of the names.
pub type Gathered<'a> = BTreeMap<&'a str, Kind>;

/// Adds columns; one of a name that is there stays.
pub fn add_columns<'a>(gathered: &mut Gathered<'a>, columns: &'a [Column]) -> Result<(), AllocError>
    requires { AreOrdered (columns_in gathered.old.entries) }
    ensures { OnOk result (columns_in gathered.new.entries ≡ fold source.with_column (columns_in gathered.old.entries) columns.now) }
{
    for column in columns {
        add_column(gathered, column)?;
    }
    Ok(())
}

fn add_column<'a>(gathered: &mut Gathered<'a>, column: &'a Column) -> Result<(), AllocError>
    requires { AreOrdered (columns_in gathered.old.entries) }
    ensures { OnOk result (columns_in gathered.new.entries ≡ source.with_column (columns_in gathered.old.entries) column.now) }
{
    let name = column.name.as_str();
    if !gathered.contains_key(name) {
        gathered.insert(name, column.kind)?;
    }
    Ok(())
}

/// Whether one of the columns has a name that is there with another kind.
pub fn has_clash(gathered: &Gathered<'_>, columns: &[Column]) -> bool
    requires { AreOrdered (columns_in gathered.now.entries) }
    ensures { result ≡ list_any (source.clashes (columns_in gathered.now.entries)) columns.now }
{
    columns.iter().any(|column| clashes(gathered, column))
}

fn clashes(gathered: &Gathered<'_>, column: &Column) -> bool
    requires { AreOrdered (columns_in gathered.now.entries) }
    ensures { result ≡ source.clashes (columns_in gathered.now.entries) column.now }
{
    match gathered.get(column.name.as_str()) {
        Some(kind) => !is_same(*kind, column.kind),
        None => false,
    }
}

fn is_same(left: Kind, right: Kind) -> bool
    ensures { result ≡ same_kind left right }
{
    left as u8 == right as u8
}

/// The columns in byte order of their names.
pub fn columns_from(alloc: Global, gathered: &Gathered<'_>) -> Result<Seq<Column>, AllocError>
    ensures { IfOk result (λ columns. columns ≡ columns_in gathered.now.entries) }
{
    let mut columns = Seq::new(alloc);
    for (name, kind) in gathered {
        let name = Text::from_str(alloc, name)?;
        columns.push(Column { name, kind: *kind })?;
    }
    Ok(columns)
}
