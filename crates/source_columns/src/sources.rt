ghost use Rattle.std.specs.Prelude.{◌≡◌, ◌≤◌, length, Ok, Some, IfOk, IfErr, OnOk};
ghost use Rattle.row_semantics.specs.Sources as source;
ghost use Rattle.source_columns.specs.Gathered.{columns_in, AreOrdered};
ghost use Rattle.source_columns.specs.Index.{IsIndex, AreSmall, number_at};
ghost use Rattle.source_columns.specs.Numbers.{Holds};
ghost use Rattle.source_columns.specs.Refusals.{IsRefusal};
ghost use Rattle.source_columns.specs.Taken.{AreTaken, IsTaken, Puts};

use crate::SourceError;
use crate::gathered::{Gathered, add_columns, columns_from, has_clash};
use crate::index::{Index, index_of, table_of};
use esql_ast::NameAt;
use esql_plan::{Catalog, TableShape};
use esql_types::{Column, Seq};
use row_semantics::NameRule;
use std::alloc::{AllocError, Global};
use std::collections::{BTreeMap, BTreeSet};

/// The columns of the tables that FROM names, in byte order of their names, or the first rule that is broken, at the first name
/// that breaks one.
pub fn columns_of_tables(
    alloc: Global,
    catalog: &Catalog,
    names: &[NameAt],
) -> Result<Seq<Column>, SourceError>
    ensures columns { IfOk result (λ columns. source.columns_of_tables catalog.now.tables names.now ≡ Ok columns) }
    ensures broken { IfErr result (IsRefusal (source.columns_of_tables catalog.now.tables names.now)) }
{
    let tables = catalog.tables.as_slice();
    let index = index_of(alloc, tables)?;
    let mut taken = BTreeMap::new(alloc);
    let mut gathered = BTreeMap::new(alloc);
    for name in names {
        add_source(tables, &index, name, &mut taken, &mut gathered)?;
    }
    Ok(columns_from(alloc, &gathered)?)
}

// Which tables were taken, and whether each of their columns has the kind that its name has: such a table changes nothing
// where it is named again, and any other breaks the rule of kinds there.
type Taken<'a> = BTreeMap<&'a str, bool>;

fn add_source<'a>(
    tables: &'a [TableShape],
    index: &Index<'a>,
    name: &NameAt,
    taken: &mut Taken<'a>,
    gathered: &mut Gathered<'a>,
) -> Result<(), SourceError>
    requires index { IsIndex tables.now index.now }
    requires ordered { AreOrdered (columns_in gathered.old.entries) }
    requires taken { AreTaken tables.now (columns_in gathered.old.entries) taken.old }
    ensures added { OnOk result (source.with_table name.now (source.table_named tables.now name.now.name) (columns_in gathered.old.entries) ≡ Ok (columns_in gathered.new.entries)) }
    ensures taken { OnOk result (AreTaken tables.now (columns_in gathered.new.entries) taken.new) }
    ensures refused { IfErr result (IsRefusal (source.with_table name.now (source.table_named tables.now name.now.name) (columns_in gathered.old.entries))) }
{
    match taken.get(name.name.as_str()) {
        Some(true) => Ok(()),
        Some(false) => Err(broken(name, NameRule::BadKind)),
        None => match table_of(tables, index, name.name.as_str()) {
            Some(table) => {
                let agrees = add_table(name, table, gathered)?;
                note_taken(taken, table.name.as_str(), agrees)?;
                Ok(())
            }
            None => Err(broken(name, NameRule::UnknownTable)),
        },
    }
}

fn note_taken<'a>(taken: &mut Taken<'a>, name: &'a str, agrees: bool) -> Result<(), AllocError>
    ensures { OnOk result (Puts name.now agrees taken.old taken.new) }
{
    taken.insert(name, agrees)?;
    Ok(())
}

fn broken(name: &NameAt, rule: NameRule) -> SourceError
    ensures { result ≡ SourceError.Broken rule name.now.span }
{
    SourceError::Broken {
        rule,
        span: name.span,
    }
}

// Answers whether the columns of the table have the kinds that their names have then.
fn add_table<'a>(
    name: &NameAt,
    table: &'a TableShape,
    gathered: &mut Gathered<'a>,
) -> Result<bool, SourceError>
    requires { AreOrdered (columns_in gathered.old.entries) }
    ensures added { OnOk result (source.with_table name.now (Some table.now) (columns_in gathered.old.entries) ≡ Ok (columns_in gathered.new.entries)) }
    ensures taken { IfOk result (IsTaken (columns_in gathered.new.entries) (Some table.now)) }
    ensures refused { IfErr result (IsRefusal (source.with_table name.now (Some table.now) (columns_in gathered.old.entries))) }
{
    let columns = table.columns.as_slice();
    if has_clash(gathered, columns) {
        return Err(broken(name, NameRule::BadKind));
    }
    add_columns(gathered, columns)?;
    Ok(!has_clash(gathered, columns))
}

/// The numbers in the catalog of the tables of names, each once, at its first place.
pub fn tables_named(
    alloc: Global,
    catalog: &Catalog,
    names: &[NameAt],
) -> Result<Seq<u32>, AllocError>
    requires { length catalog.now.tables ≤ 4294967295 }
    ensures { IfOk result (λ numbers. numbers ≡ source.tables_named catalog.now.tables names.now) }
{
    let tables = catalog.tables.as_slice();
    let index = index_of(alloc, tables)?;
    let mut seen = BTreeSet::new(alloc);
    let mut numbers = Seq::new(alloc);
    for name in names {
        add_named(&index, name, &mut seen, &mut numbers)?;
    }
    Ok(numbers)
}

fn add_named(
    index: &Index<'_>,
    name: &NameAt,
    seen: &mut BTreeSet<u32>,
    numbers: &mut Seq<u32>,
) -> Result<(), AllocError>
    requires few { AreSmall index.now }
    requires seen { Holds seen.old numbers.old }
    ensures numbers { OnOk result (numbers.new ≡ source.with_number numbers.old (number_at index.now name.now.name)) }
    ensures seen { OnOk result (Holds seen.new numbers.new) }
{
    match index.get(name.name.as_str()) {
        Some(number) => add_number(*number as u32, seen, numbers),
        None => Ok(()),
    }
}

fn add_number(
    number: u32,
    seen: &mut BTreeSet<u32>,
    numbers: &mut Seq<u32>,
) -> Result<(), AllocError>
    requires { Holds seen.old numbers.old }
    ensures numbers { OnOk result (numbers.new ≡ source.with_number numbers.old (Some number)) }
    ensures seen { OnOk result (Holds seen.new numbers.new) }
{
    if seen.insert(number)? {
        numbers.push(number)?;
    }
    Ok(())
}
