ghost use Rattle.std.specs.Prelude.{◌≡◌, ◌+◌, ◌≤◌, ◌<◌, ◌^◌, [], ◌∷◌, ◌++◌, length, map, IfOk, IfSome, OnOk};
ghost use Rattle.std.specs.Option.{option_copied};
ghost use Rattle.std.specs.List.{flat_map};
ghost use Rattle.row_semantics.specs.Scopes.{column_named};
ghost use Rattle.row_semantics.specs.Sources.{number_of_table, table_named};
ghost use Rattle.source_columns.specs.Index.{IsIndex};
ghost use Rattle.lookup_join.specs.Extended.{extended_catalog, extended_rows, pair_policies, placed_rows, policy_on, row_policies, rows_named, shapes_named};
ghost use Rattle.lookup_join.specs.Placed.{placed_shape};

use crate::index::{Index, index_of};
use crate::joins::{JoinAt, joins_of, pairs_of_joins, tables_of_joins};
use crate::placed::{copy_shape, key_policy, placed_shape, row_policy, with_places};
use esql_ast::Query;
use esql_plan::{Catalog, PolicyShape, TableShape};
use esql_types::{Column, Seq, Text};
use ndjson_load::Table;
use std::alloc::{AllocError, Global};

/// The catalog that a query with LOOKUP JOIN is judged by: behind its tables each joined one with the places of its rows, and
/// behind its policies those that find the rows of these tables by their places, and by the columns that they are joined on.
///
/// What was there keeps its number.
pub fn extend_catalog(alloc: Global, query: &Query, catalog: Catalog) -> Result<Catalog, AllocError>
    requires { length catalog.tables + length query.now.commands < 2 ^ 32 }
    ensures { IfOk result (λ extended. extended ≡ extended_catalog query.now catalog) }
{
    let joins = joins_of(alloc, query)?;
    let names = tables_of_joins(alloc, joins.as_slice())?;
    let pairs = pairs_of_joins(alloc, joins.as_slice())?;
    let Catalog { tables, policies } = catalog;
    let shapes = shapes_named(alloc, tables.as_slice(), names.as_slice())?;
    let number = tables.len();
    let mut tables = tables;
    let mut policies = policies;
    push_row_policies(alloc, number, shapes.as_slice(), &mut policies)?;
    push_pairs(
        alloc,
        number,
        shapes.as_slice(),
        pairs.as_slice(),
        &mut policies,
    )?;
    push_shapes(alloc, shapes.as_slice(), &mut tables)?;
    Ok(Catalog { tables, policies })
}

/// The rows of the tables of the extended catalog, where each table of the catalog has the rows of its number: behind these,
/// those of each joined table once more, with their places.
///
/// The cells of a joined table are copied once, however often it is joined.
pub fn extend_tables(
    alloc: Global,
    query: &Query,
    catalog: &Catalog,
    tables: Seq<Table>,
) -> Result<Seq<Table>, AllocError>
    requires { length catalog.now.tables ≡ length tables }
    ensures { IfOk result (λ extended. extended ≡ extended_rows query.now catalog.now.tables tables) }
{
    let joins = joins_of(alloc, query)?;
    let names = tables_of_joins(alloc, joins.as_slice())?;
    let placed = placed_rows(
        alloc,
        catalog.tables.as_slice(),
        tables.as_slice(),
        names.as_slice(),
    )?;
    let mut tables = tables;
    for table in placed.into_vec() {
        tables.push(table)?;
    }
    Ok(tables)
}

fn place_named(index: &Index<'_>, tables: &[TableShape], name: &str) -> Option<usize>
    requires { IsIndex tables.now index.now }
    ensures number { result ≡ number_of_table tables.now name.now }
    ensures below { IfSome result (λ place. place < length tables.now) }
{
    index.get(name).copied()
}

fn shape_named<'a>(
    index: &Index<'_>,
    tables: &'a [TableShape],
    name: &str,
) -> Option<&'a TableShape>
    requires { IsIndex tables.now index.now }
    ensures { option_copied result ≡ table_named tables.now name.now }
{
    match place_named(index, tables, name) {
        Some(place) => tables.get(place),
        None => None,
    }
}

/// The first table of each of the names that is there.
fn shapes_named(
    alloc: Global,
    tables: &[TableShape],
    names: &[Text],
) -> Result<Seq<TableShape>, AllocError>
    ensures { IfOk result (λ shapes. shapes ≡ shapes_named tables.now names.now) }
{
    let index = index_of(alloc, tables)?;
    let mut shapes = Seq::new(alloc);
    for name in names {
        push_named(alloc, &index, tables, name.as_str(), &mut shapes)?;
    }
    Ok(shapes)
}

fn push_named(
    alloc: Global,
    index: &Index<'_>,
    tables: &[TableShape],
    name: &str,
    shapes: &mut Seq<TableShape>,
) -> Result<(), AllocError>
    requires { IsIndex tables.now index.now }
    ensures { OnOk result (shapes.new ≡ shapes.old ++ shapes_named tables.now (name.now ∷ [])) }
{
    match shape_named(index, tables, name) {
        Some(shape) => shapes.push(copy_shape(alloc, shape)?),
        None => Ok(()),
    }
}

fn push_shapes(
    alloc: Global,
    shapes: &[TableShape],
    tables: &mut Seq<TableShape>,
) -> Result<(), AllocError>
    ensures { OnOk result (tables.new ≡ tables.old ++ map placed_shape shapes.now) }
{
    for shape in shapes {
        tables.push(placed_shape(alloc, shape)?)?;
    }
    Ok(())
}

fn push_row_policies(
    alloc: Global,
    number: usize,
    shapes: &[TableShape],
    policies: &mut Seq<PolicyShape>,
) -> Result<(), AllocError>
    requires { number + length shapes.now ≤ 2 ^ 32 }
    ensures { OnOk result (policies.new ≡ policies.old ++ row_policies number shapes.now) }
{
    for (place, shape) in shapes.iter().enumerate() {
        policies.push(row_policy(alloc, (number + place) as u32, shape)?)?;
    }
    Ok(())
}

fn push_pairs(
    alloc: Global,
    number: usize,
    shapes: &[TableShape],
    pairs: &[JoinAt],
    policies: &mut Seq<PolicyShape>,
) -> Result<(), AllocError>
    requires { number + length shapes.now ≤ 2 ^ 32 }
    ensures { OnOk result (policies.new ≡ policies.old ++ flat_map (pair_policies number shapes.now) pairs.now) }
{
    let index = index_of(alloc, shapes)?;
    for pair in pairs {
        push_pair(alloc, number, shapes, &index, pair, policies)?;
    }
    Ok(())
}

fn push_pair(
    alloc: Global,
    number: usize,
    shapes: &[TableShape],
    index: &Index<'_>,
    pair: &JoinAt,
    policies: &mut Seq<PolicyShape>,
) -> Result<(), AllocError>
    requires room { number + length shapes.now ≤ 2 ^ 32 }
    requires index { IsIndex shapes.now index.now }
    ensures { OnOk result (policies.new ≡ policies.old ++ pair_policies number shapes.now pair.now) }
{
    match place_named(index, shapes, pair.table.as_str()) {
        Some(place) => push_on(
            alloc,
            (number + place) as u32,
            &shapes[place],
            pair.column.as_str(),
            policies,
        ),
        None => Ok(()),
    }
}

fn push_on(
    alloc: Global,
    number: u32,
    shape: &TableShape,
    name: &str,
    policies: &mut Seq<PolicyShape>,
) -> Result<(), AllocError>
    ensures { OnOk result (policies.new ≡ policies.old ++ policy_on number shape.now (column_named shape.now.columns name.now)) }
{
    match column_named(shape.columns.as_slice(), name) {
        Some(column) => policies.push(key_policy(alloc, number, shape, column)?),
        None => Ok(()),
    }
}

fn column_named<'a>(columns: &'a [Column], name: &str) -> Option<&'a Column>
    ensures { option_copied result ≡ column_named columns.now name.now }
{
    for column in columns {
        if column.name.as_str() == name {
            return Some(column);
        }
    }
    None
}

fn table_named<'a>(
    index: &Index<'_>,
    shapes: &[TableShape],
    tables: &'a [Table],
    name: &str,
) -> Option<&'a Table>
    requires many { length shapes.now ≡ length tables.now }
    requires index { IsIndex shapes.now index.now }
    ensures { option_copied result ≡ rows_named shapes.now tables.now name.now }
{
    match place_named(index, shapes, name) {
        Some(place) => tables.get(place),
        None => None,
    }
}

/// The rows of the first table of each of the names that is there, with their places.
fn placed_rows(
    alloc: Global,
    shapes: &[TableShape],
    tables: &[Table],
    names: &[Text],
) -> Result<Seq<Table>, AllocError>
    requires { length shapes.now ≡ length tables.now }
    ensures { IfOk result (λ placed. placed ≡ placed_rows shapes.now tables.now names.now) }
{
    let index = index_of(alloc, shapes)?;
    let mut placed = Seq::new(alloc);
    for name in names {
        push_rows(alloc, shapes, tables, &index, name.as_str(), &mut placed)?;
    }
    Ok(placed)
}

fn push_rows(
    alloc: Global,
    shapes: &[TableShape],
    tables: &[Table],
    index: &Index<'_>,
    name: &str,
    placed: &mut Seq<Table>,
) -> Result<(), AllocError>
    requires many { length shapes.now ≡ length tables.now }
    requires index { IsIndex shapes.now index.now }
    ensures { OnOk result (placed.new ≡ placed.old ++ placed_rows shapes.now tables.now (name.now ∷ [])) }
{
    match table_named(index, shapes, tables, name) {
        Some(table) => placed.push(with_places(alloc, table.as_slice())?),
        None => Ok(()),
    }
}
