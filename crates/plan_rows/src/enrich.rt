//! ENRICH: the fields of a policy in the rows that match a column.
ghost use Rattle.std.specs.Prelude.{◌≡◌, ◌++◌, [], ℕ, List, Some, length, map, IfOk, OnOk, slice_get};
ghost use Rattle.std.specs.BTreeMap.{get_by};
ghost use Rattle.std.specs.Cmp.Lexicographic.{slice_cmp};
ghost use Rattle.std.specs.List.{flat_map};
ghost use Rattle.std.specs.Ordering.{nat_cmp};
ghost use Rattle.esql_scalar.specs.Rows.{row_of};
ghost use Rattle.enrich_match.specs.Matches.{MatchRow, matched_cell};
ghost use Rattle.plan_semantics.specs.Taken.{match_row, match_rows, rows_of_policy};
ghost use Rattle.esql_plan.specs.declared.catalog.PolicyShape.{PolicyShape as Policy};
ghost use Rattle.plan_rows.specs.Held.{tables_held};
ghost use Rattle.plan_rows.specs.Kept.{kept_enriched};
ghost use Rattle.plan_rows.specs.Places.{place_from, cell_in, cells_in};

use crate::cuts::put_new;
use crate::source::{cell_in, cells_in, place_named, places_by_name, table_at};
use enrich_match::Lookup;
use esql_plan::{Catalog, NewColumn, PolicyShape};
use esql_types::{Cell, ColId, Column, Seq};
use ndjson_load::Table;
use std::alloc::{AllocError, Global};
use std::collections::BTreeMap;

/// The policy of a number.
pub(crate) fn policy_at(catalog: &Catalog, number: u32) -> &PolicyShape
    requires { (policy : Policy) × (slice_get catalog.now.policies number ≡ Some policy) }
    ensures { slice_get catalog.now.policies number ≡ Some result.now }
{
    match catalog.policies.at(number as usize) {
        Some(policy) => policy,
        None => unreachable!(),
    }
}

/// The rows of the tables of a policy, found by their match field.
pub(crate) fn lookup_of(
    alloc: Global,
    policy: &PolicyShape,
    catalog: &Catalog,
    tables: &[Table],
) -> Result<Lookup, AllocError>
    ensures { IfOk result (λ lookup. lookup.rows ≡ rows_of_policy (tables_held catalog.now tables.now).tables policy.now) }
{
    let mut lookup = Lookup::new(alloc, 0);
    for number in policy.tables.as_slice() {
        add_table(
            alloc,
            policy,
            *number as usize,
            catalog,
            tables,
            &mut lookup,
        )?;
    }
    Ok(lookup)
}

/// Adds the rows of the table of a number, which has none where it is not there.
fn add_table(
    alloc: Global,
    policy: &PolicyShape,
    number: usize,
    catalog: &Catalog,
    tables: &[Table],
    lookup: &mut Lookup,
) -> Result<(), AllocError>
    ensures { OnOk result (lookup.new.rows ≡ lookup.old.rows ++ match_rows policy.now (slice_get (tables_held catalog.now tables.now).tables number)) }
{
    match (catalog.tables.at(number), table_at(tables, number)) {
        (Some(shape), Some(table)) => {
            let columns = shape.columns.as_slice();
            add_rows(alloc, policy, columns, table.as_slice(), lookup)
        }
        (Some(_), None) => Ok(()),
        (None, _) => Ok(()),
    }
}

/// Adds rows with cells of these columns.
fn add_rows(
    alloc: Global,
    policy: &PolicyShape,
    columns: &[Column],
    table: &[Seq<Cell>],
    lookup: &mut Lookup,
) -> Result<(), AllocError>
    ensures { OnOk result (lookup.new.rows ≡ lookup.old.rows ++ map (match_row policy.now columns.now) table.now) }
{
    let named = places_by_name(alloc, columns)?;
    let key = place_named(&named, &policy.match_field.name);
    let places = field_places(alloc, &named, policy.fields.as_slice())?;
    for row in table {
        let cell = cell_in(alloc, row, key)?;
        let cells = cells_in(alloc, places.as_slice(), 0, row)?;
        lookup.add(&cell, cells.as_slice())?;
    }
    Ok(())
}

/// The places of fields in the rows of a table; a field that the table lacks has none.
fn field_places(
    alloc: Global,
    named: &BTreeMap<&str, usize>,
    fields: &[Column],
) -> Result<Seq<Option<usize>>, AllocError>
    ensures { IfOk result (λ places. places ≡ map (λ field. get_by (λ key. slice_cmp nat_cmp field.name key.now) named.now) fields.now) }
{
    let mut places = Seq::new(alloc);
    for field in fields {
        places.push(place_named(named, &field.name))?;
    }
    Ok(places)
}

/// Puts the fields of the rows that match a column into new columns of each row.
pub(crate) fn enrich_rows(
    alloc: Global,
    on: ColId,
    fields: &[u32],
    lookup: &Lookup,
    to: &[NewColumn],
    rows: Seq<Seq<Cell>>,
) -> Result<Seq<Seq<Cell>>, AllocError>
    ensures { IfOk result (λ new. new ≡ flat_map (kept_enriched (λ cell. map (matched_cell lookup.now.rows cell) fields.now) on to.now) rows) }
{
    let mut new = Seq::new(alloc);
    for row in rows.into_vec() {
        let cells = enrich_row(alloc, on, fields, lookup, &row)?;
        new.push(put_new(alloc, row, to, cells)?)?;
    }
    Ok(new)
}

/// The fields of the rows that match a row's cell of a column.
fn enrich_row(
    alloc: Global,
    on: ColId,
    fields: &[u32],
    lookup: &Lookup,
    row: &Seq<Cell>,
) -> Result<Seq<Cell>, AllocError>
    ensures { IfOk result (λ cells. cells ≡ map (matched_cell lookup.now.rows (row_of row.now on.0)) fields.now) }
{
    match row.at(on.0 as usize) {
        Some(key) => fields_found(alloc, fields, lookup, key),
        None => fields_found(alloc, fields, lookup, &Cell::null(alloc)),
    }
}

fn fields_found(
    alloc: Global,
    fields: &[u32],
    lookup: &Lookup,
    key: &Cell,
) -> Result<Seq<Cell>, AllocError>
    ensures { IfOk result (λ cells. cells ≡ map (matched_cell lookup.now.rows key.now) fields.now) }
{
    let mut cells = Seq::new(alloc);
    for field in fields {
        cells.push(lookup.probe(alloc, key, *field)?)?;
    }
    Ok(cells)
}
