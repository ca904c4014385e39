//! The columns of a pattern of GROK.
ghost use Rattle.std.specs.Prelude.{◌≡◌, ◌==◌, ◌&&◌, not, length, IfOk, OnOk};
ghost use Rattle.std.specs.List.{list_all, list_any};
ghost use Rattle.std.specs.Str.{bytes_eq};
ghost use Rattle.dissect_grok.specs.Groks as spec;
ghost use Rattle.esql_types.specs.declared.names.Column.{Column};

use crate::place::Place;
use esql_types::{Column, Kind, Seq};
use std::alloc::{AllocError, Global};

fn same_kind(kind: Kind, other: Kind) -> bool
    ensures { result ≡ spec.same_kind kind other }
{
    kind as u8 == other as u8
}

fn is_column(name: &str, column: &Column) -> bool
    ensures { result ≡ bytes_eq name.now column.now.name }
{
    name == column.name.as_str()
}

fn has_column(name: &str, columns: &[Column]) -> bool
    ensures { result ≡ list_any (λ (column : Column). bytes_eq name.now column.name) columns.now }
{
    columns.iter().any(|column| is_column(name, column))
}

fn add_column(columns: &mut Seq<Column>, place: &Place) -> Result<(), AllocError>
    ensures { OnOk result (columns.new ≡ spec.with_column columns.old place.now) }
{
    if !has_column(place.name.as_str(), columns.as_slice()) {
        columns.push(Column {
            name: place.name.copy()?,
            kind: place.kind,
        })?;
    }
    Ok(())
}

/// A column for each name, by its first place.
pub(crate) fn columns_of(alloc: Global, places: &[Place]) -> Result<Seq<Column>, AllocError>
    ensures { IfOk result (λ columns. columns ≡ spec.columns_of places.now) }
{
    let mut columns = Seq::new(alloc);
    for place in places {
        add_column(&mut columns, place)?;
    }
    Ok(columns)
}

fn fits(place: &Place, column: &Column) -> bool
    ensures { result ≡ spec.fits place.now column.now }
{
    !is_column(place.name.as_str(), column) || same_kind(place.kind, column.kind)
}

fn fits_each(place: &Place, columns: &[Column]) -> bool
    ensures { result ≡ list_all (spec.fits place.now) columns.now }
{
    columns.iter().all(|column| fits(place, column))
}

fn fit_each(places: &[Place], columns: &[Column]) -> bool
    ensures { result ≡ list_all (λ place. list_all (spec.fits place) columns.now) places.now }
{
    places.iter().all(|place| fits_each(place, columns))
}

/// Whether there is a place, and no name has two kinds.
pub(crate) fn are_good(alloc: Global, places: &[Place]) -> Result<bool, AllocError>
    ensures { IfOk result (λ good. good ≡ (not (length places.now == 0) && spec.have_one_kind places.now)) }
{
    let columns = columns_of(alloc, places)?;
    Ok(!places.is_empty() && fit_each(places, columns.as_slice()))
}
