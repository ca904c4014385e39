ghost use Rattle.std.specs.Prelude.{◌≡◌, ◌≤◌, ◌++◌, [], ◌∷◌, map, length, IfOk, OnOk};
ghost use Rattle.name_rules.specs.NameRules.{at_places};
ghost use Rattle.query_semantics.specs.Writings.{put_visible, visible_names};
ghost use Rattle.query_semantics.specs.Written.{numbered_from, scan_column};
ghost use Rattle.visible_columns.specs.Columns.{shown_of};
ghost use Rattle.plan_writing.specs.Writings.{joined, shown_under};

use esql_plan::{OutColumn, ScanColumn};
use esql_types::{ColId, Column, Kind, Seq, Text};
use name_rules::Renamed;
use std::alloc::{AllocError, Global};
use visible_columns::{Shown, VisibleColumns};

/// Columns, with their names apart: the name and the rest of each stand at the same place.
#[derive(Drop)]
pub struct Apart {
    pub names: Seq<Text>,
    pub shown: Seq<Shown>,
}

/// The columns that can be seen with one in the place of that of its name, at the end.
pub fn put_visible(
    alloc: Global,
    visible: VisibleColumns,
    name: Text,
    kind: Kind,
    number: u32,
) -> Result<VisibleColumns, AllocError>
    ensures { IfOk result (λ new. new ≡ put_visible visible name kind number) }
{
    let id = ColId(number);
    visible.put(alloc, OutColumn { name, kind, id })
}

/// Columns under numbers in turn.
pub fn numbered(alloc: Global, columns: Seq<Column>) -> Result<Seq<OutColumn>, AllocError>
    requires { length columns ≤ 4294967295 }
    ensures { IfOk result (λ visible. visible ≡ numbered_from 0 columns) }
{
    let mut visible = Seq::new(alloc);
    let mut number = 0;
    for column in columns.into_vec() {
        let Column { name, kind } = column;
        let id = ColId(number);
        visible.push(OutColumn { name, kind, id })?;
        number += 1;
    }
    Ok(visible)
}

/// The columns that are read of tables.
pub fn scan_columns(alloc: Global, visible: &[OutColumn]) -> Result<Seq<ScanColumn>, AllocError>
    ensures { IfOk result (λ columns. columns ≡ map scan_column visible.now) }
{
    let mut columns = Seq::new(alloc);
    for column in visible {
        columns.push(ScanColumn {
            name: column.name.copy()?,
            kind: column.kind,
            to: column.id,
        })?;
    }
    Ok(columns)
}

/// The columns that can be seen, with their names apart.
pub fn names_apart(alloc: Global, visible: VisibleColumns) -> Result<Apart, AllocError>
    ensures names { IfOk result (λ apart. apart.names ≡ visible_names visible) }
    ensures shown { IfOk result (λ apart. apart.shown ≡ map shown_of visible) }
{
    let mut names = Seq::new(alloc);
    let mut shown = Seq::new(alloc);
    for column in visible.into_seq(alloc)?.into_vec() {
        let OutColumn { name, kind, id } = column;
        names.push(name)?;
        shown.push(Shown { kind, id })?;
    }
    Ok(Apart { names, shown })
}

#[tactic(auto, using(crate::proofs::Parted::joined_get))]
fn push_at(visible: &mut Seq<OutColumn>, apart: &Apart, place: u32) -> Result<(), AllocError>
    ensures { OnOk result (visible.new ≡ visible.old ++ at_places (place ∷ []) (joined apart.now.names apart.now.shown)) }
{
    match apart.names.at(place as usize) {
        None => Ok(()),
        Some(name) => match apart.shown.at(place as usize) {
            None => Ok(()),
            Some(shown) => visible.push(OutColumn {
                name: name.copy()?,
                kind: shown.kind,
                id: shown.id,
            }),
        },
    }
}

/// The columns at places, one after another; a place behind the last column gives none.
#[tactic(auto, using(crate::proofs::Parted::at_taken))]
pub fn columns_at(
    alloc: Global,
    apart: &Apart,
    places: &[u32],
) -> Result<VisibleColumns, AllocError>
    ensures { IfOk result (λ visible. visible ≡ at_places places.now (joined apart.now.names apart.now.shown)) }
{
    let mut visible = Seq::new(alloc);
    for place in places {
        push_at(&mut visible, apart, *place)?;
    }
    VisibleColumns::from_seq(alloc, visible)
}

fn push_renamed(
    visible: &mut Seq<OutColumn>,
    shown: &Seq<Shown>,
    renamed: Renamed,
) -> Result<(), AllocError>
    ensures { OnOk result (visible.new ≡ visible.old ++ shown_under (renamed ∷ []) shown.now) }
{
    let Renamed { name, place } = renamed;
    if let Some(shown) = shown.at(place as usize) {
        visible.push(OutColumn {
            name,
            kind: shown.kind,
            id: shown.id,
        })?;
    }
    Ok(())
}

/// The columns at places, under new names; a place behind the last column gives none.
pub fn columns_renamed(
    alloc: Global,
    shown: &Seq<Shown>,
    renamed: Seq<Renamed>,
) -> Result<VisibleColumns, AllocError>
    ensures { IfOk result (λ visible. visible ≡ shown_under renamed shown.now) }
{
    let mut visible = Seq::new(alloc);
    for one in renamed.into_vec() {
        push_renamed(&mut visible, shown, one)?;
    }
    VisibleColumns::from_seq(alloc, visible)
}
