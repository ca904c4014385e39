ghost use Rattle.std.specs.Prelude.{◌≡◌, [], ◌∷◌, ◌++◌, map, IfOk, OnOk};
ghost use Rattle.std.specs.Option.{option_copied, option_map};
ghost use Rattle.row_semantics.specs.Typed.{visible_named};
ghost use Rattle.visible_columns.specs.Columns.{is_empty, renumbered, shown_of, with_last};
ghost use Rattle.visible_columns.specs.Slots.{seen_by, numbered_by};

use crate::names::{Known, Names, names_of, put_name};
use esql_plan::OutColumn;
use esql_types::{ColId, Kind, Seq};
use std::alloc::{AllocError, Global};
use std::collections::BTreeMap;
use std::marker::Model;

/// A column that can be seen, without its name.
#[derive(Clone, Copy, Debug, PartialEq, Eq)]
pub struct Shown {
    pub kind: Kind,
    pub id: ColId,
}

/// The columns that can be seen, which contracts see as their list.
///
/// A column whose name another column took stays in its slot, where it is seen no more.
#[derive(Drop)]
pub struct VisibleColumns {
    slots: Seq<OutColumn>,
    names: Names,
}

impl Model for VisibleColumns {
    ghost use Rattle.std.specs.Prelude.{List};
    ghost use Rattle.std.specs.BTreeMap.{get_by_text};
    ghost use Rattle.esql_plan.specs.declared.plan.OutColumn.{OutColumn as Column};
    ghost use Rattle.visible_columns.specs.Slots.{slots_seen, AreStanding};

    ghost Value = { List Column };

    ghost view = { λ it. slots_seen (get_by_text it.names) 0 it.slots };

    ghost invariant = { λ it. AreStanding (get_by_text it.names) it.slots };
}

fn shown_by(known: Known, column: &OutColumn) -> Shown
    ensures { result ≡ shown_of (numbered_by known.number column.now) }
{
    Shown {
        kind: column.kind,
        id: known.number.unwrap_or(column.id),
    }
}

// Adds a column of a slot where it can be seen.
fn push_seen(
    columns: &mut Seq<OutColumn>,
    known: Option<&Known>,
    slot: usize,
    column: OutColumn,
) -> Result<(), AllocError>
    ensures { OnOk result (columns.new ≡ columns.old ++ seen_by (option_copied known.entry) slot column) }
{
    match known {
        Some(known) if known.from <= slot => {
            let OutColumn { name, kind, id } = column;
            columns.push(OutColumn {
                name,
                kind,
                id: known.number.unwrap_or(id),
            })
        }
        _ => Ok(()),
    }
}

impl VisibleColumns {
    /// No columns, which takes no memory.
    pub fn new(alloc: Global) -> VisibleColumns
        ensures { result ≡ [] }
    {
        VisibleColumns {
            slots: Seq::new(alloc),
            names: BTreeMap::new(alloc),
        }
    }

    /// The columns of a list, in their order.
    pub fn from_seq(alloc: Global, columns: Seq<OutColumn>) -> Result<VisibleColumns, AllocError>
        ensures { IfOk result (λ visible. visible ≡ columns) }
    {
        let names = names_of(alloc, columns.as_slice())?;
        Ok(VisibleColumns {
            slots: columns,
            names,
        })
    }

    pub fn is_empty(&self) -> bool
        ensures { result ≡ is_empty self.now }
    {
        self.names.len() == 0
    }

    /// The first column of a name.
    pub fn named(&self, name: &str) -> Option<Shown>
        ensures { result ≡ option_map shown_of (visible_named self.now name.now) }
    {
        match self.names.get(name) {
            Some(known) => match self.slots.at(known.from) {
                Some(column) => Some(shown_by(*known, column)),
                None => None,
            },
            None => None,
        }
    }

    /// The columns with one in the place of that of its name, at the end.
    pub fn put(self, alloc: Global, column: OutColumn) -> Result<VisibleColumns, AllocError>
        ensures { IfOk result (λ new. new ≡ with_last self column) }
    {
        let VisibleColumns { slots, names } = self;
        let mut slots = slots;
        let mut names = names;
        let known = Known {
            from: slots.len(),
            number: None,
        };
        put_name(alloc, &mut names, column.name.as_str(), known)?;
        slots.push(column)?;
        Ok(VisibleColumns { slots, names })
    }

    /// The columns with another number for that of a name.
    pub fn renumber(
        self,
        alloc: Global,
        name: &str,
        number: ColId,
    ) -> Result<VisibleColumns, AllocError>
        ensures { IfOk result (λ new. new ≡ map (renumbered name.now number) self) }
    {
        let VisibleColumns { slots, names } = self;
        let known = match names.get(name) {
            Some(known) => Known {
                from: known.from,
                number: Some(number),
            },
            None => return Ok(VisibleColumns { slots, names }),
        };
        let mut names = names;
        put_name(alloc, &mut names, name, known)?;
        Ok(VisibleColumns { slots, names })
    }

    /// The list of the columns, in their order.
    pub fn into_seq(self, alloc: Global) -> Result<Seq<OutColumn>, AllocError>
        ensures { IfOk result (λ columns. columns ≡ self) }
    {
        let VisibleColumns { slots, names } = self;
        let mut columns = Seq::new(alloc);
        let mut slot = 0;
        for column in slots.into_vec() {
            let known = names.get(column.name.as_str());
            push_seen(&mut columns, known, slot, column)?;
            slot += 1;
        }
        Ok(columns)
    }
}
