use crate::add::add_row;
use crate::added::{AddedRow, AddedRows};
use crate::cells::{cell_of_places, cells_of_places};
use crate::key::MatchKey;
use crate::places::places_of;
use esql_types::{Cell, Seq};
use indexmap::IndexMap;
use std::alloc::{AllocError, Global};
use std::marker::Model;

/// The rows of a policy's tables, found by the values of their match field.
///
/// Contracts see how many fields a row has, and the rows that were added, in order.
#[derive(Drop)]
pub struct Lookup {
    alloc: Global,
    fields: u32,
    cells: Seq<Seq<Cell>>,
    places: IndexMap<MatchKey, Seq<usize>>,
    added: AddedRows,
}

impl Model for Lookup {
    ghost use Rattle.enrich_match.specs.Lookups.{Matching};

    ghost Value = { Matching };

    ghost use Rattle.enrich_match.specs.Held.{matching_of, HoldsRows};

    ghost view = { matching_of };

    ghost invariant = { HoldsRows };
}

impl Lookup {
    ghost use Rattle.std.specs.Prelude.{◌≡◌, [], IfOk, OnOk, OnErr};
    ghost use Rattle.enrich_match.specs.Lookups.{match_row, with_match_row};
    ghost use Rattle.enrich_match.specs.Matches.{matched_cell, matched_cells};

    /// The lookup without a row, for rows of so many fields. Takes no memory.
    pub fn new(alloc: Global, fields: u32) -> Lookup
        ensures { result ≡ record { fields = fields; rows = [] } }
    {
        Lookup {
            alloc,
            fields,
            cells: Seq::new(alloc),
            places: IndexMap::new(alloc),
            added: AddedRows::new(),
        }
    }

    /// Adds a row behind the others, by the cell of its match field and those of its fields. A value of its match field finds
    /// it once, even if it stands there several times. Where memory is refused, no row is left.
    pub fn add(&mut self, key: &Cell, fields: &[Cell]) -> Result<(), AllocError>
        ensures ok { OnOk result (self.new ≡ with_match_row (match_row key.now fields.now) self.old) }
        ensures err { OnErr result (self.new ≡ record self.old { rows = [] }) }
    {
        match add_row(self.alloc, &mut self.cells, &mut self.places, key, fields) {
            Ok(()) => {
                self.added = self.added.then(&AddedRow { key, fields });
                Ok(())
            }
            Err(error) => {
                self.cells = Seq::new(self.alloc);
                self.places = IndexMap::new(self.alloc);
                self.added = AddedRows::new();
                Err(error)
            }
        }
    }

    /// A field's values of the rows that match a cell, in the order of the rows: null where no row matches.
    pub fn probe(&self, alloc: Global, key: &Cell, field: u32) -> Result<Cell, AllocError>
        ensures { IfOk result (λ cell. cell ≡ matched_cell self.now.rows key.now field) }
    {
        let places = places_of(alloc, &self.places, key.as_slice())?;
        let cell = cell_of_places(alloc, self.cells.as_slice(), &places, field as usize)?;
        Ok(cell)
    }

    /// Each field's values of the rows that match a cell, by one search.
    pub fn probe_all(&self, alloc: Global, key: &Cell) -> Result<Seq<Cell>, AllocError>
        ensures { IfOk result (λ cells. cells ≡ matched_cells self.now.fields self.now.rows key.now) }
    {
        let places = places_of(alloc, &self.places, key.as_slice())?;
        let cells = cells_of_places(alloc, self.cells.as_slice(), &places, self.fields)?;
        Ok(cells)
    }
}
