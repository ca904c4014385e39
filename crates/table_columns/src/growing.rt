ghost use Rattle.std.specs.Prelude.{◌≡◌, [], IfOk, OnOk};
ghost use Rattle.col_blocks.specs.Cells.{IsOfKind};
ghost use Rattle.table_columns.specs.Held.{IsClosed, held, grown};
ghost use Rattle.table_columns.specs.Placing.{with_cell, with_filled};

use crate::held::HeldColumn;
use col_blocks::Builder;
use esql_types::{Cell, Kind, Seq};
use std::alloc::{AllocError, Global};

/// A column that is being built.
#[derive(Debug, Drop)]
pub struct GrowingColumn {
    /// The numbers of the rows whose cells are kept.
    pub numbers: Seq<u32>,
    pub cells: Builder,
}

impl GrowingColumn {
    pub fn new(alloc: Global, kind: Kind) -> GrowingColumn
        ensures closed { IsClosed result }
        ensures empty { grown result ≡ record { kind = kind; numbers = []; cells = [] } }
    {
        GrowingColumn {
            numbers: Seq::new(alloc),
            cells: Builder::new(alloc, kind),
        }
    }

    /// Keeps a copy of the cell of a row.
    pub fn push(&mut self, number: u32, cell: &Cell) -> Result<(), AllocError>
        requires kind { IsOfKind self.old.cells.kind cell.now }
        requires closed { IsClosed self.old }
        ensures { OnOk result (self.new ≡ with_cell number cell.now self.old) }
    {
        self.numbers.push(number)?;
        self.cells.push(cell)
    }

    /// The same, unless the cell is null.
    pub fn push_filled(&mut self, number: u32, cell: &Cell) -> Result<(), AllocError>
        requires kind { IsOfKind self.old.cells.kind cell.now }
        requires closed { IsClosed self.old }
        ensures { OnOk result (self.new ≡ with_filled number cell.now self.old) }
    {
        if cell.len() == 0 {
            return Ok(());
        }
        self.push(number, cell)
    }

    pub fn finish(self) -> Result<HeldColumn, AllocError>
        requires { IsClosed self }
        ensures { IfOk result (λ column. held column ≡ grown self) }
    {
        let GrowingColumn { numbers, cells } = self;
        Ok(HeldColumn {
            numbers,
            cells: cells.finish()?,
        })
    }
}
