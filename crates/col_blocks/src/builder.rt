ghost use Rattle.std.specs.Prelude.{◌≡◌, [], ◌∷◌, ◌++◌, ◌<◌, length, slice_index_or, IfOk, OnOk, OnErr};
ghost use Rattle.esql_types.specs.Values.{kind_of_value};
ghost use Rattle.esql_types.specs.declared.value.Value.TheVariants.{Int, Long, Bool as Boolean, Text as Keyword};
ghost use Rattle.col_blocks.specs.Cells.{IsOfKind};
ghost use Rattle.col_blocks.specs.Seen.{form_by};
ghost use Rattle.col_blocks.specs.Stored.{value_read};

use crate::block::Block;
use crate::ends::begin_of;
use crate::spread::rows_of;
use crate::values::{Values, read};
use esql_types::{Cell, Kind, ValueRef};
use std::alloc::{AllocError, Global};
use std::marker::Model;

/// A block that is being built, row by row.
///
/// The values of a row are added one by one, and the row is ended; `push_int` and the like do both for a row of one value.
/// Where memory is refused while a row is open, the row stays open.
#[derive(Debug, Drop)]
pub struct Builder {
    kind: Kind,
    values: Values,
    ends: Vec<usize>,
    single: bool,
    few: bool,
}

impl Model for Builder {
    ghost use Rattle.std.specs.Prelude.{drop};
    ghost use Rattle.col_blocks.specs.Building.{Building, BuilderFits};
    ghost use Rattle.col_blocks.specs.Pieces.{pieces, last_end};
    ghost use Rattle.col_blocks.specs.Stored.{values_of};

    ghost Value = { Building };

    ghost view = { λ b. record {
      kind = b.kind;
      cells = pieces (values_of b.values) 0 b.ends.items;
      row = drop (last_end 0 b.ends.items) (values_of b.values);
    } };

    ghost invariant = { λ b. BuilderFits b.kind b.values b.ends.items b.single b.few };
}

impl Builder {
    /// A builder without a row. Takes no memory.
    pub fn new(alloc: Global, kind: Kind) -> Builder
        ensures { result ≡ record { kind = kind; cells = []; row = [] } }
    {
        Builder {
            kind,
            values: Values::new(alloc, kind),
            ends: Vec::new(alloc),
            single: true,
            few: true,
        }
    }

    /// Adds an integer to the open row; where memory is refused the builder is as before.
    pub fn add_int(&mut self, number: i32) -> Result<(), AllocError>
        requires { self.old.kind ≡ Kind.Integer }
        ensures ok { OnOk result (self.new ≡ record self.old { row = self.old.row ++ Int number ∷ [] }) }
        ensures err { OnErr result (self.new ≡ self.old) }
    {
        self.add(ValueRef::Int(number))
    }

    /// Adds a long to the open row, as `add_int`.
    pub fn add_long(&mut self, number: i64) -> Result<(), AllocError>
        requires { self.old.kind ≡ Kind.Long }
        ensures ok { OnOk result (self.new ≡ record self.old { row = self.old.row ++ Long number ∷ [] }) }
        ensures err { OnErr result (self.new ≡ self.old) }
    {
        self.add(ValueRef::Long(number))
    }

    /// Adds a boolean to the open row, as `add_int`.
    pub fn add_bool(&mut self, truth: bool) -> Result<(), AllocError>
        requires { self.old.kind ≡ Kind.Boolean }
        ensures ok { OnOk result (self.new ≡ record self.old { row = self.old.row ++ Boolean truth ∷ [] }) }
        ensures err { OnErr result (self.new ≡ self.old) }
    {
        self.add(ValueRef::Bool(truth))
    }

    /// Adds a keyword to the open row, as `add_int`.
    pub fn add_text(&mut self, text: &str) -> Result<(), AllocError>
        requires { self.old.kind ≡ Kind.Keyword }
        ensures ok { OnOk result (self.new ≡ record self.old { row = self.old.row ++ Keyword text.now ∷ [] }) }
        ensures err { OnErr result (self.new ≡ self.old) }
    {
        self.add(ValueRef::Text(text))
    }

    /// Adds a value of the builder's kind to the open row, as `add_int`.
    pub fn add(&mut self, value: ValueRef<'_>) -> Result<(), AllocError>
        requires { kind_of_value (value_read value) ≡ self.old.kind }
        ensures ok { OnOk result (self.new ≡ record self.old { row = self.old.row ++ value_read value.entry ∷ [] }) }
        ensures err { OnErr result (self.new ≡ self.old) }
    {
        self.values.push(value)?;
        Ok(())
    }

    /// Ends the open row: its values are the next cell, null where there is none. Where memory is refused the builder is
    /// as before.
    pub fn end_row(&mut self) -> Result<(), AllocError>
        ensures ok { OnOk result (self.new ≡ record self.old { cells = self.old.cells ++ self.old.row ∷ []; row = [] }) }
        ensures err { OnErr result (self.new ≡ self.old) }
    {
        let end = self.values.len();
        let count = end - begin_of(self.ends.as_slice(), self.ends.len());
        self.ends.push(end)?;
        self.single &= count == 1;
        self.few &= count <= 1;
        Ok(())
    }

    /// Adds a row without a value.
    pub fn push_null(&mut self) -> Result<(), AllocError>
        requires { self.old.row ≡ [] }
        ensures { OnOk result (self.new ≡ record self.old { cells = self.old.cells ++ [] ∷ [] }) }
    {
        self.end_row()
    }

    /// Adds a row of one integer.
    pub fn push_int(&mut self, number: i32) -> Result<(), AllocError>
        requires kind { self.old.kind ≡ Kind.Integer }
        requires closed { self.old.row ≡ [] }
        ensures { OnOk result (self.new ≡ record self.old { cells = self.old.cells ++ (Int number ∷ []) ∷ [] }) }
    {
        self.add_int(number)?;
        self.end_row()
    }

    /// Adds a row of one long.
    pub fn push_long(&mut self, number: i64) -> Result<(), AllocError>
        requires kind { self.old.kind ≡ Kind.Long }
        requires closed { self.old.row ≡ [] }
        ensures { OnOk result (self.new ≡ record self.old { cells = self.old.cells ++ (Long number ∷ []) ∷ [] }) }
    {
        self.add_long(number)?;
        self.end_row()
    }

    /// Adds a row of one boolean.
    pub fn push_bool(&mut self, truth: bool) -> Result<(), AllocError>
        requires kind { self.old.kind ≡ Kind.Boolean }
        requires closed { self.old.row ≡ [] }
        ensures { OnOk result (self.new ≡ record self.old { cells = self.old.cells ++ (Boolean truth ∷ []) ∷ [] }) }
    {
        self.add_bool(truth)?;
        self.end_row()
    }

    /// Adds a row of one keyword.
    pub fn push_text(&mut self, text: &str) -> Result<(), AllocError>
        requires kind { self.old.kind ≡ Kind.Keyword }
        requires closed { self.old.row ≡ [] }
        ensures { OnOk result (self.new ≡ record self.old { cells = self.old.cells ++ (Keyword text.now ∷ []) ∷ [] }) }
    {
        self.add_text(text)?;
        self.end_row()
    }

    /// Adds a row whose cell is a copy of this one.
    pub fn push(&mut self, cell: &Cell) -> Result<(), AllocError>
        requires kind { IsOfKind self.old.kind cell.now }
        requires closed { self.old.row ≡ [] }
        ensures { OnOk result (self.new ≡ record self.old { cells = self.old.cells ++ cell.now ∷ [] }) }
    {
        for value in cell.as_slice() {
            self.add(read(value))?;
        }
        self.end_row()
    }

    /// Adds a copy of a row of a block of the same kind.
    pub fn push_row(&mut self, block: &Block, row: usize) -> Result<(), AllocError>
        requires kind { block.now.kind ≡ self.old.kind }
        requires row { row < length block.now.cells }
        requires closed { self.old.row ≡ [] }
        ensures { OnOk result (self.new ≡ record self.old { cells = self.old.cells ++ slice_index_or block.now.cells row [] ∷ [] }) }
    {
        for place in 0..block.count_at(row) {
            if let Some(value) = block.value_at(row, place) {
                self.add(value)?;
            }
        }
        self.end_row()
    }

    /// The block of the rows: Constant for the kind of NULL, else Vector where each cell has one value, else Nullable
    /// where each has at most one, else Multi.
    pub fn finish(self) -> Result<Block, AllocError>
        requires { self.row ≡ [] }
        ensures kind { IfOk result (λ block. block.kind ≡ self.kind) }
        ensures form { IfOk result (λ block. block.form ≡ form_by self.kind self.cells) }
        ensures cells { IfOk result (λ block. block.cells ≡ self.cells) }
    {
        let Builder {
            kind,
            values,
            ends,
            single,
            few,
        } = self;
        let rows = rows_of(kind, values, ends, single, few)?;
        Ok(Block::of_rows(kind, rows))
    }
}
