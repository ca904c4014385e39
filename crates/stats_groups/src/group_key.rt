ghost use Rattle.std.specs.Prelude.{◌≡◌, [], ◌∷◌, IfOk, OnOk};
ghost use Rattle.stats_groups.specs.Cells.{put_cells};

use crate::cells::{put_cells, put_first};
use crate::hashes::hash_cells;
use crate::same::same_cells;
use esql_types::{Cell, ColId, Seq};
use std::alloc::{AllocError, Global};
use std::hash::{Hash, Hasher};
use std::marker::Model;
use std::slice::from_ref;

/// Cells, of which one takes no memory.
#[derive(Drop)]
enum KeyCells {
    One(Cell),
    Several(Vec<Cell>),
}

/// The key of a group: a cell of one value or none for each column that rows are grouped by. Contracts see it as its cells.
#[derive(Drop)]
pub(crate) struct GroupKey {
    cells: KeyCells,
}

impl Model for GroupKey {
    ghost use Rattle.std.specs.Prelude.{List};
    ghost use Rattle.esql_types.specs.declared.value.Value.{Value as PlainValue};
    ghost use Rattle.stats_groups.specs.KeyCells.{cells_held};

    ghost Value = { List (List PlainValue) };

    ghost view = { λ key. cells_held key.cells };
}

impl GroupKey {
    /// The key of one cell, which takes no memory.
    pub(crate) fn one(cell: Cell) -> GroupKey
        ensures { result ≡ cell ∷ [] }
    {
        GroupKey {
            cells: KeyCells::One(cell),
        }
    }

    pub(crate) fn of(cells: Vec<Cell>) -> GroupKey
        ensures { result ≡ cells.items }
    {
        GroupKey {
            cells: KeyCells::Several(cells),
        }
    }

    pub(crate) fn as_slice(&self) -> &[Cell]
        ensures { result.now ≡ self.now }
    {
        match &self.cells {
            KeyCells::One(cell) => from_ref(cell),
            KeyCells::Several(cells) => cells.as_slice(),
        }
    }

    /// Puts the cells of the key at columns of a row, as far as there are columns.
    pub(crate) fn put_cells(
        self,
        alloc: Global,
        columns: &[ColId],
        row: &mut Seq<Cell>,
    ) -> Result<(), AllocError>
        ensures { OnOk result (row.new ≡ put_cells row.old columns.now self) }
    {
        let GroupKey { cells } = self;
        match cells {
            KeyCells::One(cell) => put_first(alloc, row, columns, cell),
            KeyCells::Several(cells) => put_cells(alloc, row, columns, cells),
        }
    }

    /// A copy of the key with another cell before it.
    pub(crate) fn behind(&self, alloc: Global, first: Cell) -> Result<GroupKey, AllocError>
        ensures { IfOk result (λ key. key ≡ first ∷ self.now) }
    {
        let mut cells = Vec::new(alloc);
        cells.push(first)?;
        for cell in self.as_slice() {
            cells.push(cell.copy()?)?;
        }
        Ok(GroupKey::of(cells))
    }
}

impl PartialEq for GroupKey {
    ghost use Rattle.std.specs.Cmp.{partial_equiv_from_equiv};
    ghost use Rattle.plan_semantics.specs.Groups.{same_key};
    ghost use Rattle.stats_groups.specs.Keys.{key_equivalence};

    ghost eq = { same_key };

    ghost laws = { partial_equiv_from_equiv key_equivalence };

    fn eq(&self, other: &GroupKey) -> bool {
        same_cells(self.as_slice(), other.as_slice())
    }
}

impl Eq for GroupKey {
    ghost use Rattle.stats_groups.specs.Keys.{key_equivalence};

    ghost laws = { key_equivalence };
}

impl Hash for GroupKey {
    ghost use Rattle.std.specs.Hash.{same_Alike};
    ghost use Rattle.stats_groups.specs.Keys.{key_hashed, key_decides};

    ghost hash_input = { key_hashed };

    ghost respects_eq = { (same_Alike key_hashed key_decides).fed };

    fn hash<H: Hasher>(&self, state: &mut H) {
        hash_cells(self.as_slice(), state);
    }
}
