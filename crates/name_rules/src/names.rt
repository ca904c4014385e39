ghost use Rattle.std.specs.Prelude.{◌≡◌, ◌<◌, length, None, MatchResult};
ghost use Rattle.name_rules.specs.NameRules.{renamings, first_missing};
ghost use Rattle.name_rules.specs.NamePlaces.{IsRenameRefusal};

use crate::renames::{columns_left, columns_named, is_there, rename_pair};
use esql_ast::RenamePair;
use esql_types::{Seq, Span, Text};
use std::alloc::{AllocError, Global};

/// A column that RENAME leaves: its name now, and the place that it had.
#[derive(Drop)]
pub struct Renamed {
    pub name: Text,
    pub place: u32,
}

/// Why RENAME is refused.
#[derive(Debug, Drop)]
pub enum RenameError {
    /// The old name of a pair is no column's at its turn.
    UnknownColumn { span: Span },
    /// Memory was refused.
    Memory(AllocError),
}

impl From<AllocError> for RenameError {
    ghost use Rattle.name_rules.specs.NamePlaces.{IsWantOfRenames};

    ghost from_gives = { λ _ error. IsWantOfRenames error };

    fn from(refused: AllocError) -> RenameError {
        RenameError::Memory(refused)
    }
}

/// The columns that RENAME leaves, under their new names and in their order (after the ES|QL reference).
///
/// Pair by pair from the left: another column of the new name is removed, and the column of the old name gets the new one.
///
/// Refused at the first pair whose old name is no column's at its turn.
pub fn rename_pairs(
    alloc: Global,
    names: &Seq<Text>,
    pairs: &Seq<RenamePair>,
) -> Result<Seq<Renamed>, RenameError>
    requires { length names.now < 4294967296 }
    ensures { MatchResult result (λ columns. (columns ≡ renamings names.now pairs.now) × (first_missing names.now pairs.now ≡ None)) (IsRenameRefusal names.now pairs.now) }
{
    let mut renames = columns_named(alloc, names.as_slice())?;
    for pair in pairs.as_slice() {
        if !is_there(&renames, pair.before.name.as_str()) {
            return Err(RenameError::UnknownColumn {
                span: pair.before.span,
            });
        }
        renames = rename_pair(alloc, renames, pair)?;
    }
    Ok(columns_left(alloc, &renames)?)
}
