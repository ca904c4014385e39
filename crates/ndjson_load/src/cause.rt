//! Why a row or a mapping is bad.

ghost use Rattle.std.specs.Prelude.{◌≡◌, alloc_error};
ghost use Rattle.ndjson_load.specs.declared.cause.MappingError.TheVariants.{Memory};
ghost use Rattle.ndjson_load.specs.declared.cause.LoadError.TheVariants.{Memory as NoMemory};

use esql_types::Text;
use std::alloc::{AllocError, AllocFailed};
use thiserror::Error;

/// Why a row is bad.
#[derive(Clone, Copy, Debug, PartialEq, Eq)]
pub enum RowCause {
    /// The line is no JSON that `serde_json` reads.
    NotJson,
    /// The line is no object.
    NotObject,
    /// A value stands where the name of the column goes on.
    WantsObject,
    /// An object stands where the name of the column ends.
    WantsValue,
    /// A value is no whole number in the range of the kind.
    BadNumber,
    /// A value is no boolean.
    BadBoolean,
    /// A value is no text.
    BadText,
}

/// Why a mapping or a policy is bad. A path is the dotted name of a property.
#[derive(Debug, Drop)]
pub enum MappingCause {
    /// The document is no JSON that `serde_json` reads.
    NotJson,
    /// The document has no object `mappings` with an object `properties`.
    NoMappings,
    /// A property, or the `properties` in it, is no object.
    WantsObject { path: Text },
    /// The type of a property is no text.
    WantsText { path: Text },
    /// A parameter of a property is not accepted.
    BadParameter { path: Text },
    /// Two properties have one dotted name.
    Twice { path: Text },
    /// The document is no match policy.
    NotMatchPolicy,
    /// No table has the field.
    NoField { path: Text },
    /// Two tables have the field with different kinds.
    KindConflict { path: Text },
}

/// Why a mapping or a policy was not read.
#[derive(Debug, Drop, Error)]
pub enum MappingError {
    #[error("the document is bad: {cause:?}")]
    Bad { cause: MappingCause },
    #[error(transparent)]
    Memory(AllocError),
}

impl From<AllocError> for MappingError {
    ghost from_gives = { λ error result. result ≡ Memory error };

    fn from(error: AllocError) -> MappingError {
        MappingError::Memory(error)
    }
}

impl<T: Drop> From<AllocFailed<T>> for MappingError {
    ghost from_gives = { λ _ result. result ≡ Memory alloc_error };

    fn from(_failed: AllocFailed<T>) -> MappingError {
        MappingError::Memory(AllocError)
    }
}

/// Why a table was not loaded.
#[derive(Debug, Drop, Error)]
pub enum LoadError {
    #[error("a call on the files failed")]
    ReadFault,
    #[error("the file is larger than 268435456 bytes")]
    TooLarge,
    /// The line counts from 1, and `field` is the name of the column, empty where the line is no object.
    #[error("line {line}: {cause:?}")]
    BadRow {
        line: u64,
        field: Text,
        cause: RowCause,
    },
    #[error(transparent)]
    Memory(AllocError),
}

impl From<AllocError> for LoadError {
    ghost from_gives = { λ error result. result ≡ NoMemory error };

    fn from(error: AllocError) -> LoadError {
        LoadError::Memory(error)
    }
}

impl<T: Drop> From<AllocFailed<T>> for LoadError {
    ghost from_gives = { λ _ result. result ≡ NoMemory alloc_error };

    fn from(_failed: AllocFailed<T>) -> LoadError {
        LoadError::Memory(AllocError)
    }
}
