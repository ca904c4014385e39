ghost use Rattle.std.specs.Prelude.{◌≡◌};
ghost use Rattle.dissect_grok.specs.declared.error.DissectError.TheVariants.{Memory};

use std::alloc::AllocError;
use thiserror::Error;

/// Why a pattern was not read.
#[derive(Clone, Copy, Debug, Drop, Error)]
pub enum DissectError {
    #[error("the pattern is bad")]
    Bad,
    #[error(transparent)]
    Memory(AllocError),
}

impl From<AllocError> for DissectError {
    ghost from_gives = { λ error result. result ≡ Memory error };

    fn from(error: AllocError) -> DissectError {
        DissectError::Memory(error)
    }
}

/// Why a pattern of GROK was not read.
#[derive(Clone, Copy, Debug, Drop, Error)]
pub enum GrokError {
    #[error("the pattern is bad")]
    Bad,
    #[error("the pattern written out is not readable")]
    NotRead,
    #[error("the pattern written out is too large to build")]
    TooLarge,
    #[error(transparent)]
    Memory(AllocError),
}
