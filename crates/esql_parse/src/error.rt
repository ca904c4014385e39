ghost use Rattle.std.specs.Prelude.{◌≡◌};

use std::alloc::AllocError;
use thiserror::Error;

/// Where tokens leave the queries, with the number of the first token with which they do.
#[derive(Clone, Copy, Debug, Drop, Error)]
pub enum ParseError {
    /// No query begins so.
    #[error("no query goes on with this token")]
    Unexpected { token: u32 },
    /// Each query that begins so has an expression deeper than 100.
    #[error("an expression is nested deeper than 100")]
    TooDeep { token: u32 },
    /// The token is the `|` that begins the 201st command after the source.
    #[error("there are more than 200 commands")]
    TooMany { token: u32 },
    /// Memory was refused.
    #[error(transparent)]
    Memory(AllocError),
}

impl From<AllocError> for ParseError {
    ghost use Rattle.esql_parse.specs.declared.error.ParseError.TheVariants.{Memory};

    ghost from_gives = { λ refused error. error ≡ Memory refused };

    fn from(refused: AllocError) -> ParseError {
        ParseError::Memory(refused)
    }
}
