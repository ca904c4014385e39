use std::alloc::AllocError;
use thiserror::Error;

/// Why a text is no list of tokens, with the byte offset of the first fault in it.
#[derive(Clone, Copy, Debug, Drop, Error)]
pub enum LexError {
    /// A character begins no token.
    #[error("no token begins with this character")]
    BadCharacter { at: u32 },
    /// A text or a name in quotes has no end.
    #[error("the quote is not closed")]
    OpenString { at: u32 },
    /// A backslash stands before a character that it does not escape.
    #[error("this is no escape")]
    BadEscape { at: u32 },
    /// A comment has no end.
    #[error("the comment is not closed")]
    OpenComment { at: u32 },
    /// A number is above 9223372036854775807.
    #[error("the number is too large")]
    WideNumber { at: u32 },
    /// Memory was refused.
    #[error(transparent)]
    Memory(AllocError),
}

impl From<AllocError> for LexError {
    ghost use Rattle.esql_lex.specs.Tokens.{IsWantOfMemory};

    ghost from_gives = { λ _ error. IsWantOfMemory error };

    fn from(refused: AllocError) -> LexError {
        LexError::Memory(refused)
    }
}
