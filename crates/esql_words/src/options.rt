ghost use Rattle.std.specs.Prelude.{◌≡◌};
ghost use Rattle.esql_words.specs.declared.options.WordsError.TheVariants.{Memory};

use esql_types::Text;
use std::alloc::AllocError;
use thiserror::Error;

/// How a table is written.
#[derive(Clone, Copy, Debug, PartialEq, Eq)]
pub enum Format {
    /// Columns of a fixed width, between bars.
    Txt,
    /// A header and rows, with commas between.
    Csv,
    /// One object with columns and rows.
    Json,
}

/// What is asked for.
#[derive(Drop)]
pub enum Request {
    /// The answer to a query.
    Query { text: Text },
    /// A table of so many rows, from 1 to 1,000,000, that is made from a seed.
    Generate { seed: u64, rows: u32 },
}

/// What the words ask for, and how.
#[derive(Drop)]
pub struct Options {
    /// The folder of the files, or none for the working folder.
    pub folder: Option<Text>,
    /// Rows in a page, from 1 to 65,536.
    pub page_size: u32,
    pub format: Format,
    pub request: Request,
}

/// Why words give no options.
#[derive(Clone, Copy, Debug, Drop, Error)]
pub enum WordsError {
    /// The words are not accepted.
    #[error("the words are not accepted")]
    Usage,
    /// Memory was refused.
    #[error(transparent)]
    Memory(AllocError),
}

impl From<AllocError> for WordsError {
    ghost from_gives = { λ refused error. error ≡ Memory refused };

    fn from(refused: AllocError) -> WordsError {
        WordsError::Memory(refused)
    }
}
