//! The tokens of a query.
#![tactic(auto)]

mod body;
mod content;
mod error;
mod forms;
mod gaps;
mod laws;
mod mode;
mod quotes;
mod reading;
#[cfg(test)]
mod tests;
mod token;

pub use content::{content_of, token_text};
pub use error::LexError;
pub use laws::{
    names_in_backticks, not_both, one_fault, one_list, pieces_join, slices_have_forms,
    texts_in_quotes, tokens_are_parts,
};
pub use reading::lex;
pub use token::{Reserved, Sign, Token, TokenKind};
