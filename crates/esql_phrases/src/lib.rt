//! What the grammar sees in a token, the expression of each form, and the grammar of expressions.
#![tactic(auto)]

mod laws;
mod lexeme;
mod lexemes;
mod part;
mod parts;
#[cfg(test)]
mod tests;

pub use laws::{depth_of_phrase, from_first_to_last, spans_fit};
pub use lexeme::{Lexeme, span_at};
pub use lexemes::lexeme_of;
pub use part::Part;
pub use parts::{
    binary_part, call_part, cast_part, column_part, constant_part, group_part, is_null_part,
    like_part, line_of, list_part, minus_part, negative_value, not_part, null_part, number_value,
    star_part, within_part,
};
