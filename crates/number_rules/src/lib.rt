//! The rules of whole numbers: the ranges of integers and longs, arithmetic and its faults, comparison, the numbers that
//! texts spell, and sums in 128 bits. They speak of mathematical numbers alone, so that an expression on a row and a
//! kernel over columns cite the same ones.
//!
//! Read its specs in this order: `Ranges`, `Arithmetic`, `Comparisons`, `Spelled`, `Sums`.
#![tactic(auto)]

pub mod laws;

/// An operation of arithmetic on two numbers.
#[derive(Clone, Copy, Debug, PartialEq, Eq)]
pub enum Arithmetic {
    Add,
    Sub,
    Mul,
    Div,
    Mod,
}

/// A comparison of two values.
#[derive(Clone, Copy, Debug, PartialEq, Eq)]
pub enum Comparison {
    Equal,
    NotEqual,
    Less,
    LessEqual,
    Greater,
    GreaterEqual,
}

/// Why an operation on numbers has no result.
#[derive(Clone, Copy, Debug, PartialEq, Eq)]
pub enum NumberFault {
    /// The divisor is 0.
    ByZero,
    /// The result lies outside the kind.
    Overflow,
}
