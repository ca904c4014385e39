/// The sum.
pub const ADD: u8 = 0;
/// The difference.
pub const SUB: u8 = 1;
/// The product.
pub const MUL: u8 = 2;
/// The quotient, rounded toward zero.
pub const DIV: u8 = 3;
/// The remainder, with the sign of the left operand.
pub const MOD: u8 = 4;

/// Whether the two are equal.
pub const EQ: u8 = 0;
/// Whether the two differ.
pub const NE: u8 = 1;
/// Whether the left one is less.
pub const LT: u8 = 2;
/// Whether the left one is not greater.
pub const LE: u8 = 3;
/// Whether the left one is greater.
pub const GT: u8 = 4;
/// Whether the left one is not less.
pub const GE: u8 = 5;
