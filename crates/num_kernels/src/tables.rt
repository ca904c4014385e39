// What each operation's constant stands for.
macro_rules! compare_by {
    ($op:ident, $eq:expr, $ne:expr, $lt:expr, $le:expr, $gt:expr, $ge:expr) => {
        match $op {
            EQ => $eq,
            NE => $ne,
            LT => $lt,
            LE => $le,
            GT => $gt,
            _ => $ge,
        }
    };
}

pub(crate) use compare_by;

macro_rules! arith_by {
    ($op:ident, $add:expr, $sub:expr, $mul:expr, $div:expr, $rem:expr) => {
        match $op {
            ADD => $add,
            SUB => $sub,
            MUL => $mul,
            DIV => $div,
            _ => $rem,
        }
    };
}

pub(crate) use arith_by;
