ghost use Rattle.std.specs.Prelude.{◌≡◌};
ghost use Rattle.scalar_functions.specs.Calls.{call_of};
ghost use Rattle.scalar_functions.specs.Taken.{branches_of};

use esql_plan::Function;
use number_rules::{Arithmetic, Comparison};

/// How a function is called: with parts that are evaluated only as far as a row reaches them, or with the cells of all of them.
#[derive(Clone, Copy)]
pub(crate) enum Call {
    Branches(Branches),
    Plain(Plain),
}

/// A function whose arguments are handed unevaluated.
#[derive(Clone, Copy, Debug, PartialEq, Eq)]
pub enum Branches {
    Case,
    Coalesce,
}

/// How a function takes the cells of its arguments.
#[derive(Clone, Copy)]
pub(crate) enum Plain {
    /// One value of each argument.
    Singles(SingleFunction),
    /// Each value of the one argument by itself.
    Each(Conversion),
    /// All values of the first argument, and one value of each of the others.
    List(ListFunction),
    /// All values of both arguments.
    Append,
    /// The cell of the one argument, which may be null.
    Test { negated: bool },
    /// Truths.
    Logic(Connective),
    /// Whether the first argument is one of the others.
    Membership { negated: bool },
}

#[derive(Clone, Copy)]
pub(crate) enum SingleFunction {
    Unary(Unary),
    Binary(Binary),
    Rlike { negated: bool },
    Replace,
    Substring,
    Concat,
    /// The greatest or the least of several values.
    Best { greatest: bool },
}

#[derive(Clone, Copy)]
pub(crate) enum Unary {
    Neg,
    Abs,
    Length,
    Trim,
    Ltrim,
    Rtrim,
}

#[derive(Clone, Copy)]
pub(crate) enum Binary {
    Arithmetic(Arithmetic),
    Compare(Comparison),
    Like { negated: bool },
    Left,
    Right,
    StartsWith,
    EndsWith,
    Split,
}

#[derive(Clone, Copy)]
pub(crate) enum Conversion {
    Integer,
    Long,
    Boolean,
    String,
}

#[derive(Clone, Copy)]
pub(crate) enum ListFunction {
    /// Without another argument.
    Alone(AloneFunction),
    Concat,
    Slice,
}

#[derive(Clone, Copy)]
pub(crate) enum AloneFunction {
    Count,
    Sum,
    /// The greatest or the least of the values.
    Best { greatest: bool },
    First,
    Last,
    Dedupe,
    Sort { descending: bool },
}

#[derive(Clone, Copy)]
pub(crate) enum Connective {
    And,
    Or,
    Not,
}

/// CASE and COALESCE, whose arguments are evaluated only as far as a row reaches them. Every other function takes the cells
/// of all its arguments.
#[tactic(auto, using(crate::proofs::Calls::call_rule))]
pub fn branches_of(function: Function) -> Option<Branches>
    ensures { result ≡ branches_of function }
{
    match call_of(function) {
        Call::Branches(branches) => Some(branches),
        Call::Plain(_) => None,
    }
}

/// How each function is called.
pub(crate) fn call_of(function: Function) -> Call
    ensures { result ≡ call_of function }
{
    match function {
        Function::Add => Call::Plain(Plain::Singles(SingleFunction::Binary(Binary::Arithmetic(
            Arithmetic::Add,
        )))),
        Function::Sub => Call::Plain(Plain::Singles(SingleFunction::Binary(Binary::Arithmetic(
            Arithmetic::Sub,
        )))),
        Function::Mul => Call::Plain(Plain::Singles(SingleFunction::Binary(Binary::Arithmetic(
            Arithmetic::Mul,
        )))),
        Function::Div => Call::Plain(Plain::Singles(SingleFunction::Binary(Binary::Arithmetic(
            Arithmetic::Div,
        )))),
        Function::Mod => Call::Plain(Plain::Singles(SingleFunction::Binary(Binary::Arithmetic(
            Arithmetic::Mod,
        )))),
        Function::Neg => Call::Plain(Plain::Singles(SingleFunction::Unary(Unary::Neg))),
        Function::Abs => Call::Plain(Plain::Singles(SingleFunction::Unary(Unary::Abs))),
        Function::Eq => Call::Plain(Plain::Singles(SingleFunction::Binary(Binary::Compare(
            Comparison::Equal,
        )))),
        Function::Ne => Call::Plain(Plain::Singles(SingleFunction::Binary(Binary::Compare(
            Comparison::NotEqual,
        )))),
        Function::Lt => Call::Plain(Plain::Singles(SingleFunction::Binary(Binary::Compare(
            Comparison::Less,
        )))),
        Function::Le => Call::Plain(Plain::Singles(SingleFunction::Binary(Binary::Compare(
            Comparison::LessEqual,
        )))),
        Function::Gt => Call::Plain(Plain::Singles(SingleFunction::Binary(Binary::Compare(
            Comparison::Greater,
        )))),
        Function::Ge => Call::Plain(Plain::Singles(SingleFunction::Binary(Binary::Compare(
            Comparison::GreaterEqual,
        )))),
        Function::And => Call::Plain(Plain::Logic(Connective::And)),
        Function::Or => Call::Plain(Plain::Logic(Connective::Or)),
        Function::Not => Call::Plain(Plain::Logic(Connective::Not)),
        Function::In => Call::Plain(Plain::Membership { negated: false }),
        Function::NotIn => Call::Plain(Plain::Membership { negated: true }),
        Function::Like => Call::Plain(Plain::Singles(SingleFunction::Binary(Binary::Like {
            negated: false,
        }))),
        Function::Rlike => Call::Plain(Plain::Singles(SingleFunction::Rlike { negated: false })),
        Function::NotLike => Call::Plain(Plain::Singles(SingleFunction::Binary(Binary::Like {
            negated: true,
        }))),
        Function::NotRlike => Call::Plain(Plain::Singles(SingleFunction::Rlike { negated: true })),
        Function::IsNull => Call::Plain(Plain::Test { negated: false }),
        Function::IsNotNull => Call::Plain(Plain::Test { negated: true }),
        Function::Greatest => Call::Plain(Plain::Singles(SingleFunction::Best { greatest: true })),
        Function::Least => Call::Plain(Plain::Singles(SingleFunction::Best { greatest: false })),
        Function::Case => Call::Branches(Branches::Case),
        Function::Coalesce => Call::Branches(Branches::Coalesce),
        Function::ToInteger => Call::Plain(Plain::Each(Conversion::Integer)),
        Function::ToLong => Call::Plain(Plain::Each(Conversion::Long)),
        Function::ToBoolean => Call::Plain(Plain::Each(Conversion::Boolean)),
        Function::ToString => Call::Plain(Plain::Each(Conversion::String)),
        Function::Length => Call::Plain(Plain::Singles(SingleFunction::Unary(Unary::Length))),
        Function::Concat => Call::Plain(Plain::Singles(SingleFunction::Concat)),
        Function::Substring => Call::Plain(Plain::Singles(SingleFunction::Substring)),
        Function::Left => Call::Plain(Plain::Singles(SingleFunction::Binary(Binary::Left))),
        Function::Right => Call::Plain(Plain::Singles(SingleFunction::Binary(Binary::Right))),
        Function::Trim => Call::Plain(Plain::Singles(SingleFunction::Unary(Unary::Trim))),
        Function::Ltrim => Call::Plain(Plain::Singles(SingleFunction::Unary(Unary::Ltrim))),
        Function::Rtrim => Call::Plain(Plain::Singles(SingleFunction::Unary(Unary::Rtrim))),
        Function::StartsWith => Call::Plain(Plain::Singles(SingleFunction::Binary(
            Binary::StartsWith,
        ))),
        Function::EndsWith => Call::Plain(Plain::Singles(SingleFunction::Binary(Binary::EndsWith))),
        Function::Replace => Call::Plain(Plain::Singles(SingleFunction::Replace)),
        Function::Split => Call::Plain(Plain::Singles(SingleFunction::Binary(Binary::Split))),
        Function::MvCount => Call::Plain(Plain::List(ListFunction::Alone(AloneFunction::Count))),
        Function::MvSum => Call::Plain(Plain::List(ListFunction::Alone(AloneFunction::Sum))),
        Function::MvMin => Call::Plain(Plain::List(ListFunction::Alone(AloneFunction::Best {
            greatest: false,
        }))),
        Function::MvMax => Call::Plain(Plain::List(ListFunction::Alone(AloneFunction::Best {
            greatest: true,
        }))),
        Function::MvFirst => Call::Plain(Plain::List(ListFunction::Alone(AloneFunction::First))),
        Function::MvLast => Call::Plain(Plain::List(ListFunction::Alone(AloneFunction::Last))),
        Function::MvDedupe => Call::Plain(Plain::List(ListFunction::Alone(AloneFunction::Dedupe))),
        Function::MvSort => Call::Plain(Plain::List(ListFunction::Alone(AloneFunction::Sort {
            descending: false,
        }))),
        Function::MvSortDesc => Call::Plain(Plain::List(ListFunction::Alone(AloneFunction::Sort {
            descending: true,
        }))),
        Function::MvConcat => Call::Plain(Plain::List(ListFunction::Concat)),
        Function::MvAppend => Call::Plain(Plain::Append),
        Function::MvSlice => Call::Plain(Plain::List(ListFunction::Slice)),
    }
}
