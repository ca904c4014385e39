use crate::query::{NameAt, TextAt};
use esql_types::{Boxed, Cell, Kind, NodeId, Seq, Span, Text, Value};

/// An expression: its number, its span from the first to the last token, and its form.
#[cycle(expr)]
#[derive(Drop)]
pub struct Expr {
    pub node: NodeId,
    pub span: Span,
    pub form: Form,
}

#[cycle(expr)]
#[derive(Drop)]
pub enum Form {
    /// A constant of one kind.
    Constant {
        cell: Cell,
        kind: Kind,
    },
    /// A list of constants.
    List {
        values: Seq<Value>,
    },
    /// The column of a name.
    Column {
        name: Text,
    },
    /// An expression in parentheses.
    Group {
        inner: Boxed<Expr>,
    },
    /// A function of arguments, or of `*` alone.
    Call {
        function: NameAt,
        args: Seq<Expr>,
        star: bool,
    },
    /// The unary `-`.
    Minus {
        arg: Boxed<Expr>,
    },
    Not {
        arg: Boxed<Expr>,
    },
    /// An operator between two operands.
    Binary {
        op: BinaryOp,
        left: Boxed<Expr>,
        right: Boxed<Expr>,
    },
    /// `[NOT] IN`.
    Within {
        negated: bool,
        left: Boxed<Expr>,
        items: Seq<Expr>,
    },
    /// `[NOT] LIKE`, or `[NOT] RLIKE` where it is by a regular expression.
    Like {
        negated: bool,
        regex: bool,
        left: Boxed<Expr>,
        pattern: TextAt,
    },
    /// `IS [NOT] NULL`.
    IsNull {
        negated: bool,
        arg: Boxed<Expr>,
    },
    /// `::` and the name of a kind.
    Cast {
        arg: Boxed<Expr>,
        kind: NameAt,
    },
}

#[derive(Clone, Copy, Debug, PartialEq, Eq)]
pub enum BinaryOp {
    Add,
    Sub,
    Mul,
    Div,
    Mod,
    Eq,
    Ne,
    Lt,
    Le,
    Gt,
    Ge,
    And,
    Or,
}
