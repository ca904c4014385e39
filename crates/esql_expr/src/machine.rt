use crate::stack::Stack;
use esql_ast::{BinaryOp, Expr, NameAt};
use esql_phrases::{Lexeme, Part};
use esql_types::{Seq, Span, Value};

/// What an expression that is being read stands in.
#[derive(Drop)]
pub enum Frame {
    /// The right operand.
    Binary {
        op: BinaryOp,
        left: Part,
    },
    /// Parentheses.
    Group {
        opening: Span,
    },
    /// After the unary `-`.
    Minus {
        sign: Span,
    },
    /// After `NOT`.
    Not {
        word: Span,
    },
    /// An argument of a function, after others whose greatest depth is `depth`.
    Call {
        function: NameAt,
        args: Seq<Expr>,
        depth: u32,
    },
    /// An item after IN.
    Within {
        negated: bool,
        left: Part,
        items: Seq<Expr>,
        depth: u32,
    },
}

/// What was read last.
#[derive(Drop)]
pub enum Top {
    /// An expression has to begin.
    Want,
    /// An expression, which may go on.
    Have(Part),
    /// A name, which may be that of a function.
    Named(NameAt),
    /// The name of a function and `(`.
    Called(NameAt),
    /// The name of a function, `(` and `*`.
    Starred(NameAt),
    /// An operand and `NOT`.
    Denied(Part),
    /// An operand and `[NOT] IN`.
    Among {
        negated: bool,
        left: Part,
    },
    /// An operand and `[NOT] LIKE` or `[NOT] RLIKE`.
    Matching {
        negated: bool,
        regex: bool,
        left: Part,
    },
    /// An operand and `IS`.
    Testing(Part),
    /// An operand and `IS NOT`.
    TestingNot(Part),
    /// An operand and `::`.
    Casting(Part),
    /// In a list a literal has to come.
    Listing {
        opening: Span,
        values: Seq<Value>,
    },
    /// In a list a `-`.
    Negating {
        opening: Span,
        values: Seq<Value>,
    },
    /// In a list a literal.
    Listed {
        opening: Span,
        values: Seq<Value>,
    },
}

/// An expression that is being read: the line of the grammar that it has to be in, what stands open, the innermost first,
/// and what was read last.
#[derive(Drop)]
pub struct Reader {
    pub least: u8,
    pub frames: Stack<Frame>,
    pub top: Top,
}

/// What a lexeme makes of an expression that is being read.
#[derive(Drop)]
pub enum Stepped {
    /// The expression goes on with it.
    Goes(Reader),
    /// The expression ended before it.
    Ends { part: Part, next: Lexeme },
    /// No expression goes on so or ends there.
    Stuck,
}

/// What goes on with an operand.
#[derive(Clone, Copy)]
pub enum Opener {
    Infix(BinaryOp),
    Not,
    In,
    Like { regex: bool },
    Is,
    Cast,
}
