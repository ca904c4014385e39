ghost use Rattle.std.specs.Prelude.{◌≡◌};
ghost use Rattle.esql_lex.specs.Words.{spelling_of};

use esql_types::Span;

/// A token of a query: what it is, and where it stands.
#[derive(Clone, Copy, Debug, PartialEq, Eq)]
pub struct Token {
    pub kind: TokenKind,
    pub span: Span,
}

/// What a token is.
#[derive(Clone, Copy, Debug, PartialEq, Eq)]
pub enum TokenKind {
    /// Parts joined by dots, none of them a reserved word where it stands alone.
    Name,
    /// A name in backticks.
    QuotedName,
    /// A name that may have `*`, in the patterns of KEEP and DROP.
    Pattern,
    /// The name of a table or of a policy.
    Source,
    /// A text in quotes.
    Text,
    /// A whole number, which has no sign of its own.
    Number { value: i64 },
    /// A reserved word.
    Word { word: Reserved },
    /// A sign.
    Sign { sign: Sign },
    /// The end of the query, which is empty.
    End,
}

/// A word that is never a name.
#[derive(Clone, Copy, Debug, PartialEq, Eq)]
pub enum Reserved {
    And,
    Or,
    Not,
    In,
    Is,
    Like,
    Rlike,
    Null,
    True,
    False,
    Asc,
    Desc,
    Nulls,
    First,
    Last,
    By,
    As,
    On,
    With,
}

/// A mark of one character or two.
#[derive(Clone, Copy, Debug, PartialEq, Eq)]
pub enum Sign {
    Bar,
    Comma,
    OpenParen,
    CloseParen,
    OpenBracket,
    CloseBracket,
    Plus,
    Minus,
    Star,
    Slash,
    Percent,
    Equal,
    NotEqual,
    Less,
    LessEqual,
    Greater,
    GreaterEqual,
    Assign,
    Cast,
}

impl Reserved {
    /// Every reserved word.
    pub const ALL: [Reserved; 19] = [
        Reserved::And,
        Reserved::Or,
        Reserved::Not,
        Reserved::In,
        Reserved::Is,
        Reserved::Like,
        Reserved::Rlike,
        Reserved::Null,
        Reserved::True,
        Reserved::False,
        Reserved::Asc,
        Reserved::Desc,
        Reserved::Nulls,
        Reserved::First,
        Reserved::Last,
        Reserved::By,
        Reserved::As,
        Reserved::On,
        Reserved::With,
    ];

    /// The word in small letters.
    pub fn spelling(self) -> &'static str
        ensures { result.now ≡ spelling_of self }
    {
        match self {
            Reserved::And => "and",
            Reserved::Or => "or",
            Reserved::Not => "not",
            Reserved::In => "in",
            Reserved::Is => "is",
            Reserved::Like => "like",
            Reserved::Rlike => "rlike",
            Reserved::Null => "null",
            Reserved::True => "true",
            Reserved::False => "false",
            Reserved::Asc => "asc",
            Reserved::Desc => "desc",
            Reserved::Nulls => "nulls",
            Reserved::First => "first",
            Reserved::Last => "last",
            Reserved::By => "by",
            Reserved::As => "as",
            Reserved::On => "on",
            Reserved::With => "with",
        }
    }
}
