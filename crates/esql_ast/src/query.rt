use crate::Expr;
use esql_types::{NodeId, Seq, Span, Text};

/// A query: where its rows come from, what is done to them one command after another, and how many nodes it has.
#[derive(Drop)]
pub struct Query {
    pub source: SourceCommand,
    pub commands: Seq<Command>,
    pub nodes: u32,
}

/// A name, and where it stands.
#[derive(Drop)]
pub struct NameAt {
    pub name: Text,
    pub span: Span,
}

/// A text in quotes, without its quotes and escapes, and where it stands.
#[derive(Drop)]
pub struct TextAt {
    pub text: Text,
    pub span: Span,
}

/// A field of a command: an expression, perhaps with a name. The span is the expression's.
#[derive(Drop)]
pub struct Field {
    pub name: Option<NameAt>,
    pub expr: Expr,
    pub span: Span,
}

/// A condition that the aggregates of a field obey.
#[derive(Drop)]
pub struct Condition {
    pub node: NodeId,
    pub expr: Expr,
}

/// A field of STATS, perhaps with a condition.
#[derive(Drop)]
pub struct StatsField {
    pub field: Field,
    pub condition: Option<Condition>,
}

/// A full name, or a pattern that has a `*`.
#[derive(Drop)]
pub struct NamePattern {
    pub text: Text,
    pub wild: bool,
    pub span: Span,
}

/// The name of a column before and after RENAME.
#[derive(Drop)]
pub struct RenamePair {
    pub before: NameAt,
    pub after: NameAt,
}

/// What rows are sorted by.
#[derive(Drop)]
pub struct SortKey {
    pub expr: Expr,
    pub descending: bool,
    pub nulls_first: bool,
}

/// A field of a policy, perhaps with a new name.
#[derive(Drop)]
pub struct EnrichItem {
    pub name: Option<NameAt>,
    pub field: NameAt,
}

/// The command that a query begins with.
#[derive(Drop)]
pub enum SourceCommand {
    /// The rows of tables.
    Tables {
        node: NodeId,
        span: Span,
        tables: Seq<NameAt>,
    },
    /// One row, whose fields are evaluated on a row without columns.
    OneRow {
        node: NodeId,
        span: Span,
        fields: Seq<Field>,
    },
}

/// A command that makes a table of a table.
#[derive(Drop)]
pub struct Command {
    pub node: NodeId,
    pub span: Span,
    pub kind: CommandKind,
}

#[derive(Drop)]
pub enum CommandKind {
    /// WHERE: the rows whose condition is true stay.
    Filter {
        condition: Expr,
    },
    /// Each field in turn replaces the column of its name, or appends one.
    Eval {
        fields: Seq<Field>,
    },
    Keep {
        patterns: Seq<NamePattern>,
    },
    Drop {
        patterns: Seq<NamePattern>,
    },
    Rename {
        pairs: Seq<RenamePair>,
    },
    Sort {
        keys: Seq<SortKey>,
    },
    Limit {
        count: u64,
    },
    /// MV_EXPAND: a row for each value of the column.
    Expand {
        column: NameAt,
    },
    Stats {
        fields: Seq<StatsField>,
        groups: Seq<Field>,
    },
    Dissect {
        input: Expr,
        pattern: TextAt,
        separator: Text,
    },
    Grok {
        input: Expr,
        pattern: TextAt,
    },
    Enrich {
        policy: NameAt,
        on: Option<NameAt>,
        fields: Option<Seq<EnrichItem>>,
    },
    /// LOOKUP JOIN.
    Join {
        table: NameAt,
        on: NameAt,
    },
}
