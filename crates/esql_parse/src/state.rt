use esql_ast::{Command, SourceCommand};
use esql_commands::{Point, Slot};
use esql_expr::Reader;
use esql_types::{Seq, Span};

/// A query as it is written, without the numbers of its nodes.
#[derive(Drop)]
pub struct Written {
    pub source: SourceCommand,
    pub commands: Seq<Command>,
}

/// What was read of a query: its commands up to the last `|`, the greatest depth of an expression that ended, the word
/// that the open command began with, and the lexeme that was read last.
#[derive(Drop)]
pub struct Progress {
    pub before: Option<Written>,
    pub deepest: u32,
    pub word: Span,
    pub last: Span,
}

/// What has to come in a query.
#[derive(Drop)]
pub enum Inside {
    /// The word of a command: of the source command, or of another after `|`.
    Begin,
    /// More of the expression that stands open in a slot of the open command.
    Open { slot: Slot, reader: Reader },
    /// A lexeme of the open command.
    At(Point),
    /// Nothing: the end was read.
    Done,
}

/// A query that is being read.
#[derive(Drop)]
pub struct State {
    pub progress: Progress,
    pub inside: Inside,
}
