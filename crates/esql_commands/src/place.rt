use crate::{
    Clause, DissectPoint, EnrichPoint, FromPoint, JoinPoint, PatternPoint, PatternUse, RenamePoint,
    SortPoint,
};
use esql_ast::{CommandKind, Field, NameAt, SortKey, StatsField};
use esql_phrases::{Lexeme, Part};
use esql_types::Seq;

/// Where an expression has to come in a command, with what was read before it.
#[derive(Drop)]
pub enum Slot {
    /// In a field, after others and perhaps a name.
    Field {
        clause: Clause,
        fields: Seq<Field>,
        name: Option<NameAt>,
    },
    /// In a field of STATS.
    Aggregate {
        fields: Seq<StatsField>,
        name: Option<NameAt>,
    },
    /// In the condition of a field of STATS.
    Condition {
        fields: Seq<StatsField>,
        field: Field,
    },
    /// After WHERE.
    Filter,
    /// In a key of SORT.
    Key {
        keys: Seq<SortKey>,
    },
    /// After DISSECT.
    Dissect,
    /// After GROK.
    Grok,
}

/// What was read last, where a lexeme has to come, with what was read before it.
#[derive(Drop)]
pub enum Point {
    /// An expression, whole.
    Ended { slot: Slot, part: Part },
    From(FromPoint),
    /// In KEEP or DROP.
    Pattern { of: PatternUse, here: PatternPoint },
    Rename(RenamePoint),
    Sort(SortPoint),
    /// LIMIT.
    Limit,
    /// MV_EXPAND.
    Expand,
    /// STATS.
    Stats,
    Dissect(DissectPoint),
    Enrich(EnrichPoint),
    Join(JoinPoint),
    /// The last lexeme that the command can have.
    Whole(CommandKind),
}

/// What has to come in a command: a lexeme, or an expression.
#[derive(Drop)]
pub enum Place {
    At(Point),
    Expression(Slot),
}

/// What a lexeme makes of a command.
#[derive(Drop)]
pub enum Move {
    /// The command continues after the lexeme.
    To(Place),
    /// The lexeme is handed back, since it has to begin an expression.
    Begins { slot: Slot, next: Lexeme },
}

/// What a command says, once it has ended.
#[derive(Drop)]
pub enum CommandEnd {
    From(Seq<NameAt>),
    Row(Seq<Field>),
    /// A command that stands after `|`.
    Piped(CommandKind),
}
