/// A rule of names and kinds that a query can break; the place is told beside it.
#[derive(Clone, Copy, Debug, PartialEq, Eq)]
pub enum NameRule {
    UnknownTable,
    UnknownColumn,
    NoMatch,
    UnknownFunction,
    BadArguments,
    BadKind,
    NotBoolean,
    NotAggregate,
    NestedAggregate,
    UnknownPolicy,
    BadDissect,
    BadGrok,
    BadRegex,
    EmptyResultColumns,
}
