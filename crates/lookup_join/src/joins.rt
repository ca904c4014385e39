ghost use Rattle.std.specs.Prelude.{◌≡◌, ◌++◌, [], ◌∷◌, IfOk, OnOk};
ghost use Rattle.lookup_join.specs.Extended.{joins_in_kind, joins_of, pairs_of_joins, tables_of_joins};

use esql_ast::{CommandKind, Query};
use esql_types::{Seq, Text};
use std::alloc::{AllocError, Global};
use std::collections::BTreeSet;

/// A LOOKUP JOIN: the name of its table, and that of its column.
#[derive(Drop)]
pub struct JoinAt {
    pub table: Text,
    pub column: Text,
}

/// Each LOOKUP JOIN of a query, in written order.
pub(crate) fn joins_of(alloc: Global, query: &Query) -> Result<Seq<JoinAt>, AllocError>
    ensures { IfOk result (λ joins. joins ≡ joins_of query.now) }
{
    let mut joins = Seq::new(alloc);
    for command in query.commands.as_slice() {
        push_join(&mut joins, &command.kind)?;
    }
    Ok(joins)
}

fn push_join(joins: &mut Seq<JoinAt>, kind: &CommandKind) -> Result<(), AllocError>
    ensures { OnOk result (joins.new ≡ joins.old ++ joins_in_kind kind.now) }
{
    match kind {
        CommandKind::Join { table, on } => joins.push(JoinAt {
            table: table.name.copy()?,
            column: on.name.copy()?,
        }),
        _ => Ok(()),
    }
}

/// The tables of joins, each once, at its first mention.
pub(crate) fn tables_of_joins(alloc: Global, joins: &[JoinAt]) -> Result<Seq<Text>, AllocError>
    ensures { IfOk result (λ names. names ≡ tables_of_joins joins.now) }
{
    let mut seen = BTreeSet::new(alloc);
    let mut names = Seq::new(alloc);
    for join in joins {
        if seen.insert(join.table.as_str())? {
            names.push(join.table.copy()?)?;
        }
    }
    Ok(names)
}

/// The pairs of a table and a column of joins, each once, at its first mention.
pub(crate) fn pairs_of_joins(alloc: Global, joins: &[JoinAt]) -> Result<Seq<JoinAt>, AllocError>
    ensures { IfOk result (λ pairs. pairs ≡ pairs_of_joins joins.now) }
{
    let mut seen = BTreeSet::new(alloc);
    let mut pairs = Seq::new(alloc);
    for join in joins {
        if seen.insert((join.table.as_str(), join.column.as_str()))? {
            pairs.push(copy_join(join)?)?;
        }
    }
    Ok(pairs)
}

fn copy_join(join: &JoinAt) -> Result<JoinAt, AllocError>
    ensures { IfOk result (λ copy. copy ≡ join.now) }
{
    Ok(JoinAt {
        table: join.table.copy()?,
        column: join.column.copy()?,
    })
}
