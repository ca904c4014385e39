ghost use Rattle.std.specs.Prelude.{◌≡◌, [], fold, false, IfOk, OnOk};
ghost use Rattle.std.specs.List.{list_any};
ghost use Rattle.esql_ast.specs.Uses.{same_bool, is_use_of, with_use, uses_in_source, with_kind, source_names};

use crate::{CommandKind, NameAt, Query, SourceCommand};
use esql_types::Seq;
use std::alloc::{AllocError, Global};

/// The name of a table or of a policy that a query uses, where it uses it first.
#[derive(Drop)]
pub struct SourceUse {
    pub name: NameAt,
    pub policy: bool,
}

/// The tables and policies that a query names, each once, at its first place, in written order.
pub fn source_names(alloc: Global, query: &Query) -> Result<Seq<SourceUse>, AllocError>
    ensures { IfOk result (λ uses. uses ≡ source_names query.now) }
{
    let mut uses = uses_in_source(alloc, &query.source)?;
    for command in query.commands.as_slice() {
        add_kind(&mut uses, &command.kind)?;
    }
    Ok(uses)
}

fn uses_in_source(alloc: Global, source: &SourceCommand) -> Result<Seq<SourceUse>, AllocError>
    ensures { IfOk result (λ uses. uses ≡ uses_in_source source.now) }
{
    let mut uses = Seq::new(alloc);
    if let SourceCommand::Tables { tables, .. } = source {
        for table in tables.as_slice() {
            add_use(&mut uses, table, false)?;
        }
    }
    Ok(uses)
}

fn add_kind(uses: &mut Seq<SourceUse>, kind: &CommandKind) -> Result<(), AllocError>
    ensures { OnOk result (uses.new ≡ with_kind uses.old kind.now) }
{
    match kind {
        CommandKind::Enrich { policy, .. } => add_use(uses, policy, true),
        CommandKind::Join { table, .. } => add_use(uses, table, false),
        _ => Ok(()),
    }
}

fn same_bool(left: bool, right: bool) -> bool
    ensures { result ≡ same_bool left right }
{
    if left { right } else { !right }
}

fn is_use_of(name: &str, policy: bool, used: &SourceUse) -> bool
    ensures { result ≡ is_use_of name.now policy used.now }
{
    used.name.name.as_str() == name && same_bool(used.policy, policy)
}

fn has_use(uses: &[SourceUse], name: &str, policy: bool) -> bool
    ensures { result ≡ list_any (is_use_of name.now policy) uses.now }
{
    uses.iter().any(|used| is_use_of(name, policy, used))
}

fn copy_name(name: &NameAt) -> Result<NameAt, AllocError>
    ensures { IfOk result (λ copy. copy ≡ name.now) }
{
    Ok(NameAt {
        name: name.name.copy()?,
        span: name.span,
    })
}

fn add_use(uses: &mut Seq<SourceUse>, name: &NameAt, policy: bool) -> Result<(), AllocError>
    ensures { OnOk result (uses.new ≡ with_use policy uses.old name.now) }
{
    if has_use(uses.as_slice(), name.name.as_str(), policy) {
        return Ok(());
    }
    let name = copy_name(name)?;
    uses.push(SourceUse { name, policy })
}
