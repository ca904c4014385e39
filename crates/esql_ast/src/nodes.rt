ghost use Rattle.std.specs.Prelude.{◌≡◌, [], ◌∷◌, ◌++◌, IfOk, OnOk};
ghost use Rattle.std.specs.List.{flat_map};
ghost use Rattle.esql_ast.specs.Nodes.{nodes_of_expr, nodes_of_form, nodes_of_field, nodes_of_stats, nodes_of_key, nodes_of_condition, nodes_of_kind, nodes_of_source, warned_at, warned_nodes_of_command, warned_nodes_of};

use crate::{
    Command, CommandKind, Condition, Expr, Field, Form, Query, SortKey, SourceCommand, StatsField,
};
use esql_types::{NodeId, Seq, Span};
use std::alloc::{AllocError, Global};

/// A node of a query, and a place of it.
#[derive(Clone, Copy, Debug)]
pub struct NodeAt {
    pub node: NodeId,
    pub span: Span,
}

/// The nodes of a query in written order, the outer before the inner, from the left, each where its failures are said to be: at
/// its own place, but those of WHERE at the condition, and those of DISSECT and GROK at the input.
pub fn warned_nodes_of(alloc: Global, query: &Query) -> Result<Seq<NodeAt>, AllocError>
    ensures { IfOk result (λ nodes. nodes ≡ warned_nodes_of query.now) }
{
    let mut nodes = Seq::new(alloc);
    push_source(&mut nodes, &query.source)?;
    for command in query.commands.as_slice() {
        push_command(&mut nodes, command)?;
    }
    Ok(nodes)
}

fn push_source(nodes: &mut Seq<NodeAt>, source: &SourceCommand) -> Result<(), AllocError>
    ensures { OnOk result (nodes.new ≡ nodes.old ++ nodes_of_source source.now) }
{
    match source {
        SourceCommand::Tables { node, span, .. } => push_node(nodes, *node, *span),
        SourceCommand::OneRow { node, span, fields } => {
            push_node(nodes, *node, *span)?;
            push_fields(nodes, fields)
        }
    }
}

fn push_node(nodes: &mut Seq<NodeAt>, node: NodeId, span: Span) -> Result<(), AllocError>
    ensures { OnOk result (nodes.new ≡ nodes.old ++ record { node = node; span = span } ∷ []) }
{
    nodes.push(NodeAt { node, span })
}

fn push_command(nodes: &mut Seq<NodeAt>, command: &Command) -> Result<(), AllocError>
    ensures { OnOk result (nodes.new ≡ nodes.old ++ warned_nodes_of_command command.now) }
{
    push_node(nodes, command.node, warned_at(command.span, &command.kind))?;
    push_kind(nodes, &command.kind)
}

/// Where the failures of a command's own node are said to be.
fn warned_at(span: Span, kind: &CommandKind) -> Span
    ensures { result ≡ warned_at span kind.now }
{
    match kind {
        CommandKind::Filter { condition } => condition.span,
        CommandKind::Dissect { input, .. } | CommandKind::Grok { input, .. } => input.span,
        CommandKind::Eval { .. }
        | CommandKind::Keep { .. }
        | CommandKind::Drop { .. }
        | CommandKind::Rename { .. }
        | CommandKind::Sort { .. }
        | CommandKind::Limit { .. }
        | CommandKind::Expand { .. }
        | CommandKind::Stats { .. }
        | CommandKind::Enrich { .. }
        | CommandKind::Join { .. } => span,
    }
}

fn push_kind(nodes: &mut Seq<NodeAt>, kind: &CommandKind) -> Result<(), AllocError>
    ensures { OnOk result (nodes.new ≡ nodes.old ++ nodes_of_kind kind.now) }
{
    match kind {
        CommandKind::Filter { condition } => push_expr(nodes, condition),
        CommandKind::Eval { fields } => push_fields(nodes, fields),
        CommandKind::Sort { keys } => push_keys(nodes, keys),
        CommandKind::Stats { fields, groups } => {
            push_stats_fields(nodes, fields)?;
            push_fields(nodes, groups)
        }
        CommandKind::Dissect { input, .. } => push_expr(nodes, input),
        CommandKind::Grok { input, .. } => push_expr(nodes, input),
        CommandKind::Keep { .. }
        | CommandKind::Drop { .. }
        | CommandKind::Rename { .. }
        | CommandKind::Limit { .. }
        | CommandKind::Expand { .. }
        | CommandKind::Enrich { .. }
        | CommandKind::Join { .. } => Ok(()),
    }
}

fn push_fields(nodes: &mut Seq<NodeAt>, fields: &Seq<Field>) -> Result<(), AllocError>
    ensures { OnOk result (nodes.new ≡ nodes.old ++ flat_map nodes_of_field fields.now) }
{
    for field in fields.as_slice() {
        push_expr(nodes, &field.expr)?;
    }
    Ok(())
}

fn push_keys(nodes: &mut Seq<NodeAt>, keys: &Seq<SortKey>) -> Result<(), AllocError>
    ensures { OnOk result (nodes.new ≡ nodes.old ++ flat_map nodes_of_key keys.now) }
{
    for key in keys.as_slice() {
        push_expr(nodes, &key.expr)?;
    }
    Ok(())
}

fn push_stats_fields(nodes: &mut Seq<NodeAt>, fields: &Seq<StatsField>) -> Result<(), AllocError>
    ensures { OnOk result (nodes.new ≡ nodes.old ++ flat_map nodes_of_stats fields.now) }
{
    for stats in fields.as_slice() {
        push_expr(nodes, &stats.field.expr)?;
        push_condition(nodes, &stats.condition)?;
    }
    Ok(())
}

fn push_condition(nodes: &mut Seq<NodeAt>, condition: &Option<Condition>) -> Result<(), AllocError>
    ensures { OnOk result (nodes.new ≡ nodes.old ++ nodes_of_condition condition.now) }
{
    match condition {
        None => Ok(()),
        Some(condition) => {
            push_node(nodes, condition.node, condition.expr.span)?;
            push_expr(nodes, &condition.expr)
        }
    }
}

#[cycle(push)]
fn push_expr(nodes: &mut Seq<NodeAt>, expr: &Expr) -> Result<(), AllocError>
    ensures { OnOk result (nodes.new ≡ nodes.old ++ nodes_of_expr expr.now) }
{
    push_node(nodes, expr.node, expr.span)?;
    push_form(nodes, &expr.form)
}

#[cycle(push)]
fn push_form(nodes: &mut Seq<NodeAt>, form: &Form) -> Result<(), AllocError>
    ensures { OnOk result (nodes.new ≡ nodes.old ++ nodes_of_form form.now) }
{
    match form {
        Form::Constant { .. } | Form::List { .. } | Form::Column { .. } => Ok(()),
        Form::Group { inner } => push_expr(nodes, inner.get()),
        Form::Minus { arg } => push_expr(nodes, arg.get()),
        Form::Not { arg } => push_expr(nodes, arg.get()),
        Form::IsNull { arg, .. } => push_expr(nodes, arg.get()),
        Form::Cast { arg, .. } => push_expr(nodes, arg.get()),
        Form::Like { left, .. } => push_expr(nodes, left.get()),
        Form::Call { args, .. } => push_exprs(nodes, args),
        Form::Binary { left, right, .. } => {
            push_expr(nodes, left.get())?;
            push_expr(nodes, right.get())
        }
        Form::Within { left, items, .. } => {
            push_expr(nodes, left.get())?;
            push_exprs(nodes, items)
        }
    }
}

#[cycle(push)]
fn push_exprs(nodes: &mut Seq<NodeAt>, exprs: &Seq<Expr>) -> Result<(), AllocError>
    ensures { OnOk result (nodes.new ≡ nodes.old ++ flat_map nodes_of_expr exprs.now) }
{
    for expr in exprs.as_slice() {
        push_expr(nodes, expr)?;
    }
    Ok(())
}
