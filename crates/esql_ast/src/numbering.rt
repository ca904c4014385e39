//! The nodes of a tree get their numbers in written order: the outer before the inner, from the left.

ghost use Rattle.std.specs.Prelude.{◌≡◌, ◌+◌, ◌<◌, ◌^◌, map, IfOk, OnOk};
ghost use Rattle.esql_ast.specs.Numbering.{numbering_of, numbering_of_field, numbering_of_condition, numbering_of_stats, numbering_of_command, size_all, numbered_all, size_of, numbered, size_of_form, numbered_form, IsLeafOrTest, size_of_fields, numbered_fields, size_of_stats, numbered_stats, size_of_keys, numbered_keys, size_of_kind, numbered_kind, size_of_commands, numbered_commands, size_of_source, numbered_source, size_of_query, numbered_query};

use crate::{
    Command, CommandKind, Condition, Expr, Field, Form, Query, SortKey, SourceCommand, StatsField,
};
use esql_types::{Boxed, NodeId, Seq};
use std::alloc::{AllocError, Global};

/// The query of a source command and the commands after it, its nodes numbered from 0 in written order.
pub fn numbered_query(
    alloc: Global,
    source: SourceCommand,
    commands: Seq<Command>,
) -> Result<Query, AllocError>
    requires { size_of_query source commands < 2 ^ 32 }
    ensures { IfOk result (λ query. query ≡ numbered_query source commands) }
{
    let mut nodes = 0;
    let source = number_source(alloc, &mut nodes, source)?;
    let commands = number_commands(alloc, &mut nodes, commands)?;
    Ok(Query {
        source,
        commands,
        nodes,
    })
}

fn number_source(
    alloc: Global,
    next: &mut u32,
    source: SourceCommand,
) -> Result<SourceCommand, AllocError>
    requires start { next.old ≡ 0 }
    requires room { size_of_source source < 2 ^ 32 }
    ensures source { IfOk result (λ made. made ≡ numbered_source source) }
    ensures next { OnOk result (next.new ≡ size_of_source source) }
{
    match source {
        SourceCommand::Tables { span, tables, .. } => Ok(SourceCommand::Tables {
            node: next_node(next),
            span,
            tables,
        }),
        SourceCommand::OneRow { span, fields, .. } => Ok(SourceCommand::OneRow {
            node: next_node(next),
            span,
            fields: number_fields(alloc, next, fields)?,
        }),
    }
}

fn number_commands(
    alloc: Global,
    next: &mut u32,
    commands: Seq<Command>,
) -> Result<Seq<Command>, AllocError>
    requires { next.old + size_of_commands commands < 2 ^ 32 }
    ensures commands { IfOk result (λ made. made ≡ numbered_commands commands next.old) }
    ensures next { OnOk result (next.new ≡ next.old + size_of_commands commands) }
{
    let mut made = Seq::new(alloc);
    for command in commands.into_vec() {
        made.push(number_command(alloc, next, command)?)?;
    }
    Ok(made)
}

fn number_command(alloc: Global, next: &mut u32, command: Command) -> Result<Command, AllocError>
    requires { next.old + (numbering_of_command command).size < 2 ^ 32 }
    ensures command { IfOk result (λ made. made ≡ (numbering_of_command command).at next.old) }
    ensures next { OnOk result (next.new ≡ next.old + (numbering_of_command command).size) }
{
    let Command { span, kind, .. } = command;
    let node = next_node(next);
    let kind = number_kind(alloc, next, kind)?;
    Ok(Command { node, span, kind })
}

fn number_kind(alloc: Global, next: &mut u32, kind: CommandKind) -> Result<CommandKind, AllocError>
    requires { next.old + size_of_kind kind < 2 ^ 32 }
    ensures kind { IfOk result (λ made. made ≡ numbered_kind kind next.old) }
    ensures next { OnOk result (next.new ≡ next.old + size_of_kind kind) }
{
    match kind {
        CommandKind::Filter { condition } => Ok(CommandKind::Filter {
            condition: number_expr(alloc, next, condition)?,
        }),
        CommandKind::Eval { fields } => Ok(CommandKind::Eval {
            fields: number_fields(alloc, next, fields)?,
        }),
        CommandKind::Sort { keys } => Ok(CommandKind::Sort {
            keys: number_keys(alloc, next, keys)?,
        }),
        CommandKind::Stats { fields, groups } => Ok(CommandKind::Stats {
            fields: number_stats(alloc, next, fields)?,
            groups: number_fields(alloc, next, groups)?,
        }),
        CommandKind::Dissect {
            input,
            pattern,
            separator,
        } => Ok(CommandKind::Dissect {
            input: number_expr(alloc, next, input)?,
            pattern,
            separator,
        }),
        CommandKind::Grok { input, pattern } => Ok(CommandKind::Grok {
            input: number_expr(alloc, next, input)?,
            pattern,
        }),
        without_nodes => Ok(without_nodes),
    }
}

fn number_fields(
    alloc: Global,
    next: &mut u32,
    fields: Seq<Field>,
) -> Result<Seq<Field>, AllocError>
    requires { next.old + size_of_fields fields < 2 ^ 32 }
    ensures fields { IfOk result (λ made. made ≡ numbered_fields fields next.old) }
    ensures next { OnOk result (next.new ≡ next.old + size_of_fields fields) }
{
    let mut made = Seq::new(alloc);
    for field in fields.into_vec() {
        made.push(number_field(alloc, next, field)?)?;
    }
    Ok(made)
}

fn number_field(alloc: Global, next: &mut u32, field: Field) -> Result<Field, AllocError>
    requires { next.old + size_of field.expr < 2 ^ 32 }
    ensures field { IfOk result (λ made. made ≡ (numbering_of_field field).at next.old) }
    ensures next { OnOk result (next.new ≡ next.old + size_of field.expr) }
{
    let Field { name, expr, span } = field;
    let expr = number_expr(alloc, next, expr)?;
    Ok(Field { name, expr, span })
}

fn number_keys(
    alloc: Global,
    next: &mut u32,
    keys: Seq<SortKey>,
) -> Result<Seq<SortKey>, AllocError>
    requires { next.old + size_of_keys keys < 2 ^ 32 }
    ensures keys { IfOk result (λ made. made ≡ numbered_keys keys next.old) }
    ensures next { OnOk result (next.new ≡ next.old + size_of_keys keys) }
{
    let mut made = Seq::new(alloc);
    for key in keys.into_vec() {
        let SortKey {
            expr,
            descending,
            nulls_first,
        } = key;
        let expr = number_expr(alloc, next, expr)?;
        made.push(SortKey {
            expr,
            descending,
            nulls_first,
        })?;
    }
    Ok(made)
}

fn number_stats(
    alloc: Global,
    next: &mut u32,
    fields: Seq<StatsField>,
) -> Result<Seq<StatsField>, AllocError>
    requires { next.old + size_of_stats fields < 2 ^ 32 }
    ensures fields { IfOk result (λ made. made ≡ numbered_stats fields next.old) }
    ensures next { OnOk result (next.new ≡ next.old + size_of_stats fields) }
{
    let mut made = Seq::new(alloc);
    for stats in fields.into_vec() {
        made.push(number_stats_field(alloc, next, stats)?)?;
    }
    Ok(made)
}

fn number_stats_field(
    alloc: Global,
    next: &mut u32,
    stats: StatsField,
) -> Result<StatsField, AllocError>
    requires { next.old + (numbering_of_stats stats).size < 2 ^ 32 }
    ensures stats { IfOk result (λ made. made ≡ (numbering_of_stats stats).at next.old) }
    ensures next { OnOk result (next.new ≡ next.old + (numbering_of_stats stats).size) }
{
    let StatsField { field, condition } = stats;
    let field = number_field(alloc, next, field)?;
    let condition = number_condition(alloc, next, condition)?;
    Ok(StatsField { field, condition })
}

fn number_condition(
    alloc: Global,
    next: &mut u32,
    condition: Option<Condition>,
) -> Result<Option<Condition>, AllocError>
    requires { next.old + (numbering_of_condition condition).size < 2 ^ 32 }
    ensures condition { IfOk result (λ made. made ≡ (numbering_of_condition condition).at next.old) }
    ensures next { OnOk result (next.new ≡ next.old + (numbering_of_condition condition).size) }
{
    match condition {
        None => Ok(None),
        Some(condition) => {
            let node = next_node(next);
            let expr = number_expr(alloc, next, condition.expr)?;
            Ok(Some(Condition { node, expr }))
        }
    }
}

// The next number, which is then taken.
fn next_node(next: &mut u32) -> NodeId
    requires { next.old + 1 < 2 ^ 32 }
    ensures node { result.0 ≡ next.old }
    ensures next { next.new ≡ next.old + 1 }
{
    let node = NodeId(*next);
    *next += 1;
    node
}

#[cycle(number)]
fn number_expr(alloc: Global, next: &mut u32, expr: Expr) -> Result<Expr, AllocError>
    requires { next.old + size_of expr < 2 ^ 32 }
    ensures expr { IfOk result (λ made. made ≡ numbered expr next.old) }
    ensures next { OnOk result (next.new ≡ next.old + size_of expr) }
{
    let Expr { span, form, .. } = expr;
    let node = next_node(next);
    let form = number_form(alloc, next, form)?;
    Ok(Expr { node, span, form })
}

#[cycle(number)]
fn number_boxed(alloc: Global, next: &mut u32, expr: Boxed<Expr>) -> Result<Boxed<Expr>, AllocError>
    requires { next.old + size_of expr < 2 ^ 32 }
    ensures expr { IfOk result (λ made. made ≡ numbered expr next.old) }
    ensures next { OnOk result (next.new ≡ next.old + size_of expr) }
{
    let made = number_expr(alloc, next, expr.into_inner())?;
    Boxed::new(alloc, made)
}

#[cycle(number)]
fn number_exprs(alloc: Global, next: &mut u32, exprs: Seq<Expr>) -> Result<Seq<Expr>, AllocError>
    requires { next.old + size_all (map numbering_of exprs) < 2 ^ 32 }
    ensures exprs { IfOk result (λ made. made ≡ numbered_all (map numbering_of exprs) next.old) }
    ensures next { OnOk result (next.new ≡ next.old + size_all (map numbering_of exprs)) }
{
    let mut made = Seq::new(alloc);
    for expr in exprs.into_vec() {
        made.push(number_expr(alloc, next, expr)?)?;
    }
    Ok(made)
}

#[cycle(number)]
fn number_form(alloc: Global, next: &mut u32, form: Form) -> Result<Form, AllocError>
    requires { next.old + size_of_form form < 2 ^ 32 }
    ensures form { IfOk result (λ made. made ≡ numbered_form form next.old) }
    ensures next { OnOk result (next.new ≡ next.old + size_of_form form) }
{
    match form {
        Form::Group { inner } => Ok(Form::Group {
            inner: number_boxed(alloc, next, inner)?,
        }),
        Form::Call {
            function,
            args,
            star,
        } => Ok(Form::Call {
            function,
            args: number_exprs(alloc, next, args)?,
            star,
        }),
        Form::Minus { arg } => Ok(Form::Minus {
            arg: number_boxed(alloc, next, arg)?,
        }),
        Form::Not { arg } => Ok(Form::Not {
            arg: number_boxed(alloc, next, arg)?,
        }),
        Form::Binary { op, left, right } => Ok(Form::Binary {
            op,
            left: number_boxed(alloc, next, left)?,
            right: number_boxed(alloc, next, right)?,
        }),
        Form::Cast { arg, kind } => Ok(Form::Cast {
            arg: number_boxed(alloc, next, arg)?,
            kind,
        }),
        leaf_or_test => number_test(alloc, next, leaf_or_test),
    }
}

// A form without expressions, or a test: `IN`, `LIKE` or `IS NULL`.
#[cycle(number)]
fn number_test(alloc: Global, next: &mut u32, form: Form) -> Result<Form, AllocError>
    requires room { next.old + size_of_form form < 2 ^ 32 }
    requires form { IsLeafOrTest form }
    ensures form { IfOk result (λ made. made ≡ numbered_form form next.old) }
    ensures next { OnOk result (next.new ≡ next.old + size_of_form form) }
{
    match form {
        Form::Within {
            negated,
            left,
            items,
        } => Ok(Form::Within {
            negated,
            left: number_boxed(alloc, next, left)?,
            items: number_exprs(alloc, next, items)?,
        }),
        Form::Like {
            negated,
            regex,
            left,
            pattern,
        } => Ok(Form::Like {
            negated,
            regex,
            left: number_boxed(alloc, next, left)?,
            pattern,
        }),
        Form::IsNull { negated, arg } => Ok(Form::IsNull {
            negated,
            arg: number_boxed(alloc, next, arg)?,
        }),
        leaf => Ok(leaf),
    }
}
