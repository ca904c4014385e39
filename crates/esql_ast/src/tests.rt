ghost use Rattle.std.specs.Prelude.{◌≡◌, ◌+◌, IfOk};
ghost use Rattle.esql_ast.specs.Numbering.{numbering_of_command, size_of, size_of_source};

use crate::{
    BinaryOp, Command, CommandKind, Condition, Expr, Field, Form, SourceCommand, StatsField,
    numbered_query, warned_nodes_of,
};
use esql_types::{Boxed, Cell, Kind, NodeId, Seq, Span};
use std::alloc::{AllocError, Global};
use std::test::Fail;

// Where the failures of the nodes of the query are said to be, in written order.
const PLACES: [u32; 14] = [0, 10, 11, 12, 21, 21, 22, 23, 24, 25, 30, 31, 32, 32];

fn span(at: u32) -> Span {
    Span { from: at, to: at }
}

fn expr(at: u32, form: Form) -> Expr
    ensures { result.form ≡ form }
{
    Expr {
        node: NodeId(0),
        span: span(at),
        form,
    }
}

#[tactic(auto, using(crate::proofs::Numberings::expr_size, crate::proofs::Numberings::constant_size))]
fn null(alloc: Global, at: u32) -> Expr
    ensures { size_of result ≡ 1 }
{
    expr(
        at,
        Form::Constant {
            cell: Cell::null(alloc),
            kind: Kind::Null,
        },
    )
}

#[tactic(auto, using(crate::proofs::Numberings::expr_size, crate::proofs::Numberings::binary_size))]
fn sum(alloc: Global, at: u32, left: Expr, right: Expr) -> Result<Expr, AllocError>
    ensures { IfOk result (λ made. size_of made ≡ 1 + (size_of left + size_of right)) }
{
    let left = Boxed::new(alloc, left)?;
    let right = Boxed::new(alloc, right)?;
    Ok(expr(
        at,
        Form::Binary {
            op: BinaryOp::Add,
            left,
            right,
        },
    ))
}

#[tactic(auto, using(crate::proofs::Numberings::expr_size, crate::proofs::Numberings::within_size))]
fn within(alloc: Global, at: u32, left: Expr, item: Expr) -> Result<Expr, AllocError>
    ensures { IfOk result (λ made. size_of made ≡ 1 + (size_of left + size_of item)) }
{
    let left = Boxed::new(alloc, left)?;
    let mut items = Seq::new(alloc);
    items.push(item)?;
    Ok(expr(
        at,
        Form::Within {
            negated: false,
            left,
            items,
        },
    ))
}

fn field(expr: Expr) -> Field
    ensures { result.expr ≡ expr }
{
    let span = expr.span;
    Field {
        name: None,
        expr,
        span,
    }
}

fn source(alloc: Global) -> Result<SourceCommand, AllocError>
    ensures { IfOk result (λ source. size_of_source source ≡ 4) }
{
    let left = null(alloc, 11);
    let right = null(alloc, 12);
    let sum = sum(alloc, 10, left, right)?;
    let mut fields = Seq::new(alloc);
    fields.push(field(sum))?;
    Ok(SourceCommand::OneRow {
        node: NodeId(0),
        span: span(0),
        fields,
    })
}

fn filter(alloc: Global) -> Result<Command, AllocError>
    ensures { IfOk result (λ command. (numbering_of_command command).size ≡ 6) }
{
    let left = null(alloc, 23);
    let right = null(alloc, 24);
    let sum = sum(alloc, 22, left, right)?;
    let item = null(alloc, 25);
    let condition = within(alloc, 21, sum, item)?;
    Ok(Command {
        node: NodeId(0),
        span: span(20),
        kind: CommandKind::Filter { condition },
    })
}

fn stats(alloc: Global) -> Result<Command, AllocError>
    ensures { IfOk result (λ command. (numbering_of_command command).size ≡ 4) }
{
    let condition = Condition {
        node: NodeId(0),
        expr: null(alloc, 32),
    };
    let mut fields = Seq::new(alloc);
    fields.push(StatsField {
        field: field(null(alloc, 31)),
        condition: Some(condition),
    })?;
    Ok(Command {
        node: NodeId(0),
        span: span(30),
        kind: CommandKind::Stats {
            fields,
            groups: Seq::new(alloc),
        },
    })
}

#[test]
fn nodes_are_numbered_in_written_order(rt: HostRuntime) -> Result<(), Fail> {
    let source = source(rt.alloc())?;
    let mut commands = Seq::new(rt.alloc());
    commands.push(filter(rt.alloc())?)?;
    commands.push(stats(rt.alloc())?)?;
    let query = numbered_query(rt.alloc(), source, commands)?;
    let nodes = warned_nodes_of(rt.alloc(), &query)?;
    assert!(rt; query.nodes == 14 && nodes.len() == PLACES.len());
    for (number, place) in nodes.as_slice().iter().enumerate() {
        assert!(rt;
            place.node.0 as usize == number && PLACES.get(number) == Some(&place.span.from)
        );
    }
    Ok(())
}
