ghost use Rattle.std.specs.Prelude.{◌≡◌, [], IfOk};
ghost use Rattle.row_semantics.specs.Typed.{typing_of};

use crate::{AnalyzeError, typed_expr, typed_field};
use esql_ast::{Expr, Form, NameAt};
use esql_plan::{OutColumn, TypedForm};
use esql_types::{ColId, CrateMaker, Kind, NodeId, Seq, Span, Text};
use row_semantics::{CallColumn, NameRule};
use std::alloc::{AllocError, Global};
use std::test::Fail;
use text_match::Patterns;
use visible_columns::VisibleColumns;

fn named(alloc: Global, name: &str) -> Result<Expr, AllocError>
    ensures whole { IfOk result (λ expr. (typing_of expr).whole ≡ []) }
    ensures free { IfOk result (λ expr. (typing_of expr).free ≡ []) }
{
    let name = Text::from_str(alloc, name)?;
    Ok(Expr {
        node: NodeId(7),
        span: Span { from: 3, to: 4 },
        form: Form::Column { name },
    })
}

/// `COUNT(*)`.
fn rows_counted(alloc: Global, node: NodeId) -> Result<Expr, AllocError>
    ensures whole { IfOk result (λ expr. (typing_of expr).whole ≡ []) }
    ensures free { IfOk result (λ expr. (typing_of expr).free ≡ []) }
{
    let span = Span { from: 3, to: 7 };
    let name = Text::from_str(alloc, "COUNT")?;
    Ok(Expr {
        node,
        span,
        form: Form::Call {
            function: NameAt { name, span },
            args: Seq::new(alloc),
            star: true,
        },
    })
}

fn column(alloc: Global, name: &str, id: u32) -> Result<OutColumn, AllocError> {
    Ok(OutColumn {
        name: Text::from_str(alloc, name)?,
        kind: Kind::Long,
        id: ColId(id),
    })
}

#[test]
fn the_first_column_of_a_name(rt: HostRuntime) -> Result<(), Fail> {
    let alloc = rt.alloc();
    let mut columns = Seq::new(alloc);
    for (name, id) in [("a", 0), ("b", 1), ("a", 2)] {
        columns.push(column(alloc, name, id)?)?;
    }
    let columns = VisibleColumns::from_seq(alloc, columns)?;
    for (name, id) in [("a", Some(0)), ("b", Some(1)), ("A", None)] {
        let mut patterns = Patterns {
            whole: Seq::new(alloc),
            free: Seq::new(alloc),
        };
        let mut maker = CrateMaker::new(Seq::new(alloc));
        let expr = named(alloc, name)?;
        let found = match typed_expr(alloc, &expr, &columns, &mut patterns, &mut maker) {
            Ok(typed) => match typed.form {
                TypedForm::Column { id } => Some(id.0),
                _ => None,
            },
            Err(error) => {
                assert!(rt;
                    matches!(
                        error,
                        AnalyzeError::Broken {
                            rule: NameRule::UnknownColumn,
                            ..
                        }
                    )
                );
                None
            }
        };
        assert_eq!(rt; found, id);
    }
    Ok(())
}

#[test]
fn a_call_is_the_column_that_stands_for_it(rt: HostRuntime) -> Result<(), Fail> {
    let alloc = rt.alloc();
    let mut calls = Seq::new(alloc);
    for (node, id) in [(6, 2), (8, 3), (9, 4)] {
        calls.push(CallColumn {
            node: NodeId(node),
            id: ColId(id),
        })?;
    }
    let mut patterns = Patterns {
        whole: Seq::new(alloc),
        free: Seq::new(alloc),
    };
    let mut maker = CrateMaker::new(Seq::new(alloc));
    let expr = rows_counted(alloc, NodeId(8))?;
    let found = match typed_field(
        alloc,
        &expr,
        &VisibleColumns::new(alloc),
        calls.as_slice(),
        &mut patterns,
        &mut maker,
    ) {
        Ok(typed) => match typed.form {
            TypedForm::Column { id } => Some((id.0, typed.kind)),
            _ => None,
        },
        Err(_) => None,
    };
    assert!(rt; matches!(found, Some((3, Kind::Long))));
    Ok(())
}
