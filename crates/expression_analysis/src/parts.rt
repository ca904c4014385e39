ghost use Rattle.std.specs.Prelude.{◌≡◌, [], ◌∷◌, ◌++◌, slice_get, OnOk};
ghost use Rattle.std.specs.Option.{option_copied};
ghost use Rattle.esql_plan.specs.Exprs.{constant_at};
ghost use Rattle.expression_analysis.specs.Steps.{literal_of_expr, literal_found};

use crate::constants::constant;
use esql_ast::{Expr, Form, TextAt};
use esql_plan::TypedExpr;
use esql_types::{Cell, Kind, NodeId, Seq, Span, Value};
use std::alloc::{AllocError, Global};

/// The parts of a node that are typed so far, and where each stands.
#[derive(Drop)]
pub(crate) struct Parts {
    pub args: Seq<TypedExpr>,
    pub spans: Seq<Span>,
}

impl Parts {
    pub(crate) fn new(alloc: Global) -> Parts
        ensures args { result.args ≡ [] }
        ensures spans { result.spans ≡ [] }
    {
        Parts {
            args: Seq::new(alloc),
            spans: Seq::new(alloc),
        }
    }

    pub(crate) fn push(&mut self, arg: TypedExpr, span: Span) -> Result<(), AllocError>
        ensures args { OnOk result (self.new.args ≡ self.old.args ++ arg ∷ []) }
        ensures spans { OnOk result (self.new.spans ≡ self.old.spans ++ span ∷ []) }
    {
        self.args.push(arg)?;
        self.spans.push(span)
    }

    /// Adds the pattern beside an operator, a constant of the operator's node.
    pub(crate) fn push_pattern(
        &mut self,
        alloc: Global,
        node: NodeId,
        pattern: &TextAt,
    ) -> Result<(), AllocError>
        ensures args { OnOk result (self.new.args ≡ self.old.args ++ constant_at node Kind.Keyword (Value.Text pattern.now.text ∷ []) ∷ []) }
        ensures spans { OnOk result (self.new.spans ≡ self.old.spans ++ pattern.now.span ∷ []) }
    {
        let text = pattern.text.copy()?;
        let cell = Cell::one(alloc, Value::Text(text));
        self.push(constant(node, Kind::Keyword, cell), pattern.span)
    }
}

/// The text of an expression that is a literal text without parentheses.
pub(crate) fn literal_of(expr: &Expr) -> Option<&str>
    ensures { option_copied result ≡ literal_of_expr expr.now }
{
    match &expr.form {
        Form::Constant { cell, .. } => match cell.as_slice() {
            [Value::Text(text)] => Some(text.as_str()),
            _ => None,
        },
        _ => None,
    }
}

/// The text of the literal at a place, if there is one.
pub(crate) fn literal_at(exprs: &[Expr], place: usize) -> Option<&str>
    ensures { option_copied result ≡ literal_found (slice_get exprs.now place) }
{
    match exprs.get(place) {
        Some(expr) => literal_of(expr),
        None => None,
    }
}
