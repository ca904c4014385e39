//! Typed expressions and patterns for tests.
ghost use Rattle.std.specs.Prelude.{◌≡◌, [], ◌∷◌, None, IfOk};
ghost use Rattle.function_rules.specs.Found.{wrapped};
ghost use Rattle.esql_plan.specs.declared.typed.TypedForm.TheVariants.{Apply, Column};
ghost use Rattle.esql_plan.specs.Exprs.{typed_at, constant_at};

use esql_plan::{Function, TypedExpr, TypedForm};
use esql_types::{Cell, ColId, CrateMaker, Kind, NodeId, PatternError, Seq, Text, Value};
use std::alloc::{AllocError, Global};
use text_match::{FreeRegex, Patterns, WholeRegex};

pub(crate) const NODE: NodeId = NodeId(0);

fn constant(kind: Kind, cell: Cell) -> TypedExpr
    ensures { result ≡ constant_at NODE kind cell }
{
    TypedExpr {
        node: NODE,
        kind,
        form: TypedForm::Constant { cell },
    }
}

pub(crate) fn number(alloc: Global, number: i32) -> TypedExpr
    ensures { result ≡ constant_at NODE Kind.Integer (Value.Int number ∷ []) }
{
    constant(Kind::Integer, Cell::one(alloc, Value::Int(number)))
}

pub(crate) fn text(alloc: Global, text: &str) -> Result<TypedExpr, AllocError>
    ensures { IfOk result (λ expr. expr ≡ constant_at NODE Kind.Keyword (Value.Text text.now ∷ [])) }
{
    let text = Text::from_str(alloc, text)?;
    Ok(constant(Kind::Keyword, Cell::one(alloc, Value::Text(text))))
}

pub(crate) fn column(kind: Kind, id: ColId) -> TypedExpr
    ensures { result ≡ typed_at NODE kind (Column id) }
{
    TypedExpr {
        node: NODE,
        kind,
        form: TypedForm::Column { id },
    }
}

pub(crate) fn call(
    node: NodeId,
    kind: Kind,
    function: Function,
    pattern: Option<u32>,
    args: Seq<TypedExpr>,
) -> TypedExpr
    ensures { result ≡ typed_at node kind (Apply function args pattern) }
{
    TypedExpr {
        node,
        kind,
        form: TypedForm::Apply {
            function,
            args,
            pattern,
        },
    }
}

pub(crate) fn one(alloc: Global, arg: TypedExpr) -> Result<Seq<TypedExpr>, AllocError>
    ensures { IfOk result (λ args. args ≡ arg ∷ []) }
{
    let mut args = Seq::new(alloc);
    args.push(arg)?;
    Ok(args)
}

pub(crate) fn two(
    alloc: Global,
    left: TypedExpr,
    right: TypedExpr,
) -> Result<Seq<TypedExpr>, AllocError>
    ensures { IfOk result (λ args. args ≡ left ∷ right ∷ []) }
{
    let mut args = one(alloc, left)?;
    args.push(right)?;
    Ok(args)
}

pub(crate) fn three(
    alloc: Global,
    first: TypedExpr,
    second: TypedExpr,
    third: TypedExpr,
) -> Result<Seq<TypedExpr>, AllocError>
    ensures { IfOk result (λ args. args ≡ first ∷ second ∷ third ∷ []) }
{
    let mut args = two(alloc, first, second)?;
    args.push(third)?;
    Ok(args)
}

pub(crate) fn no_patterns(alloc: Global) -> Patterns
    ensures whole { result.whole ≡ [] }
    ensures free { result.free ≡ [] }
{
    Patterns {
        whole: Seq::new(alloc),
        free: Seq::new(alloc),
    }
}

pub(crate) fn whole_pattern(alloc: Global, pattern: &str) -> Result<Patterns, PatternError>
    ensures whole { IfOk result (λ patterns. patterns.whole ≡ wrapped pattern.now ∷ []) }
    ensures free { IfOk result (λ patterns. patterns.free ≡ []) }
{
    let mut maker = CrateMaker::new(Seq::new(alloc));
    let mut patterns = no_patterns(alloc);
    patterns
        .whole
        .push(WholeRegex::new(alloc, &mut maker, pattern)?)?;
    Ok(patterns)
}

pub(crate) fn free_pattern(alloc: Global, pattern: &str) -> Result<Patterns, PatternError>
    ensures whole { IfOk result (λ patterns. patterns.whole ≡ []) }
    ensures free { IfOk result (λ patterns. patterns.free ≡ pattern.now ∷ []) }
{
    let mut maker = CrateMaker::new(Seq::new(alloc));
    let mut patterns = no_patterns(alloc);
    patterns
        .free
        .push(FreeRegex::new(alloc, &mut maker, pattern)?)?;
    Ok(patterns)
}
