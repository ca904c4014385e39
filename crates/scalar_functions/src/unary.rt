ghost use Rattle.std.specs.Prelude.{◌≡◌, IfOk};
ghost use Rattle.esql_plan.specs.Functions.{given_text, length_rule, trim_rule, ltrim_rule, rtrim_rule};
ghost use Rattle.scalar_functions.specs.Calls.{unary_rule};
ghost use Rattle.scalar_functions.specs.Results.{given_by};

use crate::numbers::{absolute, negated};
use crate::values::text_of;
use crate::{Outcome, Unary};
use esql_types::{Text, Value};
use plain_functions::texts::{length, trim, trim_end, trim_start};
use std::alloc::{AllocError, Global};

/// A text as what a function gives.
pub(crate) fn text_given(alloc: Global, text: &str) -> Result<Outcome, AllocError>
    ensures { IfOk result (λ outcome. given_by outcome ≡ given_text text.now) }
{
    let text = Text::from_str(alloc, text)?;
    Ok(Outcome::One(Value::Text(text)))
}

/// What a function of one value gives.
pub(crate) fn unary(alloc: Global, function: Unary, value: &Value) -> Result<Outcome, AllocError>
    ensures { IfOk result (λ outcome. given_by outcome ≡ unary_rule function value.now) }
{
    match function {
        Unary::Neg => Ok(negated(value)),
        Unary::Abs => Ok(absolute(value)),
        Unary::Length => Ok(Outcome::One(Value::Int(length(text_of(value))))),
        Unary::Trim => text_given(alloc, trim(text_of(value))),
        Unary::Ltrim => text_given(alloc, trim_start(text_of(value))),
        Unary::Rtrim => text_given(alloc, trim_end(text_of(value))),
    }
}
