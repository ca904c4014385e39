ghost use Rattle.std.specs.Prelude.{◌≡◌, IfOk};
ghost use Rattle.function_rules.specs.Found.{wrapped};
ghost use Rattle.esql_plan.specs.Rules.{text_of};
ghost use Rattle.esql_plan.specs.Functions.{replace_rule};
ghost use Rattle.scalar_functions.specs.Calls.{matching_rule};
ghost use Rattle.scalar_functions.specs.Patterns.{IsPattern};
ghost use Rattle.scalar_functions.specs.Results.{given_by};

use crate::Outcome;
use crate::values::text_of;
use esql_types::Value;
use std::alloc::{AllocError, Global};
use text_match::Patterns;

/// RLIKE and NOT RLIKE: whether the pattern of the number, which is read from the second value, matches the whole text.
pub(crate) fn matching(
    alloc: Global,
    negated: bool,
    text: &Value,
    pattern: &Value,
    number: Option<u32>,
    patterns: &Patterns,
) -> Result<Outcome, AllocError>
    requires { IsPattern patterns.now.whole number (wrapped (text_of pattern.now)) }
    ensures { IfOk result (λ outcome. given_by outcome ≡ matching_rule negated text.now pattern.now) }
{
    let whole = match number {
        Some(number) => match patterns.whole.at(number as usize) {
            Some(whole) => whole,
            None => unreachable!(),
        },
        None => unreachable!(),
    };
    let matches = whole.matches(alloc, text_of(text))?;
    if negated {
        Ok(Outcome::One(Value::Bool(!matches)))
    } else {
        Ok(Outcome::One(Value::Bool(matches)))
    }
}

/// REPLACE: the text with another in the place of each match of the pattern of the number, which is read from the second value.
pub(crate) fn replaced(
    alloc: Global,
    text: &Value,
    pattern: &Value,
    with: &Value,
    number: Option<u32>,
    patterns: &Patterns,
) -> Result<Outcome, AllocError>
    requires { IsPattern patterns.now.free number (text_of pattern.now) }
    ensures { IfOk result (λ outcome. given_by outcome ≡ replace_rule text.now pattern.now with.now) }
{
    let free = match number {
        Some(number) => match patterns.free.at(number as usize) {
            Some(free) => free,
            None => unreachable!(),
        },
        None => unreachable!(),
    };
    let text = free.replace(alloc, text_of(text), text_of(with))?;
    Ok(Outcome::One(Value::Text(text)))
}
