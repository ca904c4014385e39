//! Conversions of one value to another kind.
ghost use Rattle.std.specs.Prelude.{◌≡◌, IfOk, Some, None, if◌then◌else◌};
ghost use Rattle.std.specs.Fmt.{signed_decimal};
ghost use Rattle.number_rules.specs.Ranges.{fits_integer};
ghost use Rattle.number_rules.specs.Spelled.{spelled_integer, spelled_long};
ghost use Rattle.function_rules.specs.Conversions.{number_of_truth, truth_of_number, truth_of_text, text_of_truth};

use esql_types::Text;
use std::alloc::{AllocError, Global};

/// The long as an integer, where it is one.
pub fn integer_of_long(number: i64) -> Option<i32>
    ensures { result ≡ (if fits_integer number then Some number else None) }
{
    i32::try_from(number).ok()
}

/// The integer that a text spells: a sign or none, and digits. `None` where it spells none.
pub fn integer_of_text(text: &str) -> Option<i32>
    ensures { result ≡ spelled_integer text.now }
{
    text.parse::<i32>().ok()
}

/// The long that a text spells: a sign or none, and digits. `None` where it spells none.
pub fn long_of_text(text: &str) -> Option<i64>
    ensures { result ≡ spelled_long text.now }
{
    text.parse::<i64>().ok()
}

/// The boolean as a number: 1 where it is true, else 0.
pub fn integer_of_truth(truth: bool) -> i32
    ensures { result ≡ number_of_truth truth }
{
    i32::from(truth)
}

/// The number as a boolean: true for any but 0.
pub fn truth_of_number(number: i64) -> bool
    ensures { result ≡ truth_of_number number }
{
    number != 0
}

/// The text as a boolean: true for `true` alone, in any ASCII case.
pub fn truth_of_text(text: &str) -> bool
    ensures { result ≡ truth_of_text text.now }
{
    text.eq_ignore_ascii_case("true")
}

/// The number's text: its digits, behind `-` where it is below 0.
pub fn text_of_number(alloc: Global, number: i64) -> Result<Text, AllocError>
    ensures { IfOk result (λ text. text ≡ signed_decimal number) }
{
    Ok(Text::from_string(number.to_string(alloc)?))
}

/// The boolean's text, `true` or `false`. Takes no memory.
pub fn text_of_truth(truth: bool) -> &'static str
    ensures { result.now ≡ text_of_truth truth }
{
    if truth { "true" } else { "false" }
}
