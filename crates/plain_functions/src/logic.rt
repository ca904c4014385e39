//! Three-valued logic: `None` is a truth that is not known.

ghost use Rattle.std.specs.Prelude.{◌≡◌};
ghost use Rattle.function_rules.specs.Logic.{and_of, or_of, not_of};

/// AND: false where a side is false, else not known where a side is not known. Takes no memory.
pub fn and(left: Option<bool>, right: Option<bool>) -> Option<bool>
    ensures { result ≡ and_of left right }
{
    match (left, right) {
        (Some(false), _) | (_, Some(false)) => Some(false),
        (Some(true), Some(true)) => Some(true),
        (None, _) | (_, None) => None,
    }
}

/// OR: true where a side is true, else not known where a side is not known. Takes no memory.
pub fn or(left: Option<bool>, right: Option<bool>) -> Option<bool>
    ensures { result ≡ or_of left right }
{
    match (left, right) {
        (Some(true), _) | (_, Some(true)) => Some(true),
        (Some(false), Some(false)) => Some(false),
        (None, _) | (_, None) => None,
    }
}

/// NOT: what is not known stays so. Takes no memory.
pub fn not(truth: Option<bool>) -> Option<bool>
    ensures { result ≡ not_of truth }
{
    match truth {
        Some(truth) => Some(!truth),
        None => None,
    }
}
