//! The kinds of the arguments of a call, one after the other.

ghost use Rattle.std.specs.Prelude.{◌≡◌};
ghost use Rattle.esql_plan.specs.Signatures.{argument_fits, is_kind, is_numeric, is_one_kind, joined_kind, meets, no_kinds, one_kind, with_kind};
ghost use Rattle.function_signatures.specs.Tables.{kinds_meant, want_meant};

use crate::table::Want;
use esql_types::Kind;

/// The one kind of the arguments so far that are of any kind, and that of the numbers so far; null where there is none yet.
#[derive(Clone, Copy)]
pub(crate) struct OneKinds {
    pub(crate) values: Kind,
    pub(crate) numbers: Kind,
}

impl OneKinds {
    pub(crate) fn none() -> OneKinds
        ensures { kinds_meant result ≡ no_kinds }
    {
        OneKinds {
            values: Kind::Null,
            numbers: Kind::Null,
        }
    }

    /// Whether an argument fits behind those so far: its kind can be what is wanted, and is one with theirs.
    pub(crate) fn fits(self, widens: bool, want: Want, kind: Kind) -> bool
        ensures { result ≡ argument_fits widens (kinds_meant self) (record { want = want_meant want; kind = kind }) }
    {
        meets(want, kind) && is_one_kind(widens, self.one_kind(want), kind)
    }

    /// The kinds with one more argument.
    pub(crate) fn with_kind(self, want: Want, kind: Kind) -> OneKinds
        ensures { kinds_meant result ≡ with_kind (want_meant want) kind (kinds_meant self) }
    {
        match want {
            Want::Number => OneKinds {
                values: self.values,
                numbers: joined_kind(self.numbers, kind),
            },
            Want::Value | Want::Ordered => OneKinds {
                values: joined_kind(self.values, kind),
                numbers: self.numbers,
            },
            Want::Boolean
            | Want::Keyword
            | Want::LikePattern
            | Want::WholePattern
            | Want::FreePattern => self,
        }
    }

    // The kind that an argument is to have too.
    fn one_kind(self, want: Want) -> Kind
        ensures { result ≡ one_kind (want_meant want) (kinds_meant self) }
    {
        match want {
            Want::Number => self.numbers,
            Want::Value | Want::Ordered => self.values,
            Want::Boolean
            | Want::Keyword
            | Want::LikePattern
            | Want::WholePattern
            | Want::FreePattern => Kind::Null,
        }
    }
}

fn meets(want: Want, kind: Kind) -> bool
    ensures { result ≡ meets (want_meant want) kind }
{
    match want {
        Want::Boolean => is_kind(Kind::Boolean, kind),
        Want::Keyword => is_kind(Kind::Keyword, kind),
        Want::Number => is_numeric(kind) || kind == Kind::Null,
        Want::Value => true,
        Want::Ordered => kind != Kind::Boolean,
        Want::LikePattern | Want::WholePattern | Want::FreePattern => kind == Kind::Keyword,
    }
}

// The kind, or that of nothing but nulls.
fn is_kind(wanted: Kind, kind: Kind) -> bool
    ensures { result ≡ is_kind wanted kind }
{
    kind == wanted || kind == Kind::Null
}

fn is_numeric(kind: Kind) -> bool
    ensures { result ≡ is_numeric kind }
{
    kind == Kind::Integer || kind == Kind::Long
}

// Two kinds are one: null is one with every kind, and integer and long are where the function widens.
fn is_one_kind(widens: bool, left: Kind, right: Kind) -> bool
    ensures { result ≡ is_one_kind widens left right }
{
    left == right
        || left == Kind::Null
        || right == Kind::Null
        || (widens && is_numeric(left) && is_numeric(right))
}

// The one kind that they are: null gives way to every other, and integer to long.
fn joined_kind(left: Kind, right: Kind) -> Kind
    ensures { result ≡ joined_kind left right }
{
    match left {
        Kind::Integer => {
            if right == Kind::Long {
                Kind::Long
            } else {
                Kind::Integer
            }
        }
        Kind::Long | Kind::Boolean | Kind::Keyword => left,
        Kind::Null => right,
    }
}
