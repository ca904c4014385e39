//! The references of a pattern of GROK.
ghost use Rattle.std.specs.Prelude.{◌≡◌, None, Some, MatchOption};
ghost use Rattle.std.specs.Option.{option_copied};
ghost use Rattle.dissect_grok.specs.Groks as spec;
ghost use Rattle.dissect_grok.specs.GrokParts.{place_in, reference_in};

use crate::texts::cut_at;
use esql_types::Kind;

/// A named place of a pattern.
#[derive(Clone, Copy)]
pub(crate) struct Named<'a> {
    pub(crate) name: &'a str,
    pub(crate) kind: Kind,
}

/// What stands between `%{` and `}`.
#[derive(Clone, Copy)]
pub(crate) struct Reference<'a> {
    pub(crate) syntax: &'a str,
    pub(crate) place: Option<Named<'a>>,
}

fn kind_of(text: &str) -> Option<Kind>
    ensures { result ≡ spec.kind_of text.now }
{
    match text {
        "int" => Some(Kind::Integer),
        "long" => Some(Kind::Long),
        "boolean" => Some(Kind::Boolean),
        _ => None,
    }
}

fn place_with(name: &str, kind: Kind) -> Option<Named<'_>>
    ensures { MatchOption result (spec.place_with name.now kind ≡ None) (λ place. spec.place_with name.now kind ≡ Some (place_in place)) }
{
    if name.is_empty() {
        None
    } else {
        Some(Named { name, kind })
    }
}

// A name and a type if there is one, behind the first colon.
fn place_of(text: &str) -> Option<Named<'_>>
    ensures { MatchOption result (spec.place_of text.now ≡ None) (λ place. spec.place_of text.now ≡ Some (place_in place)) }
{
    match cut_at(text, ":") {
        Some((name, kind)) => place_with(name, kind_of(kind)?),
        None => place_with(text, Kind::Keyword),
    }
}

/// The reference of a text, if it is one.
pub(crate) fn reference_of(text: &str) -> Option<Reference<'_>>
    ensures { MatchOption result (spec.reference_of text.now ≡ None) (λ reference. spec.reference_of text.now ≡ Some (reference_in reference)) }
{
    match cut_at(text, ":") {
        Some((syntax, rest)) => {
            let place = place_of(rest)?;
            Some(Reference {
                syntax,
                place: Some(place),
            })
        }
        None => Some(Reference {
            syntax: text,
            place: None,
        }),
    }
}
