//! ENRICH.

ghost use Rattle.std.specs.Prelude.{◌≡◌, IfOk};
ghost use Rattle.esql_ast.specs.declared.query.CommandKind.TheVariants.{Enrich};
ghost use Rattle.esql_commands.specs.Enrich.{want_policy, want_item, have_policy, have_on, have_column, have_with, with_item, have_name, have_assign, continue_enrich, finished_enrich};
ghost use Rattle.esql_commands.specs.Lexemes.{name_in};

use crate::lexemes::{is_comma, name_in};
use crate::{Place, Point};
use esql_ast::{CommandKind, EnrichItem, NameAt};
use esql_lex::{Reserved, Sign};
use esql_phrases::Lexeme;
use esql_types::Seq;
use std::alloc::{AllocError, Global};

/// What was read last of ENRICH.
#[derive(Drop)]
pub enum EnrichPoint {
    /// ENRICH.
    Want,
    /// The policy.
    Policy {
        policy: NameAt,
    },
    /// The policy and ON.
    On {
        policy: NameAt,
    },
    /// The column after ON.
    Column {
        policy: NameAt,
        on: NameAt,
    },
    /// WITH or a comma.
    With {
        policy: NameAt,
        on: Option<NameAt>,
        items: Seq<EnrichItem>,
    },
    /// A name, which is that of a field or a new one.
    Name {
        policy: NameAt,
        on: Option<NameAt>,
        items: Seq<EnrichItem>,
        name: NameAt,
    },
    /// A new name and `=`.
    Assign {
        policy: NameAt,
        on: Option<NameAt>,
        items: Seq<EnrichItem>,
        name: NameAt,
    },
    /// An item with a new name.
    Have {
        policy: NameAt,
        on: Option<NameAt>,
        items: Seq<EnrichItem>,
    },
}

fn want_policy(next: Lexeme) -> Option<Place>
    ensures { result ≡ want_policy next }
{
    match next {
        Lexeme::Source(policy) => Some(Place::At(Point::Enrich(EnrichPoint::Policy { policy }))),
        _ => None,
    }
}

fn want_item(policy: NameAt, on: Option<NameAt>, items: Seq<EnrichItem>) -> Place
    ensures { result ≡ want_item policy on items }
{
    Place::At(Point::Enrich(EnrichPoint::With { policy, on, items }))
}

fn have_policy(alloc: Global, policy: NameAt, next: Lexeme) -> Option<Place>
    ensures { result ≡ have_policy policy next }
{
    match next {
        Lexeme::Word {
            word: Reserved::On,
            ..
        } => Some(Place::At(Point::Enrich(EnrichPoint::On { policy }))),
        Lexeme::Word {
            word: Reserved::With,
            ..
        } => Some(want_item(policy, None, Seq::new(alloc))),
        _ => None,
    }
}

fn have_on(policy: NameAt, next: Lexeme) -> Option<Place>
    ensures { result ≡ have_on policy (name_in next) }
{
    match name_in(next) {
        Some(on) => Some(Place::At(Point::Enrich(EnrichPoint::Column { policy, on }))),
        None => None,
    }
}

fn have_column(alloc: Global, policy: NameAt, on: NameAt, next: Lexeme) -> Option<Place>
    ensures { result ≡ have_column policy on next }
{
    match next {
        Lexeme::Word {
            word: Reserved::With,
            ..
        } => Some(want_item(policy, Some(on), Seq::new(alloc))),
        _ => None,
    }
}

fn have_with(
    policy: NameAt,
    on: Option<NameAt>,
    items: Seq<EnrichItem>,
    next: Lexeme,
) -> Option<Place>
    ensures { result ≡ have_with policy on items (name_in next) }
{
    match name_in(next) {
        Some(name) => {
            let here = EnrichPoint::Name {
                policy,
                on,
                items,
                name,
            };
            Some(Place::At(Point::Enrich(here)))
        }
        None => None,
    }
}

fn with_item(
    mut items: Seq<EnrichItem>,
    name: Option<NameAt>,
    field: NameAt,
) -> Result<Seq<EnrichItem>, AllocError>
    ensures { IfOk result (λ more. more ≡ with_item items name field) }
{
    items.push(EnrichItem { name, field })?;
    Ok(items)
}

fn have_name(
    policy: NameAt,
    on: Option<NameAt>,
    items: Seq<EnrichItem>,
    name: NameAt,
    next: Lexeme,
) -> Result<Option<Place>, AllocError>
    ensures { IfOk result (λ place. place ≡ have_name policy on items name next) }
{
    match next {
        Lexeme::Sign {
            sign: Sign::Assign,
            ..
        } => {
            let here = EnrichPoint::Assign {
                policy,
                on,
                items,
                name,
            };
            Ok(Some(Place::At(Point::Enrich(here))))
        }
        Lexeme::Sign {
            sign: Sign::Comma,
            ..
        } => Ok(Some(want_item(policy, on, with_item(items, None, name)?))),
        _ => Ok(None),
    }
}

fn have_assign(
    policy: NameAt,
    on: Option<NameAt>,
    items: Seq<EnrichItem>,
    name: NameAt,
    next: Lexeme,
) -> Result<Option<Place>, AllocError>
    ensures { IfOk result (λ place. place ≡ have_assign policy on items name (name_in next)) }
{
    match name_in(next) {
        Some(field) => {
            let items = with_item(items, Some(name), field)?;
            let here = EnrichPoint::Have { policy, on, items };
            Ok(Some(Place::At(Point::Enrich(here))))
        }
        None => Ok(None),
    }
}

pub(crate) fn continue_enrich(
    alloc: Global,
    here: EnrichPoint,
    next: Lexeme,
) -> Result<Option<Place>, AllocError>
    ensures { IfOk result (λ place. place ≡ continue_enrich here next) }
{
    match here {
        EnrichPoint::Want => Ok(want_policy(next)),
        EnrichPoint::Policy { policy } => Ok(have_policy(alloc, policy, next)),
        EnrichPoint::On { policy } => Ok(have_on(policy, next)),
        EnrichPoint::Column { policy, on } => Ok(have_column(alloc, policy, on, next)),
        EnrichPoint::With { policy, on, items } => Ok(have_with(policy, on, items, next)),
        EnrichPoint::Name {
            policy,
            on,
            items,
            name,
        } => have_name(policy, on, items, name, next),
        EnrichPoint::Assign {
            policy,
            on,
            items,
            name,
        } => have_assign(policy, on, items, name, next),
        EnrichPoint::Have { policy, on, items } => {
            if is_comma(&next) {
                Ok(Some(want_item(policy, on, items)))
            } else {
                Ok(None)
            }
        },
    }
}

fn enriched(policy: NameAt, on: Option<NameAt>, fields: Option<Seq<EnrichItem>>) -> CommandKind
    ensures { result ≡ Enrich policy on fields }
{
    CommandKind::Enrich { policy, on, fields }
}

pub(crate) fn finished_enrich(here: EnrichPoint) -> Result<Option<CommandKind>, AllocError>
    ensures { IfOk result (λ kind. kind ≡ finished_enrich here) }
{
    match here {
        EnrichPoint::Policy { policy } => Ok(Some(enriched(policy, None, None))),
        EnrichPoint::Column { policy, on } => Ok(Some(enriched(policy, Some(on), None))),
        EnrichPoint::Name {
            policy,
            on,
            items,
            name,
        } => {
            let items = with_item(items, None, name)?;
            Ok(Some(enriched(policy, on, Some(items))))
        }
        EnrichPoint::Have { policy, on, items } => Ok(Some(enriched(policy, on, Some(items)))),
        EnrichPoint::Want
        | EnrichPoint::On { .. }
        | EnrichPoint::With { .. }
        | EnrichPoint::Assign { .. } => Ok(None),
    }
}
