//! Fields of STATS, with their conditions.

ghost use Rattle.std.specs.Prelude.{◌≡◌, IfOk};
ghost use Rattle.esql_commands.specs.Stats.{want_aggregate, want_group, without_condition, with_condition, name_aggregate, want_condition, have_aggregate, have_condition, have_stats, finished_stats};

use crate::field::{column_name, field_of, want_field};
use crate::words::command_word;
use crate::{Clause, CommandWord, Move, Place, Slot};
use esql_ast::{CommandKind, Condition, Field, NameAt, StatsField};
use esql_lex::{Reserved, Sign};
use esql_phrases::{Lexeme, Part};
use esql_types::{NodeId, Seq};
use std::alloc::{AllocError, Global};

fn want_aggregate(fields: Seq<StatsField>) -> Place
    ensures { result ≡ want_aggregate fields }
{
    Place::Expression(Slot::Aggregate { fields, name: None })
}

fn want_group(alloc: Global, fields: Seq<StatsField>) -> Place
    ensures { result ≡ want_group fields }
{
    want_field(Clause::Groups { fields }, Seq::new(alloc))
}

pub(crate) fn without_condition(field: Field) -> StatsField
    ensures { result ≡ without_condition field }
{
    StatsField {
        field,
        condition: None,
    }
}

pub(crate) fn with_condition(field: Field, part: Part) -> StatsField
    ensures { result ≡ with_condition field part }
{
    let condition = Condition {
        node: NodeId(0),
        expr: part.expr,
    };
    StatsField {
        field,
        condition: Some(condition),
    }
}

fn name_aggregate(
    fields: Seq<StatsField>,
    name: Option<NameAt>,
    column: Option<NameAt>,
) -> Option<Place>
    ensures { result ≡ name_aggregate fields name column }
{
    match (name, column) {
        (None, Some(column)) => Some(Place::Expression(Slot::Aggregate {
            fields,
            name: Some(column),
        })),
        _ => None,
    }
}

fn want_condition(fields: Seq<StatsField>, field: Field, word: Option<CommandWord>) -> Option<Place>
    ensures { result ≡ want_condition fields field word }
{
    match word {
        Some(CommandWord::Where) => Some(Place::Expression(Slot::Condition { fields, field })),
        _ => None,
    }
}

pub(crate) fn have_aggregate(
    alloc: Global,
    mut fields: Seq<StatsField>,
    name: Option<NameAt>,
    part: Part,
    next: Lexeme,
) -> Result<Option<Place>, AllocError>
    ensures { IfOk result (λ place. place ≡ have_aggregate fields name part next) }
{
    match next {
        Lexeme::Sign {
            sign: Sign::Comma,
            ..
        } => {
            fields.push(without_condition(field_of(name, part)))?;
            Ok(Some(want_aggregate(fields)))
        }
        Lexeme::Sign {
            sign: Sign::Assign,
            ..
        } => Ok(name_aggregate(fields, name, column_name(part))),
        Lexeme::Plain(word) => {
            let word = command_word(word.name.as_str());
            Ok(want_condition(fields, field_of(name, part), word))
        }
        Lexeme::Word {
            word: Reserved::By,
            ..
        } => {
            fields.push(without_condition(field_of(name, part)))?;
            Ok(Some(want_group(alloc, fields)))
        }
        _ => Ok(None),
    }
}

pub(crate) fn have_condition(
    alloc: Global,
    mut fields: Seq<StatsField>,
    field: Field,
    part: Part,
    next: Lexeme,
) -> Result<Option<Place>, AllocError>
    ensures { IfOk result (λ place. place ≡ have_condition fields field part next) }
{
    match next {
        Lexeme::Sign {
            sign: Sign::Comma,
            ..
        } => {
            fields.push(with_condition(field, part))?;
            Ok(Some(want_aggregate(fields)))
        }
        Lexeme::Word {
            word: Reserved::By,
            ..
        } => {
            fields.push(with_condition(field, part))?;
            Ok(Some(want_group(alloc, fields)))
        }
        _ => Ok(None),
    }
}

// After STATS its groups may come, or a field.
pub(crate) fn have_stats(alloc: Global, next: Lexeme) -> Move
    ensures { result ≡ have_stats next }
{
    match next {
        Lexeme::Word {
            word: Reserved::By,
            ..
        } => Move::To(want_group(alloc, Seq::new(alloc))),
        next => Move::Begins {
            slot: Slot::Aggregate {
                fields: Seq::new(alloc),
                name: None,
            },
            next,
        },
    }
}

pub(crate) fn finished_stats(
    alloc: Global,
    mut fields: Seq<StatsField>,
    field: StatsField,
) -> Result<CommandKind, AllocError>
    ensures { IfOk result (λ kind. kind ≡ finished_stats fields field) }
{
    fields.push(field)?;
    let groups = Seq::new(alloc);
    Ok(CommandKind::Stats { fields, groups })
}
