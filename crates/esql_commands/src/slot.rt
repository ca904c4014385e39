//! After an expression that ended in its slot.

ghost use Rattle.std.specs.Prelude.{◌≡◌, IfOk};
ghost use Rattle.esql_commands.specs.Slots.{line_in, continue_slot, finished_field, finished_slot};

use crate::dissect::{have_grok_input, have_input};
use crate::field::{field_of, finished_fields, have_field};
use crate::sort::{finished_key, have_key};
use crate::stats::{
    finished_stats, have_aggregate, have_condition, with_condition, without_condition,
};
use crate::{Clause, CommandEnd, Place, Slot};
use esql_ast::{CommandKind, Field, NameAt};
use esql_phrases::{Lexeme, Part};
use esql_types::Seq;
use std::alloc::{AllocError, Global};

/// The line of the grammar that the expression in a slot has to be in: 8 for the inputs of DISSECT and GROK, else 0. Takes
/// no memory.
pub fn line_in(slot: &Slot) -> u8
    ensures { result ≡ line_in slot.now }
{
    match slot {
        Slot::Dissect | Slot::Grok => 8,
        Slot::Field { .. }
        | Slot::Aggregate { .. }
        | Slot::Condition { .. }
        | Slot::Filter
        | Slot::Key { .. } => 0,
    }
}

pub(crate) fn continue_slot(
    alloc: Global,
    slot: Slot,
    part: Part,
    next: Lexeme,
) -> Result<Option<Place>, AllocError>
    ensures { IfOk result (λ place. place ≡ continue_slot slot part next) }
{
    match slot {
        Slot::Field {
            clause,
            fields,
            name,
        } => have_field(clause, fields, name, part, next),
        Slot::Aggregate { fields, name } => have_aggregate(alloc, fields, name, part, next),
        Slot::Condition { fields, field } => have_condition(alloc, fields, field, part, next),
        Slot::Filter => Ok(None),
        Slot::Key { keys } => have_key(keys, part, next),
        Slot::Dissect => Ok(have_input(part, next)),
        Slot::Grok => Ok(have_grok_input(part, next)),
    }
}

fn finished_field(
    clause: Clause,
    mut fields: Seq<Field>,
    name: Option<NameAt>,
    part: Part,
) -> Result<CommandEnd, AllocError>
    ensures { IfOk result (λ end. end ≡ finished_field clause fields name part) }
{
    fields.push(field_of(name, part))?;
    Ok(finished_fields(clause, fields))
}

pub(crate) fn finished_slot(
    alloc: Global,
    slot: Slot,
    part: Part,
) -> Result<Option<CommandEnd>, AllocError>
    ensures { IfOk result (λ end. end ≡ finished_slot slot part) }
{
    let kind = match slot {
        Slot::Field {
            clause,
            fields,
            name,
        } => return Ok(Some(finished_field(clause, fields, name, part)?)),
        Slot::Aggregate { fields, name } => {
            finished_stats(alloc, fields, without_condition(field_of(name, part)))?
        }
        Slot::Condition { fields, field } => {
            finished_stats(alloc, fields, with_condition(field, part))?
        }
        Slot::Filter => CommandKind::Filter {
            condition: part.expr,
        },
        Slot::Key { keys } => finished_key(keys, part.expr, false)?,
        Slot::Dissect | Slot::Grok => return Ok(None),
    };
    Ok(Some(CommandEnd::Piped(kind)))
}
