//! Fields of ROW, of EVAL and of the groups of STATS.

ghost use Rattle.std.specs.Prelude.{◌≡◌, IfOk};
ghost use Rattle.esql_commands.specs.Grammar.{field_of};
ghost use Rattle.esql_commands.specs.Fields.{want_field, column_name, name_field, have_field, finished_fields};

use crate::{CommandEnd, Place, Slot};
use esql_ast::{CommandKind, Field, Form, NameAt, StatsField};
use esql_lex::Sign;
use esql_phrases::{Lexeme, Part};
use esql_types::Seq;
use std::alloc::AllocError;

/// What fields are those of.
#[derive(Drop)]
pub enum Clause {
    Row,
    Eval,
    /// The groups of STATS, after its fields.
    Groups { fields: Seq<StatsField> },
}

pub(crate) fn want_field(clause: Clause, fields: Seq<Field>) -> Place
    ensures { result ≡ want_field clause fields }
{
    Place::Expression(Slot::Field {
        clause,
        fields,
        name: None,
    })
}

// The name that an expression is.
pub(crate) fn column_name(part: Part) -> Option<NameAt>
    ensures { result ≡ column_name part }
{
    let span = part.expr.span;
    match part.expr.form {
        Form::Column { name } => Some(NameAt { name, span }),
        _ => None,
    }
}

pub(crate) fn field_of(name: Option<NameAt>, part: Part) -> Field
    ensures { result ≡ field_of name part }
{
    let Part { expr, .. } = part;
    let span = expr.span;
    Field { name, expr, span }
}

fn name_field(
    clause: Clause,
    fields: Seq<Field>,
    name: Option<NameAt>,
    column: Option<NameAt>,
) -> Option<Place>
    ensures { result ≡ name_field clause fields name column }
{
    match (name, column) {
        (None, Some(column)) => Some(Place::Expression(Slot::Field {
            clause,
            fields,
            name: Some(column),
        })),
        _ => None,
    }
}

pub(crate) fn have_field(
    clause: Clause,
    mut fields: Seq<Field>,
    name: Option<NameAt>,
    part: Part,
    next: Lexeme,
) -> Result<Option<Place>, AllocError>
    ensures { IfOk result (λ place. place ≡ have_field clause fields name part next) }
{
    match next {
        Lexeme::Sign {
            sign: Sign::Comma,
            ..
        } => {
            fields.push(field_of(name, part))?;
            Ok(Some(want_field(clause, fields)))
        }
        Lexeme::Sign {
            sign: Sign::Assign,
            ..
        } => Ok(name_field(clause, fields, name, column_name(part))),
        _ => Ok(None),
    }
}

pub(crate) fn finished_fields(clause: Clause, fields: Seq<Field>) -> CommandEnd
    ensures { result ≡ finished_fields clause fields }
{
    match clause {
        Clause::Row => CommandEnd::Row(fields),
        Clause::Eval => CommandEnd::Piped(CommandKind::Eval { fields }),
        Clause::Groups { fields: aggregates } => CommandEnd::Piped(CommandKind::Stats {
            fields: aggregates,
            groups: fields,
        }),
    }
}
