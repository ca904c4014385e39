//! The query that tokens spell.

ghost use Rattle.std.specs.Prelude.{◌≡◌, ◌⊎◌, ℕ, ◌≤◌, ◌<◌, length, IfOk, IfErr, MatchResult};
ghost use Rattle.esql_ast.specs.declared.query.Query.{Query};
ghost use Rattle.esql_ast.specs.Fits.{QueryFits};
ghost use Rattle.esql_ast.specs.Laws.{IsNumbered};
ghost use Rattle.esql_parse.specs.declared.error.ParseError.{ParseError};
ghost use Rattle.esql_lex.specs.Tokens.{FitsText};
ghost use Rattle.esql_parse.specs.Grammar.{SpellsQuery};
ghost use Rattle.esql_parse.specs.Limits.{Continues, Leaves, written_of};
ghost use Rattle.esql_parse.specs.Machine.{need};
ghost use Rattle.esql_parse.specs.Spells.{Spells, lexemes_of, IsWantOfMemory, Refuses, IsQueryOrMemory, IsRefusalOrMemory, NamesToken};
ghost use Rattle.esql_parse.specs.WithinLimits.{IsWithinLimits};

use crate::{Inside, ParseError, State, Written};
use esql_ast::{Query, numbered_query, numbering_keeps_depth, numbers_in_order};
use esql_lex::Token;
use esql_phrases::{Lexeme, lexeme_of};
use esql_types::Seq;
use std::alloc::Global;

// A step within the limits, or why there is none.
fn advance(alloc: Global, state: State, next: Lexeme, token: u32) -> Result<State, ParseError>
    requires { need state ≤ 100 }
    ensures { MatchResult result (Continues state next) (λ error. IsWantOfMemory error ⊎ Leaves state next token error) }
{
    match state.step(alloc, next)? {
        None => Err(ParseError::Unexpected { token }),
        Some(more) => {
            if 200 < more.pipes() {
                Err(ParseError::TooMany { token })
            } else if !more.is_within(100) {
                Err(ParseError::TooDeep { token })
            } else {
                Ok(more)
            }
        }
    }
}

fn written_of(state: State) -> Option<Written>
    ensures { result ≡ written_of state }
{
    match state.inside {
        Inside::Done => state.progress.before,
        Inside::Begin | Inside::Open { .. } | Inside::At(_) => None,
    }
}

// What the tokens of a text spell, without the numbers of the nodes.
fn read(alloc: Global, text: &str, tokens: &[Token]) -> Result<Written, ParseError>
    requires short { length text.now ≤ 65536 }
    requires fit { FitsText text.now tokens.now }
    ensures { MatchResult result (λ written. (depth : ℕ) × SpellsQuery (lexemes_of text.now tokens.now) written depth × (depth ≤ 100) × (length written.commands ≤ 200)) (λ error. IsWantOfMemory error ⊎ Refuses text.now tokens.now error) }
{
    let mut state = State::start();
    for (place, token) in tokens.iter().enumerate() {
        let lexeme = lexeme_of(alloc, text, *token)?;
        state = advance(alloc, state, lexeme, place as u32)?;
    }
    match written_of(state) {
        Some(written) => Ok(written),
        None => unreachable!(),
    }
}

fn parsed(alloc: Global, text: &str, tokens: &Seq<Token>) -> Result<Query, ParseError>
    requires short { length text.now ≤ 65536 }
    requires fit { FitsText text.now tokens.now }
    ensures { MatchResult result (Spells text.now tokens.now) (λ error. IsWantOfMemory error ⊎ Refuses text.now tokens.now error) }
{
    let Written { source, commands } = read(alloc, text, tokens.as_slice())?;
    Ok(numbered_query(alloc, source, commands)?)
}

/// The query that the tokens of a text of at most 65,536 bytes spell, with its nodes numbered in written order.
///
/// # Errors
///
/// The first token such that the tokens before it begin some query with no expression deeper than 100 and at most 200
/// commands after the source, and with it none: `Unexpected` where the tokens with it begin no query at all, `TooMany`
/// where it is the `|` that begins the 201st command, else `TooDeep`.
pub fn parse(alloc: Global, text: &str, tokens: &Seq<Token>) -> Result<Query, ParseError>
    requires short { length text.now ≤ 65536 }
    requires fit { FitsText text.now tokens.now }
    ensures exact { MatchResult result (Spells text.now tokens.now) (λ error. IsWantOfMemory error ⊎ Refuses text.now tokens.now error) }
    ensures only { (query : Query) → Spells text.now tokens.now query → IsQueryOrMemory result query }
    ensures refusal { (error : ParseError) → Refuses text.now tokens.now error → IsRefusalOrMemory result error }
    ensures fit { IfOk result (QueryFits text.now) }
    ensures numbered { IfOk result IsNumbered }
    ensures few { IfOk result (λ query. query.nodes ≤ length tokens.now) }
    ensures within { IfOk result IsWithinLimits }
    ensures place { IfErr result (NamesToken tokens.now) }
{
    numbers_in_order();
    numbering_keeps_depth();
    parsed(alloc, text, tokens)
}
