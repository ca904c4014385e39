ghost use Rattle.std.specs.Prelude.{◌≡◌, ◌≤◌, length, IfOk, IfErr, MatchResult};
ghost use Rattle.esql_ast.specs.Fits.{QueryFits};
ghost use Rattle.esql_ast.specs.Laws.{IsNumbered};
ghost use Rattle.esql_lex.specs.Tokens.{FitsText, Tokens};
ghost use Rattle.query_semantics.specs.Sizes.{IsShortQuery};
ghost use Rattle.esql_answer.specs.declared.query.QueryError.TheVariants.{Refused};
ghost use Rattle.esql_answer.specs.Queries.{IsQuery, IsUnread, point_at, unexpected_kind};

use answer_text::Refusal;
use esql_ast::Query;
use esql_lex::{LexError, Token, TokenKind, lex};
use esql_parse::{ParseError, parse};
use esql_types::{Seq, Span};
use std::alloc::{AllocError, Global};
use thiserror::Error;

/// The longest text of a query, in bytes.
const LONGEST_QUERY: usize = 65536;

/// Why a text has no query.
#[derive(Clone, Copy, Debug, Drop, Error)]
pub enum QueryError {
    /// The text is no query: a part of it is refused.
    #[error("the text is no query")]
    Refused { refusal: Refusal, span: Span },
    /// Memory was refused.
    #[error(transparent)]
    Memory(#[from(alloc)] AllocError),
}

/// The query of a text of at most 65,536 bytes, with its nodes numbered in written order.
///
/// # Errors
///
/// `Refused` exactly where the text is no query: it is longer, it has a first fault, or its tokens leave the queries at a
/// token, of which the span is told.
pub fn read_query(alloc: Global, text: &str) -> Result<Query, QueryError>
    ensures read { MatchResult result (IsQuery text.now) (IsUnread text.now) }
    ensures fits { IfOk result (QueryFits text.now) }
    ensures numbered { IfOk result IsNumbered }
    ensures few { IfOk result (λ query. query.nodes ≤ 65537) }
    ensures short { IfOk result IsShortQuery }
{
    if text.len() > LONGEST_QUERY {
        return Err(refused_at(Refusal::TooLong, 0));
    }
    match lex(alloc, text) {
        Ok(tokens) => parse_tokens(alloc, text, &tokens),
        Err(LexError::BadCharacter { at }) => Err(refused_at(Refusal::BadCharacter, at)),
        Err(LexError::OpenString { at }) => Err(refused_at(Refusal::OpenString, at)),
        Err(LexError::BadEscape { at }) => Err(refused_at(Refusal::BadEscape, at)),
        Err(LexError::OpenComment { at }) => Err(refused_at(Refusal::OpenComment, at)),
        Err(LexError::WideNumber { at }) => Err(refused_at(Refusal::WideNumber, at)),
        Err(LexError::Memory(error)) => Err(QueryError::Memory(error)),
    }
}

fn refused_at(refusal: Refusal, at: u32) -> QueryError
    ensures { result ≡ Refused refusal (point_at at) }
{
    QueryError::Refused {
        refusal,
        span: Span { from: at, to: at },
    }
}

fn parse_tokens(alloc: Global, text: &str, tokens: &Seq<Token>) -> Result<Query, QueryError>
    requires short { length text.now ≤ 65536 }
    requires lexed { Tokens text.now tokens.now }
    requires fit { FitsText text.now tokens.now }
    ensures read { MatchResult result (IsQuery text.now) (IsUnread text.now) }
    ensures fits { IfOk result (QueryFits text.now) }
    ensures numbered { IfOk result IsNumbered }
    ensures few { IfOk result (λ query. query.nodes ≤ 65537) }
    ensures short { IfOk result IsShortQuery }
{
    match parse(alloc, text, tokens) {
        Ok(query) => Ok(query),
        Err(ParseError::Unexpected { token }) => {
            let token = tokens.as_slice()[token as usize];
            Err(refused(unexpected_kind(token.kind), token.span))
        }
        Err(ParseError::TooDeep { token }) => {
            let token = tokens.as_slice()[token as usize];
            Err(refused(Refusal::TooDeep, token.span))
        }
        Err(ParseError::TooMany { token }) => {
            let token = tokens.as_slice()[token as usize];
            Err(refused(Refusal::TooMany, token.span))
        }
        Err(ParseError::Memory(error)) => Err(QueryError::Memory(error)),
    }
}

fn refused(refusal: Refusal, span: Span) -> QueryError
    ensures { result ≡ Refused refusal span }
{
    QueryError::Refused { refusal, span }
}

fn unexpected_kind(kind: TokenKind) -> Refusal
    ensures { result ≡ unexpected_kind kind }
{
    if kind == TokenKind::End {
        Refusal::UnexpectedEnd
    } else {
        Refusal::Unexpected
    }
}
