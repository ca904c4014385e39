ghost use Rattle.std.specs.Prelude.{◌≡◌, ◌⊎◌, ◌≤◌, List, length, MatchResult, IfOk, IfErr};
ghost use Rattle.esql_lex.specs.declared.error.LexError.{LexError};
ghost use Rattle.esql_lex.specs.declared.token.Token.{Token};
ghost use Rattle.esql_lex.specs.Tokens.{Tokens, LexFault, Lexes, IsWantOfMemory, IsTokensOrMemory, IsFaultOrMemory, FitsText, HasPlaceIn};

use crate::forms::token_at;
use crate::gaps::gap_len;
use crate::mode::State;
use crate::{LexError, Token, TokenKind};
use esql_types::{Seq, Span};
use std::alloc::Global;

fn divide(alloc: Global, text: &[u8]) -> Result<Seq<Token>, LexError>
    requires short { length text.now ≤ 65536 }
    ensures { Lexes text.now result }
{
    let mut tokens = Seq::new(alloc);
    let mut state = State::First;
    let mut at = 0;
    'tokens: loop {
        let (_, rest) = text.split_at(at);
        let place = at + gap_len(rest);
        let (_, back) = text.split_at(place);
        if back.is_empty() {
            let end = place as u32;
            tokens.push(Token {
                kind: TokenKind::End,
                span: Span { from: end, to: end },
            })?;
            return Ok(tokens);
        }
        let token = token_at(state.mode(), back, place as u32)?;
        at = token.span.to as usize;
        let (slice, _) = back.split_at(at - place);
        state = state.after(token.kind, slice);
        tokens.push(token)?;
    }
}

/// The tokens of a query of at most 65,536 bytes, or its first fault.
///
/// Comments, names in backticks and both forms of text are those of the ES|QL reference.
/// After FROM, and for one token after ENRICH and after LOOKUP JOIN, names of tables are read;
/// after KEEP and DROP patterns are. These modes end at the next `|`.
pub fn lex(alloc: Global, text: &str) -> Result<Seq<Token>, LexError>
    requires short { length text.now ≤ 65536 }
    ensures exact { MatchResult result (Tokens text.now) (λ error. IsWantOfMemory error ⊎ LexFault text.now error) }
    ensures only { (tokens : List Token) → Tokens text.now tokens → IsTokensOrMemory result tokens }
    ensures fault { (error : LexError) → LexFault text.now error → IsFaultOrMemory result error }
    ensures fit { IfOk result (FitsText text.now) }
    ensures place { IfErr result (HasPlaceIn text.now) }
{
    divide(alloc, text.as_bytes())
}
