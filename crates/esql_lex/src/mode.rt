ghost use Rattle.std.specs.Prelude.{◌≡◌, codes};
ghost use Rattle.std.specs.Str.{str_eq_ignore_ascii_case};
ghost use Rattle.esql_lex.specs.Modes.{mode_of, opened_by, joined_by, state_after, state_after_other, state_after_name};

use crate::{Sign, TokenKind};

/// Which forms the next token may have.
#[derive(Clone, Copy, Debug, PartialEq, Eq)]
pub enum Mode {
    Plain,
    Source,
    Pattern,
}

/// Where in a command the next token stands.
#[derive(Clone, Copy, Debug, PartialEq, Eq)]
pub enum State {
    /// At the start of a command.
    First,
    /// In a command whose tokens are plain.
    Inside,
    /// After FROM.
    Sources,
    /// After KEEP or DROP.
    Patterns,
    /// Where one name of a table or a policy stands.
    OneSource,
    /// After LOOKUP.
    AfterLookup,
}

impl State {
    pub fn mode(self) -> Mode
        ensures { result ≡ mode_of self }
    {
        match self {
            State::First | State::Inside | State::AfterLookup => Mode::Plain,
            State::Sources | State::OneSource => Mode::Source,
            State::Patterns => Mode::Pattern,
        }
    }

    fn after_other(self) -> State
        ensures { result ≡ state_after_other self }
    {
        match self {
            State::Sources => State::Sources,
            State::Patterns => State::Patterns,
            State::First | State::Inside | State::OneSource | State::AfterLookup => State::Inside,
        }
    }

    fn after_name(self, name: &[u8]) -> State
        ensures { result ≡ state_after_name self name.now }
    {
        match self {
            State::First => opened_by(name),
            State::AfterLookup => joined_by(name),
            _ => self.after_other(),
        }
    }

    pub fn after(self, kind: TokenKind, slice: &[u8]) -> State
        ensures { result ≡ state_after self kind slice.now }
    {
        match kind {
            TokenKind::Sign { sign: Sign::Bar } => State::First,
            TokenKind::Name => self.after_name(slice),
            _ => self.after_other(),
        }
    }
}

fn is_keyword(name: &[u8], keyword: &str) -> bool
    ensures { result ≡ str_eq_ignore_ascii_case name.now keyword.now }
{
    name.eq_ignore_ascii_case(keyword.as_bytes())
}

fn opened_by(name: &[u8]) -> State
    ensures { result ≡ opened_by name.now }
{
    if is_keyword(name, "from") {
        State::Sources
    } else if is_keyword(name, "keep") {
        State::Patterns
    } else if is_keyword(name, "drop") {
        State::Patterns
    } else if is_keyword(name, "enrich") {
        State::OneSource
    } else if is_keyword(name, "lookup") {
        State::AfterLookup
    } else {
        State::Inside
    }
}

fn joined_by(name: &[u8]) -> State
    ensures { result ≡ joined_by name.now }
{
    if is_keyword(name, "join") {
        State::OneSource
    } else {
        State::Inside
    }
}
