//! The words of the grammar that are names.

ghost use Rattle.std.specs.Prelude.{◌≡◌};
ghost use Rattle.esql_commands.specs.Words.{command_word, is_source, is_join, is_append_separator};

/// The word that a command begins with.
#[derive(Clone, Copy, Debug, PartialEq, Eq)]
pub enum CommandWord {
    From,
    Row,
    Where,
    Eval,
    Keep,
    Drop,
    Rename,
    Sort,
    Limit,
    MvExpand,
    Stats,
    Dissect,
    Grok,
    Enrich,
    Lookup,
}

#[tactic(auto, unfolding(crate::specs::Words::command_word))]
pub(crate) fn command_word(name: &str) -> Option<CommandWord>
    ensures { result ≡ command_word name.now }
{
    if name.eq_ignore_ascii_case("FROM") {
        Some(CommandWord::From)
    } else if name.eq_ignore_ascii_case("ROW") {
        Some(CommandWord::Row)
    } else if name.eq_ignore_ascii_case("WHERE") {
        Some(CommandWord::Where)
    } else if name.eq_ignore_ascii_case("EVAL") {
        Some(CommandWord::Eval)
    } else if name.eq_ignore_ascii_case("KEEP") {
        Some(CommandWord::Keep)
    } else if name.eq_ignore_ascii_case("DROP") {
        Some(CommandWord::Drop)
    } else if name.eq_ignore_ascii_case("RENAME") {
        Some(CommandWord::Rename)
    } else if name.eq_ignore_ascii_case("SORT") {
        Some(CommandWord::Sort)
    } else if name.eq_ignore_ascii_case("LIMIT") {
        Some(CommandWord::Limit)
    } else if name.eq_ignore_ascii_case("MV_EXPAND") {
        Some(CommandWord::MvExpand)
    } else if name.eq_ignore_ascii_case("STATS") {
        Some(CommandWord::Stats)
    } else if name.eq_ignore_ascii_case("DISSECT") {
        Some(CommandWord::Dissect)
    } else if name.eq_ignore_ascii_case("GROK") {
        Some(CommandWord::Grok)
    } else if name.eq_ignore_ascii_case("ENRICH") {
        Some(CommandWord::Enrich)
    } else if name.eq_ignore_ascii_case("LOOKUP") {
        Some(CommandWord::Lookup)
    } else {
        None
    }
}

#[tactic(auto, unfolding(crate::specs::Words::is_join))]
pub(crate) fn is_join(name: &str) -> bool
    ensures { result ≡ is_join name.now }
{
    name.eq_ignore_ascii_case("JOIN")
}

#[tactic(auto, unfolding(crate::specs::Words::is_append_separator))]
pub(crate) fn is_append_separator(name: &str) -> bool
    ensures { result ≡ is_append_separator name.now }
{
    name.eq_ignore_ascii_case("APPEND_SEPARATOR")
}

impl CommandWord {
    // Whether the command gives a query its first rows.
    pub(crate) fn is_source(self) -> bool
        ensures { result ≡ is_source self }
    {
        matches!(self, CommandWord::From | CommandWord::Row)
    }
}
