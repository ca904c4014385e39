//! The word of a command, and what has to come after it.

ghost use Rattle.std.specs.Prelude.{◌≡◌, []};
ghost use Rattle.esql_commands.specs.Begins.{want_pattern, place_after, source_place, piped_place, word_in, begin_source, begin_command};

use crate::field::want_field;
use crate::sort::want_key;
use crate::words::command_word;
use crate::{
    Clause, CommandWord, EnrichPoint, FromPoint, JoinPoint, PatternPoint, PatternUse, Place, Point,
    RenamePoint, Slot,
};
use esql_phrases::Lexeme;
use esql_types::Seq;
use std::alloc::Global;

fn want_pattern(alloc: Global, of: PatternUse) -> Place
    ensures { result ≡ want_pattern of }
{
    let here = PatternPoint::Want {
        patterns: Seq::new(alloc),
    };
    Place::At(Point::Pattern { of, here })
}

fn place_after(alloc: Global, word: CommandWord) -> Place
    ensures { result ≡ place_after word }
{
    match word {
        CommandWord::From => Place::At(Point::From(FromPoint::Want {
            tables: Seq::new(alloc),
        })),
        CommandWord::Row => want_field(Clause::Row, Seq::new(alloc)),
        CommandWord::Where => Place::Expression(Slot::Filter),
        CommandWord::Eval => want_field(Clause::Eval, Seq::new(alloc)),
        CommandWord::Keep => want_pattern(alloc, PatternUse::Keep),
        CommandWord::Drop => want_pattern(alloc, PatternUse::Drop),
        CommandWord::Rename => Place::At(Point::Rename(RenamePoint::Want {
            pairs: Seq::new(alloc),
        })),
        CommandWord::Sort => want_key(Seq::new(alloc)),
        CommandWord::Limit => Place::At(Point::Limit),
        CommandWord::MvExpand => Place::At(Point::Expand),
        CommandWord::Stats => Place::At(Point::Stats),
        CommandWord::Dissect => Place::Expression(Slot::Dissect),
        CommandWord::Grok => Place::Expression(Slot::Grok),
        CommandWord::Enrich => Place::At(Point::Enrich(EnrichPoint::Want)),
        CommandWord::Lookup => Place::At(Point::Join(JoinPoint::Lookup)),
    }
}

fn source_place(alloc: Global, word: Option<CommandWord>) -> Option<Place>
    ensures { result ≡ source_place word }
{
    match word {
        Some(word) if word.is_source() => Some(place_after(alloc, word)),
        _ => None,
    }
}

fn piped_place(alloc: Global, word: Option<CommandWord>) -> Option<Place>
    ensures { result ≡ piped_place word }
{
    match word {
        Some(word) if !word.is_source() => Some(place_after(alloc, word)),
        _ => None,
    }
}

fn word_in(next: Lexeme) -> Option<CommandWord>
    ensures { result ≡ word_in next }
{
    match next {
        Lexeme::Plain(name) => command_word(name.name.as_str()),
        _ => None,
    }
}

/// What has to come after a lexeme that is the word of a source command, or `None` where it is none. Takes no memory.
pub fn begin_source(alloc: Global, next: Lexeme) -> Option<Place>
    ensures { result ≡ begin_source next }
{
    source_place(alloc, word_in(next))
}

/// What has to come after a lexeme that is the word of a command after `|`, or `None` where it is none. Takes no memory.
pub fn begin_command(alloc: Global, next: Lexeme) -> Option<Place>
    ensures { result ≡ begin_command next }
{
    piped_place(alloc, word_in(next))
}
