ghost use Rattle.std.specs.Prelude.{◌≡◌, ◌≤◌, ◌⊎◌, Err, IfOk, OnOk};
ghost use Rattle.std.specs.String.{string_bytes};
ghost use Rattle.esql_types.specs.Counts.{Rose};
ghost use Rattle.esql_types.specs.Patterns.{IsReadable, IsUnreadable};
ghost use Rattle.function_rules.specs.Found.{wrapped, is_found, replaced};

use esql_types::{Maker, PatternError, Text};
use regex::{Regex, Template};
use std::alloc::{AllocError, Global};
use std::marker::Model;

/// A regular expression for whole texts, which contracts see as its wrapped pattern, the text that `regex` reads.
#[derive(Drop)]
pub struct WholeRegex {
    regex: Regex,
}

impl Model for WholeRegex {
    ghost use Rattle.std.specs.Prelude.{List, ℕ};
    ghost use Rattle.regex.specs.Strings.{regex_source};
    ghost use Rattle.esql_types.specs.Patterns.{IsReading};

    ghost Value = { List ℕ };

    ghost view = { λ whole. regex_source whole.regex };

    ghost invariant = { λ whole. IsReading (regex_source whole.regex) whole.regex };
}

// The pattern between the start and the end of a text.
fn wrap(alloc: Global, pattern: &str) -> Result<String, AllocError>
    ensures { IfOk result (λ text. string_bytes text ≡ wrapped pattern.now) }
{
    let mut text = String::from_str(alloc, "\\A(?:")?;
    text.push_str(pattern)?;
    text.push_str(")\\z")?;
    Ok(text)
}

impl WholeRegex {
    /// The regular expression of RLIKE for a pattern, which the maker is called for at most twice: for the pattern, so that no
    /// parenthesis of it closes the wrap's, and for the wrapped pattern.
    ///
    /// Refused: what is not readable, one of the two being so; what is too large, where the maker counted a refusal and noted
    /// the text that it refused, one of the two; and want of memory.
    pub fn new<M: Maker>(
        alloc: Global,
        maker: &mut M,
        pattern: &str,
    ) -> Result<WholeRegex, PatternError>
        ensures text { IfOk result (λ whole. whole ≡ wrapped pattern.now) }
        ensures readable { OnOk result (IsReadable pattern.now) }
        ensures wrap_readable { OnOk result (IsReadable (wrapped pattern.now)) }
        ensures not_read { result ≡ Err PatternError.NotRead → IsUnreadable pattern.now ⊎ IsUnreadable (wrapped pattern.now) }
        ensures rose { result ≡ Err PatternError.TooLarge → Rose (M.refused maker.old) (M.refused maker.new) }
        ensures noted { result ≡ Err PatternError.TooLarge
            → (M.last maker.new ≡ pattern.now) ⊎ (M.last maker.new ≡ wrapped pattern.now) }
        ensures count { M.refused maker.old ≤ M.refused maker.new }
        ensures kept { (result ≡ Err PatternError.TooLarge → ⊥) → M.last maker.new ≡ M.last maker.old }
        ensures uncounted { (result ≡ Err PatternError.TooLarge → ⊥) → M.refused maker.new ≡ M.refused maker.old }
    {
        match maker.build(alloc, pattern) {
            Ok(_) => {}
            Err(error) => return Err(error),
        }
        let text = match wrap(alloc, pattern) {
            Ok(text) => text,
            Err(error) => return Err(PatternError::Memory(error)),
        };
        match maker.build(alloc, text.as_str()) {
            Ok(regex) => Ok(WholeRegex { regex }),
            Err(error) => Err(error),
        }
    }

    /// Whether the pattern matches the whole text. The error is want of memory.
    pub fn matches(&self, alloc: Global, text: &str) -> Result<bool, AllocError>
        ensures { IfOk result (λ found. found ≡ is_found self.now text.now) }
    {
        let mut matcher = self.regex.matcher(alloc)?;
        Ok(matcher.is_match(text))
    }
}

/// A regular expression for parts of texts, which contracts see as its pattern.
#[derive(Drop)]
pub struct FreeRegex {
    regex: Regex,
}

impl Model for FreeRegex {
    ghost use Rattle.std.specs.Prelude.{List, ℕ};
    ghost use Rattle.regex.specs.Strings.{regex_source};
    ghost use Rattle.esql_types.specs.Patterns.{IsReading};

    ghost Value = { List ℕ };

    ghost view = { λ free. regex_source free.regex };

    ghost invariant = { λ free. IsReading (regex_source free.regex) free.regex };
}

impl FreeRegex {
    /// The regular expression of REPLACE for a pattern, which the maker is called for once.
    ///
    /// Refused: a pattern that is not readable; one that is too large, where the maker counted a refusal and noted the pattern;
    /// and want of memory.
    pub fn new<M: Maker>(
        alloc: Global,
        maker: &mut M,
        pattern: &str,
    ) -> Result<FreeRegex, PatternError>
        ensures text { IfOk result (λ free. free ≡ pattern.now) }
        ensures readable { OnOk result (IsReadable pattern.now) }
        ensures not_read { result ≡ Err PatternError.NotRead → IsUnreadable pattern.now }
        ensures rose { result ≡ Err PatternError.TooLarge → Rose (M.refused maker.old) (M.refused maker.new) }
        ensures noted { result ≡ Err PatternError.TooLarge → M.last maker.new ≡ pattern.now }
        ensures count { M.refused maker.old ≤ M.refused maker.new }
        ensures kept { (result ≡ Err PatternError.TooLarge → ⊥) → M.last maker.new ≡ M.last maker.old }
        ensures uncounted { (result ≡ Err PatternError.TooLarge → ⊥) → M.refused maker.new ≡ M.refused maker.old }
    {
        match maker.build(alloc, pattern) {
            Ok(regex) => Ok(FreeRegex { regex }),
            Err(error) => Err(error),
        }
    }

    /// The text with `with` in the place of each match, the leftmost ones that do not overlap. `with` is taken as it is. The
    /// error is want of memory.
    pub fn replace(&self, alloc: Global, text: &str, with: &str) -> Result<Text, AllocError>
        ensures { IfOk result (λ made. made ≡ replaced self.now text.now with.now) }
    {
        let mut matcher = self.regex.matcher(alloc)?;
        let template = Template::literal(alloc, with)?;
        let made = matcher.replace_all(alloc, text, &template)?;
        Ok(Text::from_string(made))
    }
}
