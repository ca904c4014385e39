ghost use Rattle.std.specs.Prelude.{◌≡◌, ◌≤◌, length, IfSome, MatchOption};
ghost use Rattle.std.specs.Str.{chars};
ghost use Rattle.function_rules.specs.Wildcards.{itself, wildcards, is_like};
ghost use Rattle.text_match.specs.Fronts.{wildcard_in, stand_for_end, NoEnd, SameEnds, FrontIs};

use crate::parts::{Part, cut_char, cut_part};

// What the parts of a pattern before its first run say of a text.
enum Front<'p, 't> {
    // There is no run, and they stand for the whole text.
    Whole,
    // They stand for no front of the text, or there is no run and they stand for less than it.
    Differs,
    // They stand for what is before `text`, and the rest of the pattern is a run and `pattern`.
    Run { pattern: &'p str, text: &'t str },
}

fn match_front<'p, 't>(mut pattern: &'p str, mut text: &'t str) -> Front<'p, 't>
    ensures { FrontIs (wildcards pattern.now) (chars text.now) result }
{
    while let Some((part, behind)) = cut_part(pattern) {
        match part {
            Part::AnyRun => return Front::Run {
                pattern: behind,
                text,
            },
            Part::AnyOne => match cut_char(text) {
                Some((_, rest)) => text = rest,
                None => return Front::Differs,
            },
            Part::Itself(own) => match cut_char(text) {
                Some((character, rest)) if character == own => text = rest,
                _ => return Front::Differs,
            },
        }
        pattern = behind;
    }
    if text.is_empty() {
        Front::Whole
    } else {
        Front::Differs
    }
}

// The text from the first place of the character on.
fn from_first(own: char, mut text: &str) -> Option<&str>
    ensures place { MatchOption result (NoEnd (itself own) (chars text.now)) (λ rest. SameEnds (itself own) (chars text.now) (chars rest.now)) }
    ensures shorter { IfSome result (λ rest. length (chars rest.now) ≤ length (chars text.now)) }
{
    while let Some((character, behind)) = cut_char(text) {
        if character == own {
            return Some(text);
        }
        text = behind;
    }
    None
}

// The text from the first place on where a pattern that begins with the part may stand for it.
fn first_place(part: Part, text: &str) -> Option<&str>
    ensures place { MatchOption result (NoEnd (wildcard_in part) (chars text.now)) (λ rest. SameEnds (wildcard_in part) (chars text.now) (chars rest.now)) }
    ensures shorter { IfSome result (λ rest. length (chars rest.now) ≤ length (chars text.now)) }
{
    match part {
        Part::Itself(own) => from_first(own, text),
        Part::AnyRun | Part::AnyOne => Some(text),
    }
}

// Whether the pattern stands for some end of the text. Where the parts before a run are first found they leave the most text
// for those behind it, so no earlier run is tried again.
fn end_is_like(mut pattern: &str, mut text: &str) -> bool
    ensures { result ≡ stand_for_end (wildcards pattern.now) (chars text.now) }
{
    while let Some((part, _)) = cut_part(pattern) {
        let Some(place) = first_place(part, text) else {
            return false;
        };
        match match_front(pattern, place) {
            Front::Whole => return true,
            Front::Differs => match cut_char(place) {
                Some((_, rest)) => text = rest,
                None => return false,
            },
            Front::Run {
                pattern: behind,
                text: rest,
            } => {
                pattern = behind;
                text = rest;
            }
        }
    }
    true
}

/// Whether the pattern stands for the whole text (LIKE, after the ES|QL reference).
///
/// `*` stands for any run of characters, `?` for any one character, a backslash makes the next character stand for itself, and
/// a last lone backslash stands for itself. Takes no memory.
pub fn like(pattern: &str, text: &str) -> bool
    ensures { result ≡ is_like pattern.now text.now }
{
    match match_front(pattern, text) {
        Front::Whole => true,
        Front::Differs => false,
        Front::Run { pattern, text } => end_is_like(pattern, text),
    }
}
