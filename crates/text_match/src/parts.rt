ghost use Rattle.std.specs.Prelude.{◌≡◌, [], ◌∷◌, MatchOption};
ghost use Rattle.std.specs.Str.{chars};
ghost use Rattle.function_rules.specs.Wildcards.{wildcards};
ghost use Rattle.text_match.specs.Fronts.{wildcard_in};

// A part of a pattern.
#[derive(Clone, Copy)]
pub(crate) enum Part {
    AnyRun,
    AnyOne,
    Itself(char),
}

// The first character of a text, and the text behind it.
pub(crate) fn cut_char(text: &str) -> Option<(char, &str)>
    ensures { MatchOption result (chars text.now ≡ []) (λ cut. chars text.now ≡ cut.0 ∷ chars cut.1.now) }
{
    let mut characters = text.chars();
    let first = characters.next()?;
    Some((first, characters.as_str()))
}

// The first part of a pattern, and the pattern behind it.
pub(crate) fn cut_part(pattern: &str) -> Option<(Part, &str)>
    ensures { MatchOption result (wildcards pattern.now ≡ []) (λ cut. wildcards pattern.now ≡ wildcard_in cut.0 ∷ wildcards cut.1.now) }
{
    let (character, behind) = cut_char(pattern)?;
    match character {
        '*' => Some((Part::AnyRun, behind)),
        '?' => Some((Part::AnyOne, behind)),
        '\\' => match cut_char(behind) {
            Some((own, rest)) => Some((Part::Itself(own), rest)),
            None => Some((Part::Itself('\\'), behind)),
        },
        own => Some((Part::Itself(own), behind)),
    }
}
