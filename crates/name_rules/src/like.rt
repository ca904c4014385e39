ghost use Rattle.std.specs.Prelude.{◌≡◌, [], ◌∷◌, MatchOption};
ghost use Rattle.std.specs.Str.{chars};
ghost use Rattle.name_rules.specs.NameRules.{part_of, parts_of, like_name};
ghost use Rattle.name_rules.specs.NameFronts.{stand_for_end, FrontIs};

// What the parts of a pattern before its first run say of a name.
enum Front<'p, 'n> {
    // There is no run, and they stand for the whole name.
    Whole,
    // They stand for no front of the name, or there is no run and they stand for less than it.
    Differs,
    // They stand for what is before the second, and the rest of the pattern is a run and the first.
    Run(&'p str, &'n str),
}

// The first character of a text, and the text behind it.
fn cut_char(text: &str) -> Option<(char, &str)>
    ensures { MatchOption result (chars text.now ≡ []) (λ cut. chars text.now ≡ cut.0 ∷ chars cut.1.now) }
{
    let mut characters = text.chars();
    let first = characters.next()?;
    Some((first, characters.as_str()))
}

fn match_front<'p, 'n>(mut pattern: &'p str, mut name: &'n str) -> Front<'p, 'n>
    ensures { FrontIs (parts_of pattern.now) (chars name.now) result }
{
    while let Some((own, behind)) = cut_char(pattern) {
        if own == '*' {
            return Front::Run(behind, name);
        }
        match cut_char(name) {
            Some((character, rest)) if character == own => name = rest,
            _ => return Front::Differs,
        }
        pattern = behind;
    }
    if name.is_empty() {
        Front::Whole
    } else {
        Front::Differs
    }
}

// Whether the pattern stands for some end of the name. Where the parts before a run are first found they leave the most of the
// name for those behind it, so no earlier run is tried again.
fn end_is_like(mut pattern: &str, mut name: &str) -> bool
    ensures { result ≡ stand_for_end (parts_of pattern.now) (chars name.now) }
{
    while !pattern.is_empty() {
        match match_front(pattern, name) {
            Front::Whole => return true,
            Front::Differs => match cut_char(name) {
                Some((_, rest)) => name = rest,
                None => return false,
            },
            Front::Run(behind, rest) => {
                pattern = behind;
                name = rest;
            }
        }
    }
    true
}

/// Whether a pattern of names stands for the whole name (KEEP and DROP, after the ES|QL reference).
///
/// `*` is any run of characters, every other character itself. Takes no memory.
pub fn like_name(pattern: &str, name: &str) -> bool
    ensures { result ≡ like_name pattern.now name.now }
{
    match match_front(pattern, name) {
        Front::Whole => true,
        Front::Differs => false,
        Front::Run(pattern, name) => end_is_like(pattern, name),
    }
}
