ghost use Rattle.std.specs.Prelude.{◌≡◌, ◌<◌, ◌++◌, [], map, length, None, IfOk, OnOk, MatchResult};
ghost use Rattle.std.specs.List.{list_any, list_all};
ghost use Rattle.name_rules.specs.NameRules.{meets, first_unmet, is_star, rank_of, meets_at_rank, last_of_rank, winner, is_place, keep_places, is_met, drop_places};
ghost use Rattle.name_rules.specs.NamePlaces.{place_where, places_from, IsNameRefusal};

use crate::like_name;
use esql_ast::NamePattern;
use esql_types::{Seq, Span, Text};
use std::alloc::{AllocError, Global};

/// Why KEEP or DROP is refused: the first of its patterns that no column meets.
#[derive(Debug, Drop)]
pub enum NameError {
    /// It is a full name.
    UnknownColumn { span: Span },
    /// It is a pattern that has a `*`.
    NoMatch { span: Span },
    /// Memory was refused.
    Memory(AllocError),
}

impl From<AllocError> for NameError {
    ghost use Rattle.name_rules.specs.NamePlaces.{IsWantOfNames};

    ghost from_gives = { λ _ error. IsWantOfNames error };

    fn from(refused: AllocError) -> NameError {
        NameError::Memory(refused)
    }
}

fn meets(pattern: &NamePattern, name: &str) -> bool
    ensures { result ≡ meets pattern.now name.now }
{
    if pattern.wild {
        like_name(pattern.text.as_str(), name)
    } else {
        pattern.text.as_str() == name
    }
}

fn meets_some(pattern: &NamePattern, names: &[Text]) -> bool
    ensures { result ≡ list_any (meets pattern.now) names.now }
{
    names.iter().any(|name| meets(pattern, name.as_str()))
}

fn is_met(patterns: &[NamePattern], name: &str) -> bool
    ensures { result ≡ is_met patterns.now name.now }
{
    patterns.iter().any(|pattern| meets(pattern, name))
}

// Refuses the first pattern that no name meets.
fn check_met(names: &[Text], patterns: &[NamePattern]) -> Result<(), NameError>
    ensures { MatchResult result (λ _. first_unmet names.now patterns.now ≡ None) (IsNameRefusal names.now patterns.now) }
{
    for pattern in patterns {
        if meets_some(pattern, names) {
            continue;
        }
        if pattern.wild {
            return Err(NameError::NoMatch { span: pattern.span });
        }
        return Err(NameError::UnknownColumn { span: pattern.span });
    }
    Ok(())
}

fn is_star(text: &str) -> bool
    ensures { result ≡ is_star text.now }
{
    text.as_bytes().iter().all(|byte| *byte == b'*')
}

fn rank_of(pattern: &NamePattern) -> u8
    ensures { result ≡ rank_of pattern.now }
{
    if !pattern.wild {
        return 2;
    }
    if is_star(pattern.text.as_str()) { 0 } else { 1 }
}

fn meets_at_rank(rank: u8, name: &str, pattern: &NamePattern) -> bool
    ensures { result ≡ meets_at_rank rank name.now pattern.now }
{
    rank_of(pattern) == rank && meets(pattern, name)
}

// The place of the rightmost pattern of a rank that meets the name.
fn last_of_rank(rank: u8, patterns: &[NamePattern], name: &str) -> Option<usize>
    ensures { result ≡ last_of_rank rank patterns.now name.now }
{
    let mut place = patterns.len();
    while place > 0 {
        place -= 1;
        if meets_at_rank(rank, name, &patterns[place]) {
            return Some(place);
        }
    }
    None
}

fn winner(patterns: &[NamePattern], name: &str) -> Option<usize>
    ensures { result ≡ winner patterns.now name.now }
{
    last_of_rank(2, patterns, name)
        .or_else(|| last_of_rank(1, patterns, name))
        .or_else(|| last_of_rank(0, patterns, name))
}

fn winners(
    alloc: Global,
    names: &[Text],
    patterns: &[NamePattern],
) -> Result<Seq<Option<usize>>, AllocError>
    ensures { IfOk result (λ won. won ≡ map (winner patterns.now) names.now) }
{
    let mut won = Seq::new(alloc);
    for name in names {
        won.push(winner(patterns, name.as_str()))?;
    }
    Ok(won)
}

fn is_place(winning: usize, won: Option<usize>) -> bool
    ensures { result ≡ is_place winning won }
{
    matches!(won, Some(place) if place == winning)
}

fn push_where(stays: bool, places: &mut Seq<u32>, place: u32) -> Result<(), AllocError>
    ensures { OnOk result (places.new ≡ places.old ++ place_where stays place) }
{
    if stays {
        places.push(place)?;
    }
    Ok(())
}

// Adds the places of the names that a pattern wins.
fn push_won(places: &mut Seq<u32>, won: &[Option<usize>], winning: usize) -> Result<(), AllocError>
    requires { length won.now < 4294967296 }
    ensures { OnOk result (places.new ≡ places.old ++ places_from (is_place winning) 0 won.now) }
{
    let mut place = 0;
    for one in won {
        push_where(is_place(winning, *one), places, place)?;
        place += 1;
    }
    Ok(())
}

/// The places of the columns that KEEP leaves, in their new order (after the ES|QL reference).
///
/// A column stays where a pattern meets it. A full name ranks above a pattern with `*` and other characters, and that above `*`
/// alone; of the patterns of the highest rank that meet a column the rightmost wins it. The columns stand by the pattern that
/// wins them, and then as they stood.
///
/// Refused at the first pattern that no column meets.
pub fn keep_order(
    alloc: Global,
    names: &Seq<Text>,
    patterns: &Seq<NamePattern>,
) -> Result<Seq<u32>, NameError>
    requires { length names.now < 4294967296 }
    ensures { MatchResult result (λ places. (places ≡ keep_places names.now patterns.now) × (first_unmet names.now patterns.now ≡ None)) (IsNameRefusal names.now patterns.now) }
{
    check_met(names.as_slice(), patterns.as_slice())?;
    let won = winners(alloc, names.as_slice(), patterns.as_slice())?;
    let mut places = Seq::new(alloc);
    for winning in 0..patterns.len() {
        push_won(&mut places, won.as_slice(), winning)?;
    }
    Ok(places)
}

/// The places of the columns that DROP leaves, in their order: those that no pattern meets.
///
/// Refused at the first pattern that no column meets.
pub fn drop_names(
    alloc: Global,
    names: &Seq<Text>,
    patterns: &Seq<NamePattern>,
) -> Result<Seq<u32>, NameError>
    requires { length names.now < 4294967296 }
    ensures { MatchResult result (λ places. (places ≡ drop_places names.now patterns.now) × (first_unmet names.now patterns.now ≡ None)) (IsNameRefusal names.now patterns.now) }
{
    check_met(names.as_slice(), patterns.as_slice())?;
    let mut places = Seq::new(alloc);
    let mut place = 0;
    for name in names.as_slice() {
        let stays = !is_met(patterns.as_slice(), name.as_str());
        push_where(stays, &mut places, place)?;
        place += 1;
    }
    Ok(places)
}
