use crate::{drop_names, keep_order, like_name, rename_pairs};
use esql_ast::{NameAt, NamePattern, RenamePair};
use esql_types::{Seq, Span, Text};
use std::alloc::{AllocError, Global};
use std::test::Fail;

const SPAN: Span = Span { from: 0, to: 1 };

fn names(alloc: Global) -> Result<Seq<Text>, AllocError> {
    let mut names = Seq::new(alloc);
    for name in ["id", "first_name", "first_day", "last_name"] {
        names.push(Text::from_str(alloc, name)?)?;
    }
    Ok(names)
}

fn pattern(alloc: Global, text: &str, wild: bool) -> Result<NamePattern, AllocError> {
    let text = Text::from_str(alloc, text)?;
    let span = SPAN;
    Ok(NamePattern { text, wild, span })
}

fn name_at(alloc: Global, name: &str) -> Result<NameAt, AllocError> {
    let name = Text::from_str(alloc, name)?;
    Ok(NameAt { name, span: SPAN })
}

#[test]
fn patterns_stand_for_names(rt: HostRuntime) -> Result<(), Fail> {
    assert!(rt; like_name("*é*ab", "caféaab"));
    assert!(rt; !like_name("a*c?", "abcd"));
    Ok(())
}

#[test]
fn keep_by_the_best_pattern(rt: HostRuntime) -> Result<(), Fail> {
    let names = names(rt.alloc())?;
    assert_eq!(rt; names.len(), 4);
    let mut kept = Seq::new(rt.alloc());
    kept.push(pattern(rt.alloc(), "first_name", false)?)?;
    kept.push(pattern(rt.alloc(), "*", true)?)?;
    kept.push(pattern(rt.alloc(), "first*", true)?)?;
    kept.push(pattern(rt.alloc(), "first_name", false)?)?;
    let places = keep_order(rt.alloc(), &names, &kept)?;
    assert_eq!(rt; places.as_slice(), [0, 3, 2, 1].as_slice());
    Ok(())
}

#[test]
fn drop_what_is_met(rt: HostRuntime) -> Result<(), Fail> {
    let names = names(rt.alloc())?;
    assert_eq!(rt; names.len(), 4);
    let mut dropped = Seq::new(rt.alloc());
    dropped.push(pattern(rt.alloc(), "first*", true)?)?;
    let places = drop_names(rt.alloc(), &names, &dropped)?;
    assert_eq!(rt; places.as_slice(), [0, 3].as_slice());
    Ok(())
}

#[test]
fn rename_over_another(rt: HostRuntime) -> Result<(), Fail> {
    let before = name_at(rt.alloc(), "id")?;
    let after = name_at(rt.alloc(), "last_name")?;
    let names = names(rt.alloc())?;
    assert_eq!(rt; names.len(), 4);
    let mut pairs = Seq::new(rt.alloc());
    pairs.push(RenamePair { before, after })?;
    let columns = rename_pairs(rt.alloc(), &names, &pairs)?;
    assert_eq!(rt; columns.len(), 3);
    assert_eq!(rt; columns.as_slice()[0].name.as_str(), "last_name");
    Ok(())
}
