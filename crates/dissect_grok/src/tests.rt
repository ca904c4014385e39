use super::*;
use esql_types::{Column, CrateMaker, Kind, Seq, Text};
use std::alloc::{AllocError, Global};
use std::test::Fail;

fn shown(alloc: Global, texts: &Seq<Text>) -> Result<String, AllocError> {
    let mut shown = String::new(alloc);
    for text in texts.as_slice() {
        shown.push_str(text.as_str())?;
        shown.push_str(";")?;
    }
    Ok(shown)
}

#[test]
fn a_line_in_three_columns(rt: HostRuntime) -> Result<(), Fail> {
    let dissect = Dissect::read(rt.alloc(), "%{y->} %{+p/2} %{+p/1} %{rest}", ",")?;
    let names = shown(rt.alloc(), dissect.names())?;
    assert_eq!(rt; names.as_str(), "y;p;rest;");
    let cut = dissect.cut(rt.alloc(), "2024  GET /a b")?;
    let texts = cut.unwrap_or(Seq::new(rt.alloc()));
    assert_eq!(rt; shown(rt.alloc(), &texts)?.as_str(), "2024;/a,GET;b;");
    Ok(())
}

fn names(alloc: Global, columns: &Seq<Column>) -> Result<String, AllocError> {
    let mut names = String::new(alloc);
    for column in columns.as_slice() {
        names.push_str(column.name.as_str())?;
        names.push_str(if column.kind == Kind::Integer {
            "!"
        } else {
            ";"
        })?;
    }
    Ok(names)
}

#[test]
fn two_numbers_of_one_name(rt: HostRuntime) -> Result<(), Fail> {
    let mut maker = CrateMaker::new(Seq::new(rt.alloc()));
    let pattern = "id=%{INT:n:int}( %{WORD:w})?-%{INT:n:int}";
    let Ok(grok) = Grok::read(rt.alloc(), &mut maker, pattern) else {
        return Err(Fail::new("not read"));
    };
    assert_eq!(rt; names(rt.alloc(), grok.columns())?.as_str(), "n!w;");
    let taken = grok.take(rt.alloc(), "an id=7-8")?;
    let mut lists = taken.unwrap_or(Seq::new(rt.alloc())).into_vec().into_iter();
    let numbers = lists.next().unwrap_or(Seq::new(rt.alloc()));
    assert_eq!(rt; shown(rt.alloc(), &numbers)?.as_str(), "7;8;");
    Ok(())
}
