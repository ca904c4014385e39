use super::*;
use esql_ast::NameAt;
use esql_plan::{Catalog, TableShape};
use esql_types::{Column, Kind, Seq, Span, Text};
use row_semantics::NameRule;
use std::alloc::{AllocError, Global};
use std::test::Fail;

const TABLES: &[(&str, &[(&str, Kind)])] = &[
    ("t", &[("b", Kind::Long), ("a", Kind::Keyword)]),
    ("u", &[("c", Kind::Long), ("b", Kind::Long)]),
    ("v", &[("a", Kind::Long)]),
    ("t", &[("z", Kind::Long)]),
    ("w", &[("k", Kind::Long), ("k", Kind::Keyword)]),
];

// The names of FROM, its columns or the rule that is broken with the number of its name, and the numbers of the tables.
const CASES: &[(&[&str], &str, &[u32])] = &[
    (&["t"], "a b ", &[0]),
    (&["u", "t", "u"], "a b c ", &[1, 0]),
    (&["t", "v", "u"], "another kind at 1", &[0, 2, 1]),
    (&["u", "x"], "no table at 1", &[1]),
    (&["w"], "k ", &[4]),
    (&["w", "w"], "another kind at 1", &[4]),
];

fn catalog(alloc: Global) -> Result<Catalog, AllocError> {
    let mut tables = Seq::new(alloc);
    for (name, kinds) in TABLES {
        let columns = columns(alloc, kinds)?;
        let name = Text::from_str(alloc, name)?;
        tables.push(TableShape { name, columns })?;
    }
    Ok(Catalog {
        tables,
        policies: Seq::new(alloc),
    })
}

fn columns(alloc: Global, kinds: &[(&str, Kind)]) -> Result<Seq<Column>, AllocError> {
    let mut columns = Seq::new(alloc);
    for (name, kind) in kinds {
        let name = Text::from_str(alloc, name)?;
        columns.push(Column { name, kind: *kind })?;
    }
    Ok(columns)
}

fn names(alloc: Global, texts: &[&str]) -> Result<Seq<NameAt>, AllocError> {
    let mut names = Seq::new(alloc);
    for (place, text) in texts.iter().enumerate() {
        let name = Text::from_str(alloc, text)?;
        let place = (place & 0xffff) as u32;
        let span = Span {
            from: place,
            to: place,
        };
        names.push(NameAt { name, span })?;
    }
    Ok(names)
}

fn answer(alloc: Global, columns: Result<Seq<Column>, SourceError>) -> Result<String, AllocError> {
    match columns {
        Ok(columns) => listed(alloc, columns.as_slice()),
        Err(SourceError::Broken { rule, span }) => {
            let what = if rule == NameRule::BadKind {
                "another kind"
            } else {
                "no table"
            };
            format!(in alloc; "{what} at {}", span.from)
        }
        Err(SourceError::Memory(refused)) => Err(refused),
    }
}

fn listed(alloc: Global, columns: &[Column]) -> Result<String, AllocError> {
    let mut text = String::new(alloc);
    for column in columns {
        text.push_str(column.name.as_str())?;
        text.push(' ')?;
    }
    Ok(text)
}

#[test]
fn sources(rt: HostRuntime) -> Result<(), Fail> {
    let alloc = rt.alloc();
    let catalog = catalog(alloc)?;
    for (texts, wanted, numbers) in CASES {
        let names = names(alloc, texts)?;
        let columns = columns_of_tables(alloc, &catalog, names.as_slice());
        assert_eq!(rt; answer(alloc, columns)?.as_str(), *wanted);
        assert!(rt; catalog.tables.len() <= 4_294_967_295);
        let found = tables_named(alloc, &catalog, names.as_slice())?;
        assert_eq!(rt; found.as_slice(), *numbers);
    }
    Ok(())
}
