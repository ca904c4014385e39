use super::*;
use esql_ast::{Command, CommandKind, NameAt, Query, SourceCommand};
use esql_plan::{Catalog, PolicyShape, TableShape};
use esql_types::{Cell, Column, Kind, NodeId, Seq, Span, Text, Value};
use ndjson_load::Table;
use std::alloc::{AllocError, Global};
use std::test::Fail;

const PLACE: Span = Span { from: 0, to: 1 };

fn name_at(alloc: Global, name: &str) -> Result<NameAt, AllocError> {
    Ok(NameAt {
        name: Text::from_str(alloc, name)?,
        span: PLACE,
    })
}

// A query that joins `lang` on these columns.
fn joining(alloc: Global, columns: &[&str]) -> Result<Query, AllocError> {
    let mut commands = Seq::new(alloc);
    for column in columns {
        commands.push(Command {
            node: NodeId(1),
            span: PLACE,
            kind: CommandKind::Join {
                table: name_at(alloc, "lang")?,
                on: name_at(alloc, column)?,
            },
        })?;
    }
    Ok(Query {
        source: SourceCommand::OneRow {
            node: NodeId(0),
            span: PLACE,
            fields: Seq::new(alloc),
        },
        commands,
        nodes: 2,
    })
}

fn column(alloc: Global, name: &str, kind: Kind) -> Result<Column, AllocError> {
    Ok(Column {
        name: Text::from_str(alloc, name)?,
        kind,
    })
}

// A catalog of the table `lang`, which has a column of these names.
fn catalog(alloc: Global, names: &[&str]) -> Result<Catalog, AllocError> {
    let mut columns = Seq::new(alloc);
    for name in names {
        columns.push(column(alloc, name, Kind::Integer)?)?;
    }
    let mut tables = Seq::new(alloc);
    tables.push(TableShape {
        name: Text::from_str(alloc, "lang")?,
        columns,
    })?;
    Ok(Catalog {
        tables,
        policies: Seq::new(alloc),
    })
}

fn push_columns(out: &mut String, columns: &[Column]) -> Result<(), AllocError> {
    for column in columns {
        write!(out, " {}", column.name.as_str())?;
    }
    Ok(())
}

fn push_policy(out: &mut String, policy: &PolicyShape) -> Result<(), AllocError> {
    write!(out, "{}:", policy.name.as_str())?;
    for number in policy.tables.as_slice() {
        write!(out, " {number}")?;
    }
    write!(out, " {} gives", policy.match_field.name.as_str())?;
    push_columns(out, policy.fields.as_slice())?;
    out.push_str("; ")
}

fn shown(alloc: Global, catalog: &Catalog) -> Result<String, AllocError> {
    let mut out = String::new(alloc);
    for table in catalog.tables.as_slice() {
        write!(out, "{}:", table.name.as_str())?;
        push_columns(&mut out, table.columns.as_slice())?;
        out.push_str("; ")?;
    }
    for policy in catalog.policies.as_slice() {
        push_policy(&mut out, policy)?;
    }
    Ok(out)
}

// The columns that a query joins on, those of the table, and the extended catalog.
const CASES: &[(&[&str], &[&str], &str)] = &[
    (&[], &["code", "name"], "lang: code name; "),
    (
        &["code", "name", "code"],
        &["code", "name"],
        "lang: code name; lang#: code name #; lang#: 1 # gives code name; lang#code: 1 code gives #; lang#name: 1 name gives #; ",
    ),
    (
        &["nope", "#"],
        &["#", "code", "###"],
        "lang: # code ###; lang#: # code ### ##; lang#: 1 ## gives # code ###; lang##: 1 # gives ##; ",
    ),
];

#[test]
fn joined_tables_have_their_policies(rt: HostRuntime) -> Result<(), Fail> {
    for (on, columns, wanted) in CASES {
        let query = joining(rt.alloc(), on)?;
        let catalog = catalog(rt.alloc(), columns)?;
        assert!(rt; catalog.tables.len() < 10 && query.commands.len() < 10);
        let extended = extend_catalog(rt.alloc(), &query, catalog)?;
        let shown = shown(rt.alloc(), &extended)?;
        assert_eq!(rt; shown.as_str(), *wanted);
    }
    Ok(())
}

fn rows(alloc: Global, count: i32) -> Result<Table, AllocError> {
    let mut rows = Seq::new(alloc);
    for code in 0..count {
        let mut row = Seq::new(alloc);
        row.push(Cell::one(alloc, Value::Int(code)))?;
        rows.push(row)?;
    }
    Ok(Table::from_rows(rows))
}

// The place that a row has as its last cell.
fn place_in(row: &Seq<Cell>) -> Option<i64> {
    match row.at(1)?.at(0)? {
        Value::Long(place) => Some(*place),
        _ => None,
    }
}

#[test]
fn joined_tables_have_the_places_of_their_rows(rt: HostRuntime) -> Result<(), Fail> {
    let query = joining(rt.alloc(), &["code", "code"])?;
    let catalog = catalog(rt.alloc(), &["code"])?;
    let mut tables = Seq::new(rt.alloc());
    tables.push(rows(rt.alloc(), 3)?)?;
    assert_eq!(rt; catalog.tables.len(), tables.len());
    let extended = extend_tables(rt.alloc(), &query, &catalog, tables)?;
    assert_eq!(rt; extended.len(), 2);
    let Some(placed) = extended.at(1) else {
        return Ok(());
    };
    assert_eq!(rt; placed.rows(), 3);
    for (place, row) in placed.as_slice().iter().enumerate() {
        assert_eq!(rt; row.len(), 2);
        assert_eq!(rt; place_in(row), Some(place as i64));
    }
    Ok(())
}
