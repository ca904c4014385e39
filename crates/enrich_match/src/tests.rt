use super::*;
use esql_types::{Cell, Seq, Text, Value};
use std::alloc::{AllocError, Global};
use std::test::Fail;

fn text(alloc: Global, text: &str) -> Result<Cell, AllocError> {
    Ok(Cell::one(alloc, Value::Text(Text::from_str(alloc, text)?)))
}

fn add(alloc: Global, lookup: &mut Lookup, key: i64, name: &str) -> Result<(), AllocError> {
    let mut fields = Seq::new(alloc);
    fields.push(text(alloc, name)?)?;
    lookup.add(&Cell::one(alloc, Value::Long(key)), fields.as_slice())
}

fn shown(alloc: Global, cell: &Cell) -> Result<String, AllocError> {
    let mut line = String::new(alloc);
    for value in cell.as_slice() {
        match value {
            Value::Text(text) => line.push_str(text.as_str())?,
            _ => line.push_str("?")?,
        }
        line.push_str(" ")?;
    }
    Ok(line)
}

#[test]
fn rows_are_found(rt: HostRuntime) -> Result<(), Fail> {
    let alloc = rt.alloc();
    let mut lookup = Lookup::new(alloc, 1);
    add(alloc, &mut lookup, 1, "en")?;
    add(alloc, &mut lookup, 1, "eng")?;
    add(alloc, &mut lookup, 2, "fr")?;
    let one = lookup.probe(alloc, &Cell::one(alloc, Value::Int(1)), 0)?;
    assert_eq!(rt; shown(alloc, &one)?.as_str(), "en eng ");
    let mut both = Cell::one(alloc, Value::Long(2));
    both.push(Value::Long(1))?;
    let cells = lookup.probe_all(alloc, &both)?;
    assert_eq!(rt; cells.len(), 1);
    assert_eq!(rt;
        shown(alloc, &lookup.probe(alloc, &both, 0)?)?.as_str(),
        "en eng fr "
    );
    assert_eq!(rt; lookup.probe(alloc, &Cell::null(alloc), 0)?.len(), 0);
    Ok(())
}
