ghost use Rattle.std.specs.Prelude.{◌≡◌, ◌++◌, ◌∷◌, [], List, length, OnOk};
ghost use Rattle.esql_types.specs.declared.value.Value.{Value as PlainValue};
ghost use Rattle.enrich_match.specs.Places.{places_after, places_at};

use crate::cells::copies;
use crate::key::MatchKey;
use crate::places::add_places;
use esql_types::{Cell, Seq};
use indexmap::IndexMap;
use std::alloc::{AllocError, Global};

/// Adds a row's cells behind those of others, and keeps its place for each value of its match field.
pub(crate) fn add_row(
    alloc: Global,
    rows: &mut Seq<Seq<Cell>>,
    places: &mut IndexMap<MatchKey, Seq<usize>>,
    key: &Cell,
    fields: &[Cell],
) -> Result<(), AllocError>
    ensures cells { OnOk result (rows.new ≡ rows.old ++ fields.now ∷ []) }
    ensures places { OnOk result ((value : PlainValue) → places_at places.new.entries value ≡ places_after value (length rows.old) key.now (places_at places.old.entries value)) }
{
    add_places(alloc, places, key.as_slice(), rows.len())?;
    rows.push(copies(alloc, fields)?)?;
    Ok(())
}
