ghost use Rattle.std.specs.Prelude.{◌≡◌, ◌<◌, ◌+◌, [], ◌∷◌, ◌++◌, None, length, IfOk, OnOk};
ghost use Rattle.std.specs.BTreeMap.{get_by_text, IsEmpty};
ghost use Rattle.std.specs.Option.{option_copied};
ghost use Rattle.name_rules.specs.NameRules.{is_there, placed, rename_pair};
ghost use Rattle.name_rules.specs.Renames.{AreInverse, IsBegun, AreRenames, IsCalled, IsLetGo, IsMoved, IsWithout, named_by, seen_of};

use crate::Renamed;
use esql_ast::RenamePair;
use esql_types::{Seq, Text};
use std::alloc::{AllocError, Global};
use std::collections::BTreeMap;

/// The columns of RENAME between its pairs.
///
/// Columns of one name go through RENAME together, so their name now is found at the place of the first of them.
#[derive(Drop)]
pub(crate) struct Renames {
    /// For each column the place of the first one that had its name.
    pub(crate) firsts: Seq<usize>,
    /// The names now of the columns whose first one is at a place; none where another column took their name.
    pub(crate) names: Seq<Option<Text>>,
    /// The place of each name that stands.
    pub(crate) places: BTreeMap<String, usize>,
}

// No columns so far.
fn no_columns(alloc: Global) -> Renames
    ensures firsts { result.firsts ≡ [] }
    ensures names { result.names ≡ [] }
    ensures places { IsEmpty result.places }
{
    Renames {
        firsts: Seq::new(alloc),
        names: Seq::new(alloc),
        places: BTreeMap::new(alloc),
    }
}

// One more column, whose place is the next one.
fn add_column(
    alloc: Global,
    renames: Renames,
    name: &Text,
    place: usize,
) -> Result<Renames, AllocError>
    requires { IsBegun renames place }
    ensures begun { IfOk result (λ new. IsBegun new (place + 1)) }
    ensures seen { IfOk result (λ new. seen_of new ≡ seen_of renames ++ record { name = name.now; place = place } ∷ []) }
{
    let Renames {
        firsts,
        names,
        places,
    } = renames;
    let mut firsts = firsts;
    let mut names = names;
    let mut places = places;
    if let Some(first) = places.get(name.as_str()) {
        firsts.push(*first)?;
        names.push(None)?;
        return Ok(Renames {
            firsts,
            names,
            places,
        });
    }
    let key = String::from_str(alloc, name.as_str())?;
    places.insert(key, place)?;
    firsts.push(place)?;
    names.push(Some(name.copy()?))?;
    Ok(Renames {
        firsts,
        names,
        places,
    })
}

/// Columns under their names.
pub(crate) fn columns_named(alloc: Global, names: &[Text]) -> Result<Renames, AllocError>
    requires { length names.now < 4294967296 }
    ensures renames { IfOk result AreRenames }
    ensures seen { IfOk result (λ renames. seen_of renames ≡ placed names.now) }
{
    let mut renames = no_columns(alloc);
    let mut place = 0;
    for name in names {
        renames = add_column(alloc, renames, name, place)?;
        place += 1;
    }
    Ok(renames)
}

/// Whether some column has the name.
pub(crate) fn is_there(renames: &Renames, name: &str) -> bool
    requires { AreRenames renames.now }
    ensures { result ≡ is_there (seen_of renames.now) name.now }
{
    renames.places.contains_key(name)
}

// No column has the name any more.
fn let_go(names: &mut Seq<Option<Text>>, places: &mut BTreeMap<String, usize>, name: &str)
    requires { AreInverse names.old (get_by_text places.old) }
    ensures names { IsLetGo name.now names.old names.new }
    ensures places { IsWithout name.now (get_by_text places.old) (get_by_text places.new) }
{
    if let Some(place) = places.remove(name) {
        names.replace(place, None);
    }
}

// The columns of a name get another one, which no column has.
fn call(
    alloc: Global,
    names: &mut Seq<Option<Text>>,
    places: &mut BTreeMap<String, usize>,
    before: &str,
    after: &Text,
) -> Result<(), AllocError>
    requires inverse { AreInverse names.old (get_by_text places.old) }
    requires free { get_by_text places.old after.now ≡ None }
    ensures names { OnOk result (IsCalled before.now after.now names.old names.new) }
    ensures places { OnOk result (IsMoved before.now after.now (get_by_text places.old) (get_by_text places.new)) }
{
    let place = match places.remove(before) {
        Some(place) => place,
        None => return Ok(()),
    };
    names.replace(place, Some(after.copy()?));
    let key = String::from_str(alloc, after.as_str())?;
    places.insert(key, place)?;
    Ok(())
}

/// A pair of RENAME: another column of the new name goes, and the column of the old name gets the new one in its place.
pub(crate) fn rename_pair(
    alloc: Global,
    renames: Renames,
    pair: &RenamePair,
) -> Result<Renames, AllocError>
    requires { AreRenames renames }
    ensures renames { IfOk result AreRenames }
    ensures seen { IfOk result (λ new. seen_of new ≡ rename_pair (seen_of renames) pair.now) }
{
    let before = pair.before.name.as_str();
    let after = pair.after.name.as_str();
    if before == after {
        return Ok(renames);
    }
    let Renames {
        firsts,
        names,
        places,
    } = renames;
    let mut names = names;
    let mut places = places;
    let_go(&mut names, &mut places, after);
    call(alloc, &mut names, &mut places, before, &pair.after.name)?;
    Ok(Renames {
        firsts,
        names,
        places,
    })
}

fn push_named(
    columns: &mut Seq<Renamed>,
    name: Option<&Option<Text>>,
    place: u32,
) -> Result<(), AllocError>
    ensures { OnOk result (columns.new ≡ columns.old ++ named_by (option_copied name.entry) place) }
{
    match name {
        Some(Some(name)) => columns.push(Renamed {
            name: name.copy()?,
            place,
        }),
        _ => Ok(()),
    }
}

/// The columns that are left, in their order.
pub(crate) fn columns_left(alloc: Global, renames: &Renames) -> Result<Seq<Renamed>, AllocError>
    requires { AreRenames renames.now }
    ensures { IfOk result (λ columns. columns ≡ seen_of renames.now) }
{
    let mut columns = Seq::new(alloc);
    let mut place = 0;
    for first in renames.firsts.as_slice() {
        push_named(&mut columns, renames.names.at(*first), place)?;
        place += 1;
    }
    Ok(columns)
}
