//! The names of a policy's tables.
ghost use Rattle.std.specs.Prelude.{◌≡◌, IfOk, OnOk};
ghost use Rattle.std.specs.BTreeMap.{get_by_text};
ghost use Rattle.table_files.specs.Numbers.{AreKnown};
ghost use Rattle.table_files.specs.Policies.{each_once, with_name};

use esql_types::{Seq, Text};
use std::alloc::{AllocError, Global};
use std::collections::BTreeMap;

/// Each name once, at its first place.
pub(crate) fn each_once(alloc: Global, names: &[Text]) -> Result<Seq<Text>, AllocError>
    ensures { IfOk result (λ once. once ≡ each_once names.now) }
{
    let mut once = Seq::new(alloc);
    let mut seen = BTreeMap::new(alloc);
    for name in names {
        add_once(alloc, &mut seen, &mut once, name)?;
    }
    Ok(once)
}

// A name that is known is passed.
fn add_once(
    alloc: Global,
    seen: &mut BTreeMap<String, ()>,
    once: &mut Seq<Text>,
    name: &Text,
) -> Result<(), AllocError>
    requires { AreKnown (get_by_text seen.old) once.old }
    ensures seen { OnOk result (AreKnown (get_by_text seen.new) once.new) }
    ensures once { OnOk result (once.new ≡ with_name once.old name.now) }
{
    if seen.contains_key(name.as_str()) {
        return Ok(());
    }
    let key = String::from_str(alloc, name.as_str())?;
    seen.insert(key, ())?;
    once.push(name.copy()?)?;
    Ok(())
}
