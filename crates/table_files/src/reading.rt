//! Reading the files that a name needs.
ghost use Rattle.std.specs.Prelude.{◌≡◌, ◌≤◌, ◌+◌, [], length, All, IfOk, IfErr};
ghost use Rattle.ndjson_load.specs.Shapes.{IsLoadable, NamesRise};
ghost use Rattle.table_files.specs.Policies.{each_once, entries_of_text};
ghost use Rattle.table_files.specs.Reading.{FindsOver, ReadsColumns, ReadsDocument, ReadsOver};
ghost use Rattle.table_files.specs.Stops.{CalledUntilStop, Says, IsNoReadFault};

use crate::Stop;
use crate::messages::{mapping_message, too_large, too_many};
use crate::once::each_once;
use crate::stop::bad_data;
use esql_io::Files;
use esql_types::{Seq, Text};
use ndjson_load::{MappedColumn, MappingError, ReadError, read_mapping, read_whole};
use policy_json::{PolicyText, read_policy};
use std::alloc::Global;

/// The most entries of a catalog: its tables, their columns, its policies, and the tables and fields of each.
pub(crate) const MAX_ENTRIES: usize = 100_000;

/// Reads a file whole, if it is there.
pub(crate) fn read_file<F: Files>(
    alloc: Global,
    files: &mut F,
    file: &str,
) -> Result<Option<Seq<u8>>, Stop>
    ensures told { Says [] (ReadsOver (F.holds files.old) file.now) result }
    ensures called { CalledUntilStop F.holds F.faults F.failed (λ asked. asked ≡ file.now) result files.old files.new }
{
    match read_whole(alloc, files, file) {
        Ok(bytes) => Ok(bytes),
        Err(ReadError::ReadFault) => Err(Stop::ReadFault {
            file: Text::from_str(alloc, file)?,
        }),
        Err(ReadError::TooLarge) => Err(bad_data(alloc, too_large(alloc, file)?)?),
        Err(ReadError::Memory(error)) => Err(Stop::Memory(error)),
    }
}

/// Whether a file is there.
pub(crate) fn find_file<F: Files>(files: &mut F, file: Text) -> Result<bool, Stop>
    ensures told { Says [] (FindsOver (F.holds files.old) file) result }
    ensures called { CalledUntilStop F.holds F.faults F.failed (λ asked. asked ≡ file) result files.old files.new }
{
    match files.open(file.as_str()) {
        Ok(found) => Ok(found),
        Err(_) => Err(Stop::ReadFault { file }),
    }
}

/// The columns of a mapping that was read, after so many entries.
pub(crate) fn read_columns(
    alloc: Global,
    bytes: &[u8],
    file: &str,
    entries: usize,
) -> Result<Seq<MappedColumn>, Stop>
    requires { entries ≤ MAX_ENTRIES }
    ensures told { Says [] (ReadsColumns bytes.now file.now entries) result }
    ensures loadable { IfOk result (All IsLoadable) }
    ensures rise { IfOk result NamesRise }
    ensures few { IfOk result (λ columns. entries + 1 + length columns ≤ MAX_ENTRIES) }
    ensures read { IfErr result IsNoReadFault }
{
    let columns = match read_mapping(alloc, bytes) {
        Ok(columns) => columns,
        Err(MappingError::Bad { cause }) => {
            return Err(bad_data(alloc, mapping_message(alloc, file, &cause)?)?);
        }
        Err(MappingError::Memory(error)) => return Err(Stop::Memory(error)),
    };
    if columns.len() < MAX_ENTRIES - entries {
        return Ok(columns);
    }
    Err(bad_data(alloc, too_many(alloc, file)?)?)
}

/// The policy of a document that was read, after so many entries, and the names of its tables, each once.
pub(crate) fn read_document(
    alloc: Global,
    bytes: &[u8],
    file: &str,
    entries: usize,
) -> Result<(PolicyText, Seq<Text>), Stop>
    requires { entries ≤ MAX_ENTRIES }
    ensures told { Says [] (ReadsDocument bytes.now file.now entries) result }
    ensures once { IfOk result (λ pair. pair.1 ≡ each_once pair.0.indices) }
    ensures few { IfOk result (λ pair. entries + entries_of_text pair.0 ≤ MAX_ENTRIES) }
    ensures read { IfErr result IsNoReadFault }
{
    let policy = match read_policy(alloc, bytes) {
        Ok(policy) => policy,
        Err(MappingError::Bad { cause }) => {
            return Err(bad_data(alloc, mapping_message(alloc, file, &cause)?)?);
        }
        Err(MappingError::Memory(error)) => return Err(Stop::Memory(error)),
    };
    let tables = each_once(alloc, policy.indices.as_slice())?;
    let left = MAX_ENTRIES - entries;
    if tables.len() < left && policy.fields.len() < left - tables.len() {
        return Ok((policy, tables));
    }
    Err(bad_data(alloc, too_many(alloc, file)?)?)
}
