//! Reading the rows of tables.
ghost use Rattle.std.specs.Prelude.{◌≡◌, All, IfOk, map};
ghost use Rattle.std.specs.List.{AllZip};
ghost use Rattle.std.specs.Option.{option_copied};
ghost use Rattle.esql_types.specs.Spans.{SpanFits};
ghost use Rattle.esql_ast.specs.Fits.{QueryFits};
ghost use Rattle.table_files.specs.Answers.{LoadsGathered, MayBeGathered};
ghost use Rattle.table_files.specs.Asked.{AskedToLoad};
ghost use Rattle.table_files.specs.Catalog.{HasRows, Loads, row_file};
ghost use Rattle.table_files.specs.Found.{table_in, tables_of};
ghost use Rattle.table_files.specs.Stops.{CalledUntilStop, Says};
ghost use Rattle.table_files.specs.Tables.{IsTableOf};

use crate::messages::{row_file, row_message, too_large};
use crate::stop::{bad_data, unknown_table};
use crate::tables::{FoundTable, TableSource};
use crate::{Gathered, Loaded, Stop};
use esql_ast::Query;
use esql_io::Files;
use esql_types::Seq;
use ndjson_load::{LoadError, Table, load_table};
use std::alloc::Global;

/// The rows of the tables that were gathered for a query of a text, in turn, up to the first bad file.
///
/// The rows of a table are those of its file `NAME.ndjson`, in the folder where one is named. Where one is no longer there the
/// query is `Refused` where its name stands, which is the policy's for a table that a policy alone has; one that is too large, or has
/// a bad row, is `BadData`. `ReadFault` comes only where a call on the named file failed, which is one that was asked for, and where a
/// call failed nothing else does but `Memory`.
pub fn load<F: Files>(
    alloc: Global,
    text: &str,
    query: &Query,
    folder: Option<&str>,
    gathered: Gathered,
    files: &mut F,
) -> Result<Loaded, Stop>
    requires fits { QueryFits text.now query.now }
    requires gathered { MayBeGathered (option_copied folder) query.now gathered }
    ensures told { Says text.now (LoadsGathered (option_copied folder.entry) (F.holds files.old) gathered) result }
    ensures shaped { IfOk result (λ loaded. AllZip IsTableOf (tables_of gathered) loaded.tables) }
    ensures called { CalledUntilStop F.holds F.faults F.failed (AskedToLoad (option_copied folder.entry) (F.holds files.old) (tables_of gathered)) result files.old files.new }
{
    let Gathered { catalog, sources } = gathered;
    let tables = load_tables(alloc, text, folder, files, sources.as_slice())?;
    Ok(Loaded { catalog, tables })
}

/// The rows of tables from their sources, in turn, up to the first bad file.
fn load_tables<F: Files>(
    alloc: Global,
    text: &str,
    folder: Option<&str>,
    files: &mut F,
    sources: &[TableSource],
) -> Result<Seq<Table>, Stop>
    requires { All (λ found. SpanFits text.now found.span) (map table_in sources.now) }
    ensures told { Says text.now (Loads (option_copied folder.entry) (F.holds files.old) (map table_in sources.now)) result }
    ensures shaped { IfOk result (AllZip IsTableOf (map table_in sources.now)) }
    ensures called { CalledUntilStop F.holds F.faults F.failed (AskedToLoad (option_copied folder.entry) (F.holds files.old) (map table_in sources.now)) result files.old files.new }
{
    let mut tables = Seq::new(alloc);
    for source in sources {
        let table = load_found(alloc, text, folder, files, table_in(source))?;
        tables.push(table)?;
    }
    Ok(tables)
}

/// The table whose rows come from a source.
fn table_in(source: &TableSource) -> &FoundTable
    ensures { result.now ≡ table_in source.now }
{
    match source {
        TableSource::Rows(found) => found,
    }
}

/// The rows of a table that was found.
fn load_found<F: Files>(
    alloc: Global,
    text: &str,
    folder: Option<&str>,
    files: &mut F,
    found: &FoundTable,
) -> Result<Table, Stop>
    requires { SpanFits text.now found.now.span }
    ensures told { Says text.now (HasRows (option_copied folder.entry) (F.holds files.old) found.now) result }
    ensures shaped { IfOk result (IsTableOf found.now) }
    ensures called { CalledUntilStop F.holds F.faults F.failed (λ asked. asked ≡ row_file (option_copied folder.entry) found.now.name) result files.old files.new }
{
    let file = row_file(alloc, folder, found.name.as_str())?;
    match load_table(alloc, files, file.as_str(), &found.columns) {
        Ok(Some(table)) => Ok(table),
        Ok(None) => {
            let name = found.name.as_str();
            Err(unknown_table(alloc, text, found.policy, name, found.span)?)
        }
        Err(LoadError::ReadFault) => Err(Stop::ReadFault { file }),
        Err(LoadError::TooLarge) => Err(bad_data(alloc, too_large(alloc, file.as_str())?)?),
        Err(LoadError::BadRow { line, field, cause }) => {
            let message = row_message(alloc, file.as_str(), line, field.as_str(), cause)?;
            Err(bad_data(alloc, message)?)
        }
        Err(LoadError::Memory(error)) => Err(Stop::Memory(error)),
    }
}
