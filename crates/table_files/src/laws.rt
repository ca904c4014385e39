ghost use Rattle.table_files.specs.Laws.{OneGathering, OneLoading, SomeGathering, SomeHalt, SomeLoading};

use ndjson_load::{no_mapping_fault, one_mapping, one_mapping_fault};

/// A law: over files that tell what they hold, uses stand for one list of tables and policies at most, or halt at one place.
pub fn one_gathering()
    ensures { OneGathering }
{
    one_mapping();
    one_mapping_fault();
    no_mapping_fault();
}

/// A law: over files that tell what they hold, tables have one list of rows at most, or halt at one file.
pub fn one_loading()
    ensures { OneLoading }
{}

/// A law: over files that do not tell what they hold, what uses that differ stand for is what they stand for over some contents.
pub fn some_gathering()
    ensures { SomeGathering }
{}

/// A law: over files that do not tell what they hold, what uses that differ stand for, and the rows of its tables, are those of some
/// contents.
pub fn some_loading()
    ensures { SomeLoading }
{}

/// A law: over files that do not tell what they hold, what uses that differ stand for, and where its tables halt, are those of some
/// contents; or a row file was gone after its table was found, and over some contents the uses halt there.
pub fn some_halt()
    ensures { SomeHalt }
{}
