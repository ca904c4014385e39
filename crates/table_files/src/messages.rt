//! The names of files, and what is said of a file that is bad.
ghost use Rattle.std.specs.Prelude.{◌≡◌, ◌++◌, IfOk, OnOk};
ghost use Rattle.std.specs.Option.{option_copied};
ghost use Rattle.std.specs.String.{string_bytes};
ghost use Rattle.table_files.specs.Catalog.{table_file, folder_text, mapping_file, policy_file, row_file};
ghost use Rattle.table_files.specs.Messages.{too_large, too_many, mapping_message, mapping_text, row_message, row_text, of_file, of_path, of_field};

use esql_types::Text;
use ndjson_load::{MappingCause, RowCause};
use std::alloc::{AllocError, Global};

/// The name of the file with the mapping of a table.
pub(crate) fn mapping_file(
    alloc: Global,
    folder: Option<&str>,
    name: &str,
) -> Result<Text, AllocError>
    ensures { IfOk result (λ file. file ≡ mapping_file (option_copied folder.entry) name.now) }
{
    table_file(alloc, folder, name, ".mapping.json")
}

/// The name of the file with the rows of a table.
pub(crate) fn row_file(alloc: Global, folder: Option<&str>, name: &str) -> Result<Text, AllocError>
    ensures { IfOk result (λ file. file ≡ row_file (option_copied folder.entry) name.now) }
{
    table_file(alloc, folder, name, ".ndjson")
}

/// The name of the file with the document of a policy.
pub(crate) fn policy_file(
    alloc: Global,
    folder: Option<&str>,
    name: &str,
) -> Result<Text, AllocError>
    ensures { IfOk result (λ file. file ≡ policy_file (option_copied folder.entry) name.now) }
{
    table_file(alloc, folder, name, ".policy.json")
}

/// The name of a file of a table or a policy: the folder, if one is named, the name, and what the file is.
fn table_file(
    alloc: Global,
    folder: Option<&str>,
    name: &str,
    suffix: &str,
) -> Result<Text, AllocError>
    ensures { IfOk result (λ file. file ≡ table_file (option_copied folder.entry) name.now suffix.now) }
{
    let mut out = String::new(alloc);
    push_folder(&mut out, folder)?;
    write!(out, "{name}{suffix}")?;
    Ok(Text::from_string(out))
}

fn push_folder(out: &mut String, folder: Option<&str>) -> Result<(), AllocError>
    ensures { OnOk result (string_bytes out.new ≡ string_bytes out.old ++ folder_text (option_copied folder.entry)) }
{
    match folder {
        None => Ok(()),
        Some(folder) => write!(out, "{folder}/"),
    }
}

/// The message on a file that is longer than files are read.
pub(crate) fn too_large(alloc: Global, file: &str) -> Result<Text, AllocError>
    ensures { IfOk result (λ text. text ≡ too_large file.now) }
{
    of_file(alloc, file, "larger than 268435456 bytes")
}

/// The message on a mapping or policy with which a query has more tables, columns and fields than are read.
pub(crate) fn too_many(alloc: Global, file: &str) -> Result<Text, AllocError>
    ensures { IfOk result (λ text. text ≡ too_many file.now) }
{
    of_file(alloc, file, "more than 100000 tables, columns and fields")
}

fn of_file(alloc: Global, file: &str, text: &str) -> Result<Text, AllocError>
    ensures { IfOk result (λ message. message ≡ of_file file.now text.now) }
{
    let mut out = String::new(alloc);
    write!(out, "{file}: {text}")?;
    Ok(Text::from_string(out))
}

/// The message on a bad mapping or policy.
pub(crate) fn mapping_message(
    alloc: Global,
    file: &str,
    cause: &MappingCause,
) -> Result<Text, AllocError>
    ensures { IfOk result (λ text. text ≡ mapping_message file.now cause.now) }
{
    let mut out = String::new(alloc);
    write!(out, "{file}: ")?;
    push_mapping_text(&mut out, cause)?;
    Ok(Text::from_string(out))
}

fn push_mapping_text(out: &mut String, cause: &MappingCause) -> Result<(), AllocError>
    ensures { OnOk result (string_bytes out.new ≡ string_bytes out.old ++ mapping_text cause.now) }
{
    match cause {
        MappingCause::NotJson => out.push_str("not readable JSON"),
        MappingCause::NoMappings => out.push_str("no mappings.properties"),
        MappingCause::WantsObject { path } => push_path(out, "", path, " is not an object"),
        MappingCause::WantsText { path } => push_path(out, "type of ", path, " is not a text"),
        MappingCause::BadParameter { path } => push_path(out, "bad parameter of ", path, ""),
        MappingCause::Twice { path } => push_path(out, "", path, " is mapped twice"),
        MappingCause::NotMatchPolicy => out.push_str("not a match policy"),
        MappingCause::NoField { path } => push_path(out, "no field ", path, ""),
        MappingCause::KindConflict { path } => push_path(out, "", path, " has two kinds"),
    }
}

fn push_path(out: &mut String, before: &str, path: &Text, after: &str) -> Result<(), AllocError>
    ensures { OnOk result (string_bytes out.new ≡ string_bytes out.old ++ (before.now ++ of_path path.now after.now)) }
{
    write!(out, "{before}[{}]{after}", path.as_str())
}

/// The message on a bad row: its line, counted from 1, and its field, which is not named where the line is no object.
pub(crate) fn row_message(
    alloc: Global,
    file: &str,
    line: u64,
    field: &str,
    cause: RowCause,
) -> Result<Text, AllocError>
    ensures { IfOk result (λ text. text ≡ row_message file.now (record { line = line; field = field.now; cause = cause })) }
{
    let mut out = String::new(alloc);
    write!(out, "{file}:{line}: ")?;
    push_row_text(&mut out, field, cause)?;
    Ok(Text::from_string(out))
}

fn push_row_text(out: &mut String, field: &str, cause: RowCause) -> Result<(), AllocError>
    ensures { OnOk result (string_bytes out.new ≡ string_bytes out.old ++ row_text field.now cause) }
{
    match cause {
        RowCause::NotJson => out.push_str("not readable JSON"),
        RowCause::NotObject => out.push_str("not an object"),
        RowCause::WantsObject => push_field(out, field, "object expected"),
        RowCause::WantsValue => push_field(out, field, "value expected"),
        RowCause::BadNumber => push_field(out, field, "not a whole number in range"),
        RowCause::BadBoolean => push_field(out, field, "not a boolean"),
        RowCause::BadText => push_field(out, field, "not a text"),
    }
}

fn push_field(out: &mut String, field: &str, text: &str) -> Result<(), AllocError>
    ensures { OnOk result (string_bytes out.new ≡ string_bytes out.old ++ of_field field.now text.now) }
{
    write!(out, "field [{field}]: {text}")
}
