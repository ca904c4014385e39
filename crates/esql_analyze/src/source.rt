ghost use Rattle.std.specs.Prelude.{◌≤◌, [], length, IfOk};
ghost use Rattle.std.specs.List.{flat_map};
ghost use Rattle.esql_ast.specs.Fits.{FieldsFit, SourceFits};
ghost use Rattle.esql_ast.specs.Nodes.{nodes_of_field, nodes_of_source};
ghost use Rattle.esql_plan.specs.declared.plan.PlanSource.TheVariants.{OneRow};
ghost use Rattle.row_semantics.specs.Sources.{tables_named};
ghost use Rattle.query_semantics.specs.Catalogs.{IsCatalog};
ghost use Rattle.query_semantics.specs.Shapes.{shape_of_fields, shape_of_source};
ghost use Rattle.query_semantics.specs.Written.{source_in_plan, write_fields, write_source, writing_of_columns};
ghost use Rattle.plan_writing.specs.Contexts.{over, over_catalog};
ghost use Rattle.plan_writing.specs.Answers.{Hears};
ghost use Rattle.plan_writing.specs.Regulars.{regulars_of_field};
ghost use Rattle.esql_analyze.specs.Regulars.{regulars_of_source};
ghost use Rattle.esql_analyze.specs.Plans.{Begins, IsScanError, IsScanned, shape_of_tables, tables_in_plan, write_tables};

use esql_ast::{Field, NameAt, SourceCommand};
use esql_plan::{Catalog, PlanSource};
use esql_types::{Column, Maker, Seq, Span};
use expression_analysis::AnalyzeError;
use plan_writing::{Writing, begin, numbered, scan_columns, unless_empty, write_fields};
use source_columns::{SourceError, columns_of_tables, tables_named};
use std::alloc::{AllocError, Global};
use visible_columns::VisibleColumns;

/// The source of a plan, and what is written of the plan before its first step.
#[derive(Drop)]
pub(crate) struct Begun {
    pub(crate) source: PlanSource,
    pub(crate) writing: Writing,
}

fn source_error(error: SourceError) -> AnalyzeError
    ensures { IsScanError error result }
{
    match error {
        SourceError::Broken { rule, span } => AnalyzeError::Broken { rule, span },
        SourceError::Memory(error) => AnalyzeError::Memory(error),
    }
}

// The columns of tables, under numbers in turn.
fn scan(
    alloc: Global,
    catalog: &Catalog,
    names: &[NameAt],
    columns: Seq<Column>,
) -> Result<Begun, AllocError>
    requires tables { length catalog.now.tables ≤ 4294967295 }
    requires columns { length columns ≤ 4294967295 }
    ensures { IfOk result (IsScanned (tables_named catalog.now.tables names.now) columns) }
{
    let tables = tables_named(alloc, catalog, names)?;
    let next = columns.len() as u32;
    let visible = numbered(alloc, columns)?;
    let columns = scan_columns(alloc, visible.as_slice())?;
    Ok(Begun {
        source: PlanSource::Scan { tables, columns },
        writing: begin(alloc, VisibleColumns::from_seq(alloc, visible)?, next),
    })
}

// FROM: the columns of tables, of which there has to be one.
fn from_tables(
    alloc: Global,
    span: Span,
    names: &[NameAt],
    catalog: &Catalog,
) -> Result<Begun, AnalyzeError>
    requires { IsCatalog catalog.now }
    ensures { Begins (λ accepts. shape_of_tables span names.now catalog.now) (tables_in_plan names.now catalog.now) (write_tables names.now catalog.now) result }
{
    let columns = match columns_of_tables(alloc, catalog, names) {
        Ok(columns) => columns,
        Err(error) => return Err(source_error(error)),
    };
    let begun = scan(alloc, catalog, names, columns)?;
    let writing = unless_empty(span, begun.writing)?;
    Ok(Begun {
        source: begun.source,
        writing,
    })
}

// ROW: a column for each field, over no columns.
fn from_row<M: Maker>(
    alloc: Global,
    text: &str,
    fields: &[Field],
    maker: &mut M,
) -> Result<Begun, AnalyzeError>
    requires fits { FieldsFit text.now fields.now }
    requires few { length (flat_map nodes_of_field fields.now) ≤ 65537 }
    ensures begins { Begins (λ accepts. shape_of_fields (over text.now accepts) fields.now []) OneRow (write_fields text.now fields.now (writing_of_columns [])) result }
    ensures hears { Hears M.refused M.last (flat_map regulars_of_field fields.now) maker.old maker.new result }
{
    let empty = begin(alloc, VisibleColumns::new(alloc), 0);
    let writing = write_fields(alloc, text, empty, fields, maker)?;
    Ok(Begun {
        source: PlanSource::OneRow,
        writing,
    })
}

/// FROM reads each table once, and numbers its columns in their order; ROW has the columns of its fields.
pub(crate) fn write_source<M: Maker>(
    alloc: Global,
    text: &str,
    command: &SourceCommand,
    catalog: &Catalog,
    maker: &mut M,
) -> Result<Begun, AnalyzeError>
    requires fits { SourceFits text.now command.now }
    requires few { length (nodes_of_source command.now) ≤ 65537 }
    requires catalog { IsCatalog catalog.now }
    ensures begins { Begins (λ accepts. shape_of_source (over_catalog text.now catalog.now accepts) command.now) (source_in_plan catalog.now command.now) (write_source text.now catalog.now command.now) result }
    ensures hears { Hears M.refused M.last (regulars_of_source command.now) maker.old maker.new result }
{
    match command {
        SourceCommand::Tables { span, tables, .. } => {
            from_tables(alloc, *span, tables.as_slice(), catalog)
        }
        SourceCommand::OneRow { fields, .. } => from_row(alloc, text, fields.as_slice(), maker),
    }
}
