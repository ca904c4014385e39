ghost use Rattle.std.specs.Prelude.{◌≡◌, ◌≤◌, ◌<◌, ◌+◌, ◌++◌, ◌∷◌, [], Bool, List, true, Ok, Some, length, map, IfOk, IfErr};
ghost use Rattle.esql_types.specs.declared.names.Column.{Column as Columned};
ghost use Rattle.esql_ast.specs.Nodes.{nodes_of_expr};
ghost use Rattle.esql_plan.specs.Signatures.{is_kind};
ghost use Rattle.esql_plan.specs.declared.step.Step.TheVariants as step;
ghost use Rattle.dissect_grok.specs.declared.cutter.Cutter.TheVariants as cutter;
ghost use Rattle.dissect_grok.specs.Groks.{grok_of};
ghost use Rattle.dissect_grok.specs.Patterns.{names_of, reading_of};
ghost use Rattle.plan_semantics.specs.Plans.{columns_of};
ghost use Rattle.plan_semantics.specs.Taken.{columns_of_reading, columns_of_grok, dissect_columns, columns_in_grok, keyword_column};
ghost use Rattle.row_semantics.specs.Kinds.{and_then, kind_or_rule};
ghost use Rattle.row_semantics.specs.Regulars.{Regular, is_accepted};
ghost use Rattle.query_semantics.specs.AppendedShapes.{if_keyword, regular_of_grok, shape_of_reading, shape_of_grok_read, shape_of_dissect, shape_of_grok};
ghost use Rattle.query_semantics.specs.Shapes.{Shape};
ghost use Rattle.query_semantics.specs.Writings.{input_of, write_input};
ghost use Rattle.query_semantics.specs.WrittenAppended.{write_dissect, write_grok, write_new};
ghost use Rattle.expression_analysis.specs.Answers.{scope_of, IsRefusal, regulars_of_expr};
ghost use Rattle.plan_writing.specs.Writings.{seen, HasRoom};
ghost use Rattle.plan_writing.specs.Answers.{Writes, Hears};
ghost use Rattle.esql_analyze.specs.Names.{told_of_grok};
ghost use Rattle.esql_analyze.specs.Regulars.{regulars_of_grok};

use crate::appended::append;
use dissect_grok::{Cutter, Dissect, DissectError, Grok, GrokError};
use esql_ast::{Expr, TextAt};
use esql_plan::Step;
use esql_types::{Column, Kind, Maker, NodeId, Seq, Span, Text};
use expression_analysis::AnalyzeError;
use plan_writing::{Input, Writing, write_input};
use row_semantics::NameRule;
use std::alloc::{AllocError, Global};

fn is_keyword(kind: Kind) -> bool
    ensures { result ≡ is_kind Kind.Keyword kind }
{
    matches!(kind, Kind::Keyword | Kind::Null)
}

// The input of a command that takes texts out of a column: a keyword or null.
fn keyword_input<M: Maker>(
    alloc: Global,
    writing: Writing,
    expr: &Expr,
    maker: &mut M,
) -> Result<Input, AnalyzeError>
    requires { HasRoom (seen writing) (length (nodes_of_expr expr.now)) }
    ensures id { IfOk result (λ input. input.id ≡ input_of (seen writing) expr.now) }
    ensures kind { IfOk result (λ input. kind_or_rule expr.now (scope_of is_accepted writing.visible) ≡ Ok input.kind) }
    ensures keyword { IfOk result (λ input. is_kind Kind.Keyword input.kind ≡ true) }
    ensures visible { IfOk result (λ input. input.writing.visible ≡ writing.visible) }
    ensures written { IfOk result (λ input. seen input.writing ≡ write_input (seen writing) expr.now) }
    ensures refusal { IfErr result (λ error. (next : (Regular → Bool) → Shape)
        → IsRefusal (λ accepts. and_then (kind_or_rule expr.now (scope_of accepts writing.visible)) (if_keyword expr.now (next accepts))) error) }
    ensures hears { Hears M.refused M.last (regulars_of_expr expr.now) maker.old maker.new result }
{
    match write_input(alloc, writing, expr, maker) {
        Ok(input) => {
            if is_keyword(input.kind) {
                Ok(input)
            } else {
                Err(AnalyzeError::Broken {
                    rule: NameRule::BadKind,
                    span: expr.span,
                })
            }
        }
        Err(error) => Err(error),
    }
}

// DISSECT ---------------------------------------------------------------------------------------------------------------------

fn read_dissect(alloc: Global, pattern: &TextAt, separator: &Text) -> Result<Dissect, AnalyzeError>
    ensures read { IfOk result (λ dissect. reading_of pattern.now.text separator.now ≡ Some dissect) }
    ensures refusal { IfErr result (λ error. (columns : List Columned)
        → IsRefusal (λ accepts. shape_of_reading (reading_of pattern.now.text separator.now) pattern.now.span columns) error) }
{
    match Dissect::read(alloc, pattern.text.as_str(), separator.as_str()) {
        Ok(dissect) => Ok(dissect),
        Err(DissectError::Bad) => Err(AnalyzeError::Broken {
            rule: NameRule::BadDissect,
            span: pattern.span,
        }),
        Err(DissectError::Memory(error)) => Err(AnalyzeError::Memory(error)),
    }
}

fn keyword_columns(alloc: Global, names: &[Text]) -> Result<Seq<Column>, AllocError>
    ensures { IfOk result (λ columns. columns ≡ map keyword_column names.now) }
{
    let mut columns = Seq::new(alloc);
    for name in names {
        columns.push(Column {
            name: name.copy()?,
            kind: Kind::Keyword,
        })?;
    }
    Ok(columns)
}

// The step of DISSECT behind its input, and its cutter.
fn add_dissect(
    alloc: Global,
    input: Input,
    node: NodeId,
    pattern: &Text,
    dissect: Dissect,
    separator: &Text,
) -> Result<Writing, AllocError>
    requires read { reading_of pattern.now separator.now ≡ Some dissect }
    requires room { HasRoom (seen input.writing) (1 + length (dissect_columns pattern.now separator.now)) }
    ensures { IfOk result (λ new. seen new ≡ write_new (dissect_columns pattern.now separator.now) (cutter.Dissect dissect ∷ [])
        (step.Dissect node input.id (length input.writing.cutters) pattern.now separator.now) (seen input.writing)) }
{
    let Input { id, writing, .. } = input;
    let cutter = writing.cutters.len() as u32;
    let columns = keyword_columns(alloc, dissect.names().as_slice())?;
    let appended = append(alloc, writing, columns)?;
    let mut writing = appended.writing;
    writing.steps.push(Step::Dissect {
        node,
        input: id,
        cutter,
        pattern: pattern.copy()?,
        separator: separator.copy()?,
        to: appended.to,
    })?;
    writing.cutters.push(Cutter::Dissect(dissect))?;
    Ok(writing)
}

/// DISSECT: the texts that the keys of a pattern take out of a column.
pub(crate) fn write_dissect<M: Maker>(
    alloc: Global,
    writing: Writing,
    node: NodeId,
    input: &Expr,
    pattern: &TextAt,
    separator: &Text,
    maker: &mut M,
) -> Result<Writing, AnalyzeError>
    requires { HasRoom (seen writing) (length (nodes_of_expr input.now) + (1 + length (dissect_columns pattern.now.text separator.now))) }
    ensures writes { Writes (λ accepts. shape_of_dissect accepts input.now pattern.now separator.now (columns_of writing.visible)) (write_dissect node input.now pattern.now.text separator.now (seen writing)) result }
    ensures hears { Hears M.refused M.last (regulars_of_expr input.now) maker.old maker.new result }
{
    let source = match keyword_input(alloc, writing, input, maker) {
        Ok(source) => source,
        Err(error) => return Err(error),
    };
    let dissect = match read_dissect(alloc, pattern, separator) {
        Ok(dissect) => dissect,
        Err(error) => return Err(error),
    };
    match add_dissect(alloc, source, node, &pattern.text, dissect, separator) {
        Ok(writing) => Ok(writing),
        Err(error) => Err(AnalyzeError::Memory(error)),
    }
}

// GROK ------------------------------------------------------------------------------------------------------------------------

// What is told of a pattern of GROK that was not read.
fn grok_error(error: GrokError, span: Span) -> AnalyzeError
    ensures { result ≡ told_of_grok error span }
{
    match error {
        GrokError::Bad => AnalyzeError::Broken {
            rule: NameRule::BadGrok,
            span,
        },
        GrokError::NotRead => AnalyzeError::Broken {
            rule: NameRule::BadRegex,
            span,
        },
        GrokError::TooLarge => AnalyzeError::PatternRoom { span },
        GrokError::Memory(error) => AnalyzeError::Memory(error),
    }
}

// A pattern of GROK, whose regular expression is accepted.
fn read_grok<M: Maker>(alloc: Global, pattern: &TextAt, maker: &mut M) -> Result<Grok, AnalyzeError>
    ensures read { IfOk result (λ grok. grok_of pattern.now.text ≡ Some grok) }
    ensures accepted { IfOk result (λ grok. is_accepted (regular_of_grok pattern.now.span grok) ≡ true) }
    ensures refusal { IfErr result (λ error. (columns : List Columned)
        → IsRefusal (λ accepts. shape_of_grok_read accepts (grok_of pattern.now.text) pattern.now.span columns) error) }
    ensures hears { Hears M.refused M.last (regulars_of_grok pattern.now.span (grok_of pattern.now.text)) maker.old maker.new result }
{
    match Grok::read(alloc, maker, pattern.text.as_str()) {
        Ok(grok) => Ok(grok),
        Err(error) => Err(grok_error(error, pattern.span)),
    }
}

fn copies(alloc: Global, columns: &[Column]) -> Result<Seq<Column>, AllocError>
    ensures { IfOk result (λ these. these ≡ columns.now) }
{
    let mut these = Seq::new(alloc);
    for column in columns {
        these.push(Column {
            name: column.name.copy()?,
            kind: column.kind,
        })?;
    }
    Ok(these)
}

// The step of GROK behind its input, and its cutter.
fn add_grok(
    alloc: Global,
    input: Input,
    node: NodeId,
    pattern: &Text,
    grok: Grok,
) -> Result<Writing, AllocError>
    requires read { grok_of pattern.now ≡ Some grok }
    requires room { HasRoom (seen input.writing) (1 + length (columns_in_grok pattern.now)) }
    ensures { IfOk result (λ new. seen new ≡ write_new (columns_in_grok pattern.now) (cutter.Grok grok ∷ [])
        (step.Grok node input.id (length input.writing.cutters) pattern.now) (seen input.writing)) }
{
    let Input { id, writing, .. } = input;
    let cutter = writing.cutters.len() as u32;
    let columns = copies(alloc, grok.columns().as_slice())?;
    let appended = append(alloc, writing, columns)?;
    let mut writing = appended.writing;
    writing.steps.push(Step::Grok {
        node,
        input: id,
        cutter,
        pattern: pattern.copy()?,
        to: appended.to,
    })?;
    writing.cutters.push(Cutter::Grok(grok))?;
    Ok(writing)
}

/// GROK: the texts that the places of a pattern take out of a column.
pub(crate) fn write_grok<M: Maker>(
    alloc: Global,
    writing: Writing,
    node: NodeId,
    input: &Expr,
    pattern: &TextAt,
    maker: &mut M,
) -> Result<Writing, AnalyzeError>
    requires { HasRoom (seen writing) (length (nodes_of_expr input.now) + (1 + length (columns_in_grok pattern.now.text))) }
    ensures writes { Writes (λ accepts. shape_of_grok accepts input.now pattern.now (columns_of writing.visible)) (write_grok node input.now pattern.now.text (seen writing)) result }
    ensures hears { Hears M.refused M.last (regulars_of_expr input.now ++ regulars_of_grok pattern.now.span (grok_of pattern.now.text)) maker.old maker.new result }
{
    let source = match keyword_input(alloc, writing, input, maker) {
        Ok(source) => source,
        Err(error) => return Err(error),
    };
    let grok = match read_grok(alloc, pattern, maker) {
        Ok(grok) => grok,
        Err(error) => return Err(error),
    };
    match add_grok(alloc, source, node, &pattern.text, grok) {
        Ok(writing) => Ok(writing),
        Err(error) => Err(AnalyzeError::Memory(error)),
    }
}
