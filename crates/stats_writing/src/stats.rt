ghost use Rattle.std.specs.Prelude.{◌≡◌, ◌≤◌, ◌<◌, ◌+◌, ◌*◌, ◌++◌, [], Ok, length, All, IfOk, IfErr};
ghost use Rattle.std.specs.List.{flat_map};
ghost use Rattle.esql_ast.specs.Fits.{StatsFits, FieldFits, FieldsFit};
ghost use Rattle.esql_ast.specs.Nodes.{nodes_of_expr, nodes_of_stats, nodes_of_field};
ghost use Rattle.plan_semantics.specs.Plans.{columns_of};
ghost use Rattle.row_semantics.specs.Typed.{typed_of};
ghost use Rattle.query_semantics.specs.Calls.{calls_of};
ghost use Rattle.query_semantics.specs.Stats.{slice_of, name_of_stats};
ghost use Rattle.query_semantics.specs.StatsShapes.{shape_of_stats};
ghost use Rattle.query_semantics.specs.Writings.{put_visible, column_at, column_of_typed, input_by};
ghost use Rattle.query_semantics.specs.WrittenStats.{aggregates_from, groups_from, write_grouping, call_columns, write_stats_field, write_stats_fields, put_groups, write_behind, write_stats};
ghost use Rattle.expression_analysis.specs.Answers.{IsRefusal, regulars_of_expr};
ghost use Rattle.plan_writing.specs.Answers.{Writes, Hears};
ghost use Rattle.stats_writing.specs.Behind.{with_patterns, with_column};
ghost use Rattle.stats_writing.specs.CallsSeen.{calls_in_fields, seen_calls};
ghost use Rattle.stats_writing.specs.Parts.{OneIsRefused, judged_in_field, judged_fields};
ghost use Rattle.plan_writing.specs.Regulars.{regulars_of_field, regulars_of_stats};
ghost use Rattle.stats_writing.specs.StatsSeen.{calls_seen, groups_seen};
ghost use Rattle.plan_writing.specs.Writings.{seen, HasRoom};

use crate::calls::{Call, find_calls};
use crate::stats_inputs::{
    CallInput, GroupInput, Grouping, InPlan, write_all_before, write_groups,
};
use crate::stats_rules::judge;
use esql_ast::{Condition, Expr, Field, StatsField};
use esql_plan::{Aggregate, GroupColumn, Step, TypedExpr};
use esql_types::{ColId, Maker, Seq, Span, Text, text_at};
use expression_analysis::{AnalyzeError, typed_field};
use plan_writing::{Input, Writing, column_of, make_input, name_of_field, put_visible};
use row_semantics::CallColumn;
use std::alloc::{AllocError, Global};
use visible_columns::VisibleColumns;

// A plan behind the step that makes the groups.
#[derive(Drop)]
struct Grouped {
    before: VisibleColumns,
    first: u32,
    calls: u32,
    groups: Seq<GroupInput>,
    writing: Writing,
}

// A plan with the fields so far, and the number of the next aggregate.
#[derive(Drop)]
struct Behind {
    number: u32,
    writing: Writing,
}

// The aggregates, numbered on from a number.
fn aggregates_from(
    alloc: Global,
    number: u32,
    calls: Seq<CallInput>,
) -> Result<Seq<Aggregate>, AllocError>
    requires { number + length calls ≤ 4294967295 }
    ensures { IfOk result (λ made. made ≡ aggregates_from number (calls_seen calls)) }
{
    let mut aggregates = Seq::new(alloc);
    let mut next = number;
    for call in calls.into_vec() {
        aggregates.push(Aggregate {
            node: call.node,
            function: call.function,
            input: call.input,
            to: ColId(next),
        })?;
        next += 1;
    }
    Ok(aggregates)
}

fn group_column(input: GroupInput, number: u32) -> GroupColumn
    ensures { result ≡ record { id = input.id; to = column_at number } }
{
    GroupColumn {
        id: input.id,
        to: ColId(number),
    }
}

fn groups_from(
    alloc: Global,
    number: u32,
    inputs: &[GroupInput],
) -> Result<Seq<GroupColumn>, AllocError>
    requires { number + length inputs.now ≤ 4294967295 }
    ensures { IfOk result (λ made. made ≡ groups_from number (groups_seen inputs.now)) }
{
    let mut groups = Seq::new(alloc);
    let mut next = number;
    for input in inputs {
        groups.push(group_column(*input, next))?;
        next += 1;
    }
    Ok(groups)
}

// The step that makes the groups; no column can be seen behind it so far.
fn write_grouping(
    alloc: Global,
    made: Grouping,
    calls: Seq<CallInput>,
) -> Result<Grouped, AllocError>
    requires { made.writing.next + (length calls + length made.groups) ≤ 4294967295 }
    ensures before { IfOk result (λ grouped. grouped.before ≡ made.writing.visible) }
    ensures first { IfOk result (λ grouped. grouped.first ≡ made.writing.next) }
    ensures calls { IfOk result (λ grouped. grouped.calls ≡ length calls) }
    ensures groups { IfOk result (λ grouped. grouped.groups ≡ made.groups) }
    ensures written { IfOk result (λ grouped. seen grouped.writing ≡ write_grouping (calls_seen calls) (groups_seen made.groups) (seen made.writing)) }
{
    let Grouping { writing, groups } = made;
    let Writing {
        visible,
        next,
        patterns,
        cutters,
        steps,
    } = writing;
    let mut steps = steps;
    let count = calls.len() as u32;
    let width = groups.len() as u32;
    let aggregates = aggregates_from(alloc, next, calls)?;
    let columns = groups_from(alloc, next + count, groups.as_slice())?;
    steps.push(Step::Stats {
        aggregates,
        groups: columns,
    })?;
    Ok(Grouped {
        before: visible,
        first: next,
        calls: count,
        groups,
        writing: Writing {
            visible: VisibleColumns::new(alloc),
            next: next + (count + width),
            patterns,
            cutters,
            steps,
        },
    })
}

// The columns of the calls of a field, on from a number.
fn call_columns(
    alloc: Global,
    number: u32,
    calls: &[Call<'_>],
) -> Result<Seq<CallColumn>, AllocError>
    requires { number + length calls.now ≤ 4294967295 }
    ensures { IfOk result (λ columns. columns ≡ call_columns number (seen_calls calls.now)) }
{
    let mut columns = Seq::new(alloc);
    let mut next = number;
    for call in calls {
        columns.push(CallColumn {
            node: call.node,
            id: ColId(next),
        })?;
        next += 1;
    }
    Ok(columns)
}

// A field over the columns of its calls.
fn type_field<M: Maker>(
    alloc: Global,
    before: &VisibleColumns,
    calls: &[CallColumn],
    writing: Writing,
    expr: &Expr,
    maker: &mut M,
) -> Result<InPlan, AnalyzeError>
    requires { HasRoom (seen writing) (length (nodes_of_expr expr.now)) }
    ensures typed { IfOk result (λ made. made.typed ≡ typed_of expr.now (record { columns = before.now; calls = calls.now }) (length writing.patterns.whole) (length writing.patterns.free)) }
    ensures seen { IfOk result (λ made. seen made.writing ≡ with_patterns expr.now (seen writing)) }
    ensures refusal { IfErr result (IsRefusal (judged_in_field before.now expr.now)) }
    ensures hears { Hears M.refused M.last (regulars_of_expr expr.now) maker.old maker.new result }
{
    let Writing {
        visible,
        next,
        patterns,
        cutters,
        steps,
    } = writing;
    let mut patterns = patterns;
    let typed = typed_field(alloc, expr, before, calls, &mut patterns, maker)?;
    let writing = Writing {
        visible,
        next,
        patterns,
        cutters,
        steps,
    };
    Ok(InPlan { typed, writing })
}

// The column of a field: that of its aggregate call, or a new one.
fn column_for(writing: Writing, typed: TypedExpr) -> Result<Input, AllocError>
    requires { writing.next < 4294967295 }
    ensures id { IfOk result (λ input. input.id ≡ input_by (column_of_typed typed) writing.next) }
    ensures kind { IfOk result (λ input. input.kind ≡ typed.kind) }
    ensures written { IfOk result (λ input. seen input.writing ≡ with_column (column_of_typed typed) typed (seen writing)) }
{
    match column_of(&typed) {
        Some(id) => Ok(Input {
            id,
            kind: typed.kind,
            writing,
        }),
        None => make_input(writing, typed),
    }
}

// From the first token of a field's expression to the last of its condition.
fn slice_of(field: &Field, condition: &Condition) -> Span
    ensures { result ≡ slice_of field.now condition.now }
{
    Span {
        from: field.span.from,
        to: condition.expr.span.to,
    }
}

fn name_of_stats(alloc: Global, text: &str, stats: &StatsField) -> Result<Text, AllocError>
    requires { StatsFits text.now stats.now }
    ensures { IfOk result (λ name. name ≡ name_of_stats text.now stats.now) }
{
    match (&stats.field.name, &stats.condition) {
        (Some(name), _) => name.name.copy(),
        (None, None) => name_of_field(alloc, text, &stats.field),
        (None, Some(condition)) => {
            Text::from_str(alloc, text_at(text, slice_of(&stats.field, condition)))
        }
    }
}

// A typed field under its name.
fn add_field(
    alloc: Global,
    text: &str,
    made: InPlan,
    stats: &StatsField,
) -> Result<Writing, AllocError>
    requires fits { StatsFits text.now stats.now }
    requires room { made.writing.next < 4294967295 }
    ensures { IfOk result (λ new. seen new ≡ record (with_column (column_of_typed made.typed) made.typed (seen made.writing)) { visible = put_visible made.writing.visible (name_of_stats text.now stats.now) made.typed.kind (input_by (column_of_typed made.typed) made.writing.next).0 }) }
{
    let InPlan { typed, writing } = made;
    let name = name_of_stats(alloc, text, stats)?;
    let input = column_for(writing, typed)?;
    let Writing {
        visible,
        next,
        patterns,
        cutters,
        steps,
    } = input.writing;
    let visible = put_visible(alloc, visible, name, input.kind, input.id.0)?;
    Ok(Writing {
        visible,
        next,
        patterns,
        cutters,
        steps,
    })
}

fn write_field<M: Maker>(
    alloc: Global,
    text: &str,
    before: &VisibleColumns,
    behind: Behind,
    stats: &StatsField,
    maker: &mut M,
) -> Result<Behind, AnalyzeError>
    requires fits { StatsFits text.now stats.now }
    requires room { HasRoom (seen behind.writing) (length (nodes_of_stats stats.now)) }
    requires few { behind.number + length (calls_of stats.now.field.expr) ≤ 4294967295 }
    ensures number { IfOk result (λ new. new.number ≡ behind.number + length (calls_of stats.now.field.expr)) }
    ensures written { IfOk result (λ new. seen new.writing ≡ write_stats_field text.now before.now behind.number stats.now (seen behind.writing)) }
    ensures refusal { IfErr result (IsRefusal (judged_in_field before.now stats.now.field.expr)) }
    ensures hears { Hears M.refused M.last (regulars_of_field stats.now.field) maker.old maker.new result }
{
    let Behind { number, writing } = behind;
    let found = find_calls(alloc, &stats.field.expr)?;
    let calls = call_columns(alloc, number, &found.calls)?;
    let made = type_field(
        alloc,
        before,
        calls.as_slice(),
        writing,
        &stats.field.expr,
        maker,
    )?;
    let writing = add_field(alloc, text, made, stats)?;
    Ok(Behind {
        number: number + calls.len() as u32,
        writing,
    })
}

fn write_fields<M: Maker>(
    alloc: Global,
    text: &str,
    before: &VisibleColumns,
    behind: Behind,
    fields: &[StatsField],
    maker: &mut M,
) -> Result<Writing, AnalyzeError>
    requires fits { All (StatsFits text.now) fields.now }
    requires room { HasRoom (seen behind.writing) (length (flat_map nodes_of_stats fields.now)) }
    requires few { behind.number + calls_in_fields fields.now ≤ 4294967295 }
    ensures written { IfOk result (λ new. seen new ≡ write_stats_fields text.now before.now behind.number fields.now (seen behind.writing)) }
    ensures refusal { IfErr result (OneIsRefused (judged_fields before.now fields.now)) }
    ensures hears { Hears M.refused M.last (flat_map regulars_of_stats fields.now) maker.old maker.new result }
{
    let mut behind = behind;
    for stats in fields {
        behind = write_field(alloc, text, before, behind, stats, maker)?;
    }
    Ok(behind.writing)
}

// The columns that rows are grouped by, under their names.
fn put_groups(
    alloc: Global,
    text: &str,
    number: u32,
    groups: &[Field],
    inputs: &[GroupInput],
    visible: VisibleColumns,
) -> Result<VisibleColumns, AllocError>
    requires fits { FieldsFit text.now groups.now }
    requires few { number + length groups.now ≤ 4294967295 }
    requires same { length inputs.now ≡ length groups.now }
    ensures { IfOk result (λ new. new ≡ put_groups text.now number groups.now (groups_seen inputs.now) visible) }
{
    let mut visible = visible;
    let mut number = number;
    for (place, group) in groups.iter().enumerate() {
        let name = name_of_field(alloc, text, group)?;
        visible = put_visible(alloc, visible, name, inputs[place].kind, number)?;
        number += 1;
    }
    Ok(visible)
}

// The fields and the groups behind the step that makes the groups.
fn write_behind<M: Maker>(
    alloc: Global,
    text: &str,
    grouped: Grouped,
    fields: &[StatsField],
    groups: &[Field],
    maker: &mut M,
) -> Result<Writing, AnalyzeError>
    requires fields_fit { All (StatsFits text.now) fields.now }
    requires groups_fit { FieldsFit text.now groups.now }
    requires room { HasRoom (seen grouped.writing) (length (flat_map nodes_of_stats fields.now)) }
    requires calls { grouped.calls ≡ calls_in_fields fields.now }
    requires same { length grouped.groups ≡ length groups.now }
    requires few { grouped.first + (grouped.calls + length groups.now) ≤ 4294967295 }
    ensures written { IfOk result (λ new. seen new ≡ write_behind text.now grouped.before grouped.first grouped.calls fields.now groups.now (groups_seen grouped.groups) (seen grouped.writing)) }
    ensures refusal { IfErr result (OneIsRefused (judged_fields grouped.before fields.now)) }
    ensures hears { Hears M.refused M.last (flat_map regulars_of_stats fields.now) maker.old maker.new result }
{
    let Grouped {
        before,
        first,
        calls,
        groups: inputs,
        writing,
    } = grouped;
    let behind = Behind {
        number: first,
        writing,
    };
    let writing = write_fields(alloc, text, &before, behind, fields, maker)?;
    let Writing {
        visible,
        next,
        patterns,
        cutters,
        steps,
    } = writing;
    let visible = put_groups(
        alloc,
        text,
        first + calls,
        groups,
        inputs.as_slice(),
        visible,
    )?;
    Ok(Writing {
        visible,
        next,
        patterns,
        cutters,
        steps,
    })
}

/// STATS: it is judged whole, then written: the inputs of its aggregates, the columns that rows are grouped by, the step that makes
/// the groups, and its fields.
///
/// Refused: the first rule that one of its expressions breaks, or else the first that STATS itself breaks, field by field; a pattern that
/// is too large, up to which no rule is broken; and want of memory.
pub fn write_stats<M: Maker>(
    alloc: Global,
    text: &str,
    writing: Writing,
    fields: &[StatsField],
    groups: &[Field],
    maker: &mut M,
) -> Result<Writing, AnalyzeError>
    requires fields_fit { All (StatsFits text.now) fields.now }
    requires groups_fit { FieldsFit text.now groups.now }
    requires room { HasRoom (seen writing) (2 * length (flat_map nodes_of_stats fields.now ++ flat_map nodes_of_field groups.now)) }
    ensures writes { Writes (λ accepts. shape_of_stats text.now accepts fields.now groups.now (columns_of writing.visible)) (write_stats text.now fields.now groups.now (seen writing)) result }
    ensures hears { Hears M.refused M.last (flat_map regulars_of_stats fields.now ++ flat_map regulars_of_field groups.now) maker.old maker.new result }
{
    judge(alloc, &writing.visible, fields, groups, maker)?;
    let made = write_all_before(alloc, writing, fields, maker)?;
    let grouping = write_groups(alloc, made.writing, groups, maker)?;
    let grouped = write_grouping(alloc, grouping, made.calls)?;
    write_behind(alloc, text, grouped, fields, groups, maker)
}
