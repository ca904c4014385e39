ghost use Rattle.std.specs.Prelude.{◌≡◌, ◌≤◌, ◌<◌, ◌+◌, ◌++◌, ◌∷◌, [], true, Some, None, Ok, length, IfOk, IfErr};
ghost use Rattle.std.specs.List.{flat_map};
ghost use Rattle.std.specs.Option.{option_copied, option_map};
ghost use Rattle.esql_types.specs.declared.value.Value.TheVariants.{Bool};
ghost use Rattle.esql_ast.specs.Nodes.{nodes_of_expr, nodes_of_condition, nodes_of_stats, nodes_of_field};
ghost use Rattle.esql_plan.specs.Exprs.{typed_at, constant_at};
ghost use Rattle.esql_plan.specs.Signatures.{kind_of_call};
ghost use Rattle.row_semantics.specs.Kinds.{kind_or_rule};
ghost use Rattle.row_semantics.specs.Regulars.{is_accepted};
ghost use Rattle.row_semantics.specs.Typed.{typed_apply};
ghost use Rattle.query_semantics.specs.Calls.{calls_of};
ghost use Rattle.query_semantics.specs.Writings.{typed_in};
ghost use Rattle.query_semantics.specs.WrittenStats.{flag_typed, flagged_typed, write_flag, flag_of, write_call, call_input, function_of_call, write_calls, inputs_of_calls, write_before, inputs_before, write_all_before, all_inputs, write_groups, group_inputs};
ghost use Rattle.expression_analysis.specs.Answers.{scope_of, IsRefusal, regulars_of_expr};
ghost use Rattle.plan_writing.specs.Answers.{Hears};
ghost use Rattle.stats_writing.specs.Behind.{with_patterns};
ghost use Rattle.stats_writing.specs.CallsSeen.{nodes_of_argument, size_of_calls, call_of, seen_calls};
ghost use Rattle.stats_writing.specs.Parts.{OneIsRefused, judged_outside, judged_argument, judged_arguments, judged_condition, judged_before, judged_groups, regulars_of_argument, regulars_of_arguments, regulars_before};
ghost use Rattle.plan_writing.specs.Regulars.{regulars_of_condition, regulars_of_field};
ghost use Rattle.stats_writing.specs.StatsSeen.{flag_in, flag_seen, call_in, calls_seen, group_in, groups_seen};
ghost use Rattle.plan_writing.specs.Writings.{seen, HasRoom};

use crate::calls::{Call, find_calls};
use esql_ast::{Condition, Expr, Field, StatsField};
use esql_plan::{AggFunction, Function, TypedExpr, TypedForm};
use esql_types::{Cell, ColId, Kind, Maker, NodeId, Seq, Value};
use expression_analysis::{AnalyzeError, typed_expr};
use plan_writing::{Input, Writing, make_input, write_input};
use std::alloc::{AllocError, Global};

/// The column of a condition, which is true or null on each row, and the condition's node.
#[derive(Clone, Copy)]
pub(crate) struct Flag {
    pub(crate) node: NodeId,
    pub(crate) id: ColId,
}

/// An aggregate before it has a number.
#[derive(Clone, Copy)]
pub(crate) struct CallInput {
    pub(crate) node: NodeId,
    pub(crate) function: AggFunction,
    pub(crate) input: Option<ColId>,
}

/// A column that rows are grouped by, with its kind.
#[derive(Clone, Copy)]
pub(crate) struct GroupInput {
    pub(crate) id: ColId,
    pub(crate) kind: Kind,
}

/// A plan that has the inputs of aggregates so far.
#[derive(Drop)]
pub(crate) struct Arguments {
    pub(crate) writing: Writing,
    pub(crate) calls: Seq<CallInput>,
}

/// A plan that has the columns that rows are grouped by so far.
#[derive(Drop)]
pub(crate) struct Grouping {
    pub(crate) writing: Writing,
    pub(crate) groups: Seq<GroupInput>,
}

/// A typed expression, and the plan that has its patterns.
#[derive(Drop)]
pub(crate) struct InPlan {
    pub(crate) typed: TypedExpr,
    pub(crate) writing: Writing,
}

// A plan that has the column of a condition, if there is one.
#[derive(Drop)]
struct Flagged {
    flag: Option<Flag>,
    writing: Writing,
}

// The input of a call, and the plan that has it.
#[derive(Drop)]
struct Called {
    input: Option<ColId>,
    writing: Writing,
}

fn type_expr<M: Maker>(
    alloc: Global,
    writing: Writing,
    expr: &Expr,
    maker: &mut M,
) -> Result<InPlan, AnalyzeError>
    requires { HasRoom (seen writing) (length (nodes_of_expr expr.now)) }
    ensures typed { IfOk result (λ made. made.typed ≡ typed_in (seen writing) expr.now) }
    ensures kind { IfOk result (λ made. kind_or_rule expr.now (scope_of is_accepted writing.visible) ≡ Ok made.typed.kind) }
    ensures seen { IfOk result (λ made. seen made.writing ≡ with_patterns expr.now (seen writing)) }
    ensures refusal { IfErr result (IsRefusal (judged_outside writing.visible expr.now)) }
    ensures hears { Hears M.refused M.last (regulars_of_expr expr.now) maker.old maker.new result }
{
    let Writing {
        visible,
        next,
        patterns,
        cutters,
        steps,
    } = writing;
    let mut patterns = patterns;
    let typed = typed_expr(alloc, expr, &visible, &mut patterns, maker)?;
    let writing = Writing {
        visible,
        next,
        patterns,
        cutters,
        steps,
    };
    Ok(InPlan { typed, writing })
}

// The value where a condition is true, else null; it has the kind of the value.
fn case_of(
    alloc: Global,
    node: NodeId,
    condition: TypedExpr,
    value: TypedExpr,
) -> Result<TypedExpr, AllocError>
    requires { kind_of_call Function.Case (condition.kind ∷ value.kind ∷ []) ≡ value.kind }
    ensures { IfOk result (λ typed. typed ≡ typed_apply node Function.Case (condition ∷ value ∷ []) None) }
{
    let kind = value.kind;
    let mut args = Seq::new(alloc);
    args.push(condition)?;
    args.push(value)?;
    Ok(TypedExpr {
        node,
        kind,
        form: TypedForm::Apply {
            function: Function::Case,
            args,
            pattern: None,
        },
    })
}

fn constant_true(alloc: Global, node: NodeId) -> TypedExpr
    ensures { result ≡ constant_at node Kind.Boolean (Bool true ∷ []) }
{
    TypedExpr {
        node,
        kind: Kind::Boolean,
        form: TypedForm::Constant {
            cell: Cell::one(alloc, Value::Bool(true)),
        },
    }
}

fn read_flag(flag: Flag) -> TypedExpr
    ensures { result ≡ typed_at flag.node Kind.Boolean (TypedForm.Column flag.id) }
{
    TypedExpr {
        node: flag.node,
        kind: Kind::Boolean,
        form: TypedForm::Column { id: flag.id },
    }
}

// The condition of a field as a column: true where it is true, else null.
fn write_flag<M: Maker>(
    alloc: Global,
    writing: Writing,
    condition: &Option<Condition>,
    maker: &mut M,
) -> Result<Flagged, AnalyzeError>
    requires { HasRoom (seen writing) (length (nodes_of_condition condition.now)) }
    ensures flag { IfOk result (λ made. flag_seen made.flag ≡ flag_of condition.now (seen writing)) }
    ensures visible { IfOk result (λ made. made.writing.visible ≡ writing.visible) }
    ensures written { IfOk result (λ made. seen made.writing ≡ write_flag condition.now (seen writing)) }
    ensures refusal { IfErr result (OneIsRefused (judged_condition writing.visible condition.now)) }
    ensures hears { Hears M.refused M.last (regulars_of_condition condition.now) maker.old maker.new result }
{
    match condition {
        None => Ok(Flagged {
            flag: None,
            writing,
        }),
        Some(condition) => make_flag(alloc, writing, condition, maker),
    }
}

fn make_flag<M: Maker>(
    alloc: Global,
    writing: Writing,
    condition: &Condition,
    maker: &mut M,
) -> Result<Flagged, AnalyzeError>
    requires { HasRoom (seen writing) (length (nodes_of_expr condition.now.expr)) }
    ensures flag { IfOk result (λ made. flag_seen made.flag ≡ flag_of (Some condition.now) (seen writing)) }
    ensures visible { IfOk result (λ made. made.writing.visible ≡ writing.visible) }
    ensures written { IfOk result (λ made. seen made.writing ≡ write_flag (Some condition.now) (seen writing)) }
    ensures refusal { IfErr result (IsRefusal (judged_outside writing.visible condition.now.expr)) }
    ensures hears { Hears M.refused M.last (regulars_of_expr condition.now.expr) maker.old maker.new result }
{
    let made = type_expr(alloc, writing, &condition.expr, maker)?;
    let typed = case_of(
        alloc,
        condition.node,
        made.typed,
        constant_true(alloc, condition.node),
    )?;
    let input = make_input(made.writing, typed)?;
    Ok(Flagged {
        flag: Some(Flag {
            node: condition.node,
            id: input.id,
        }),
        writing: input.writing,
    })
}

// An argument is read only on the rows on which the condition of its field is true.
fn write_flagged<M: Maker>(
    alloc: Global,
    writing: Writing,
    flag: Flag,
    argument: &Expr,
    maker: &mut M,
) -> Result<Input, AnalyzeError>
    requires { HasRoom (seen writing) (length (nodes_of_expr argument.now)) }
    ensures id { IfOk result (λ input. Some input.id ≡ call_input (Some (flag_in flag)) (Some argument.now) (seen writing)) }
    ensures visible { IfOk result (λ input. input.writing.visible ≡ writing.visible) }
    ensures written { IfOk result (λ input. seen input.writing ≡ write_call (Some (flag_in flag)) (Some argument.now) (seen writing)) }
    ensures refusal { IfErr result (IsRefusal (judged_outside writing.visible argument.now)) }
    ensures hears { Hears M.refused M.last (regulars_of_expr argument.now) maker.old maker.new result }
{
    let made = type_expr(alloc, writing, argument, maker)?;
    let typed = case_of(alloc, flag.node, read_flag(flag), made.typed)?;
    Ok(make_input(made.writing, typed)?)
}

fn write_argument<M: Maker>(
    alloc: Global,
    writing: Writing,
    flag: Option<Flag>,
    argument: &Expr,
    maker: &mut M,
) -> Result<Input, AnalyzeError>
    requires { HasRoom (seen writing) (length (nodes_of_expr argument.now)) }
    ensures id { IfOk result (λ input. Some input.id ≡ call_input (flag_seen flag) (Some argument.now) (seen writing)) }
    ensures visible { IfOk result (λ input. input.writing.visible ≡ writing.visible) }
    ensures written { IfOk result (λ input. seen input.writing ≡ write_call (flag_seen flag) (Some argument.now) (seen writing)) }
    ensures refusal { IfErr result (IsRefusal (judged_outside writing.visible argument.now)) }
    ensures hears { Hears M.refused M.last (regulars_of_expr argument.now) maker.old maker.new result }
{
    match flag {
        None => write_input(alloc, writing, argument, maker),
        Some(flag) => write_flagged(alloc, writing, flag, argument, maker),
    }
}

// Rows on which a condition is true are counted as values of its column.
fn function_of_call(flag: Option<Flag>, function: AggFunction) -> AggFunction
    ensures { result ≡ function_of_call (flag_seen flag) function }
{
    match (flag, function) {
        (Some(_), AggFunction::CountRows) => AggFunction::Count,
        (_, function) => function,
    }
}

fn id_of_flag(flag: Option<Flag>) -> Option<ColId>
    ensures { result ≡ option_map (λ own. own.id) flag }
{
    match flag {
        None => None,
        Some(flag) => Some(flag.id),
    }
}

// The input of a call; one without an argument reads no more than the column of the condition.
fn write_call<M: Maker>(
    alloc: Global,
    writing: Writing,
    flag: Option<Flag>,
    argument: Option<&Expr>,
    maker: &mut M,
) -> Result<Called, AnalyzeError>
    requires { HasRoom (seen writing) (length (nodes_of_argument (option_copied argument))) }
    ensures input { IfOk result (λ made. made.input ≡ call_input (flag_seen flag) (option_copied argument.entry) (seen writing)) }
    ensures visible { IfOk result (λ made. made.writing.visible ≡ writing.visible) }
    ensures written { IfOk result (λ made. seen made.writing ≡ write_call (flag_seen flag) (option_copied argument.entry) (seen writing)) }
    ensures refusal { IfErr result (OneIsRefused (judged_argument writing.visible (option_copied argument.entry))) }
    ensures hears { Hears M.refused M.last (regulars_of_argument (option_copied argument.entry)) maker.old maker.new result }
{
    match argument {
        None => Ok(Called {
            input: id_of_flag(flag),
            writing,
        }),
        Some(argument) => match write_argument(alloc, writing, flag, argument, maker) {
            Ok(input) => Ok(Called {
                input: Some(input.id),
                writing: input.writing,
            }),
            Err(error) => Err(error),
        },
    }
}

// The inputs of the calls of a field, from the left.
fn write_calls<M: Maker>(
    alloc: Global,
    made: Arguments,
    flag: Option<Flag>,
    calls: &[Call<'_>],
    maker: &mut M,
) -> Result<Arguments, AnalyzeError>
    requires { HasRoom (seen made.writing) (size_of_calls (seen_calls calls.now)) }
    ensures visible { IfOk result (λ new. new.writing.visible ≡ made.writing.visible) }
    ensures written { IfOk result (λ new. seen new.writing ≡ write_calls (flag_seen flag) (seen_calls calls.now) (seen made.writing)) }
    ensures inputs { IfOk result (λ new. calls_seen new.calls ≡ calls_seen made.calls ++ inputs_of_calls (flag_seen flag) (seen_calls calls.now) (seen made.writing)) }
    ensures refusal { IfErr result (OneIsRefused (judged_arguments made.writing.visible (seen_calls calls.now))) }
    ensures hears { Hears M.refused M.last (regulars_of_arguments (seen_calls calls.now)) maker.old maker.new result }
{
    let Arguments {
        writing,
        calls: inputs,
    } = made;
    let mut writing = writing;
    let mut inputs = inputs;
    for call in calls {
        let called = write_call(alloc, writing, flag, call.argument, maker)?;
        writing = called.writing;
        inputs.push(CallInput {
            node: call.node,
            function: function_of_call(flag, call.function),
            input: called.input,
        })?;
    }
    Ok(Arguments {
        writing,
        calls: inputs,
    })
}

// The condition of a field, then the arguments of its calls.
fn write_before<M: Maker>(
    alloc: Global,
    made: Arguments,
    stats: &StatsField,
    maker: &mut M,
) -> Result<Arguments, AnalyzeError>
    requires { HasRoom (seen made.writing) (length (nodes_of_stats stats.now)) }
    ensures visible { IfOk result (λ new. new.writing.visible ≡ made.writing.visible) }
    ensures written { IfOk result (λ new. seen new.writing ≡ write_before stats.now (seen made.writing)) }
    ensures inputs { IfOk result (λ new. calls_seen new.calls ≡ calls_seen made.calls ++ inputs_before stats.now (seen made.writing)) }
    ensures refusal { IfErr result (OneIsRefused (judged_before made.writing.visible stats.now)) }
    ensures hears { Hears M.refused M.last (regulars_before stats.now) maker.old maker.new result }
{
    let Arguments { writing, calls } = made;
    let found = find_calls(alloc, &stats.field.expr)?;
    let flagged = write_flag(alloc, writing, &stats.condition, maker)?;
    let made = Arguments {
        writing: flagged.writing,
        calls,
    };
    write_calls(alloc, made, flagged.flag, &found.calls, maker)
}

/// The inputs of the aggregates of fields, field after field.
pub(crate) fn write_all_before<M: Maker>(
    alloc: Global,
    writing: Writing,
    fields: &[StatsField],
    maker: &mut M,
) -> Result<Arguments, AnalyzeError>
    requires { HasRoom (seen writing) (length (flat_map nodes_of_stats fields.now)) }
    ensures visible { IfOk result (λ new. new.writing.visible ≡ writing.visible) }
    ensures written { IfOk result (λ new. seen new.writing ≡ write_all_before fields.now (seen writing)) }
    ensures inputs { IfOk result (λ new. calls_seen new.calls ≡ all_inputs fields.now (seen writing)) }
    ensures refusal { IfErr result (OneIsRefused (flat_map (judged_before writing.visible) fields.now)) }
    ensures hears { Hears M.refused M.last (flat_map regulars_before fields.now) maker.old maker.new result }
{
    let mut made = Arguments {
        writing,
        calls: Seq::new(alloc),
    };
    for stats in fields {
        made = write_before(alloc, made, stats, maker)?;
    }
    Ok(made)
}

/// The columns that rows are grouped by.
pub(crate) fn write_groups<M: Maker>(
    alloc: Global,
    writing: Writing,
    groups: &[Field],
    maker: &mut M,
) -> Result<Grouping, AnalyzeError>
    requires { HasRoom (seen writing) (length (flat_map nodes_of_field groups.now)) }
    ensures visible { IfOk result (λ new. new.writing.visible ≡ writing.visible) }
    ensures written { IfOk result (λ new. seen new.writing ≡ write_groups groups.now (seen writing)) }
    ensures inputs { IfOk result (λ new. groups_seen new.groups ≡ group_inputs groups.now (seen writing)) }
    ensures refusal { IfErr result (OneIsRefused (judged_groups writing.visible groups.now)) }
    ensures hears { Hears M.refused M.last (flat_map regulars_of_field groups.now) maker.old maker.new result }
{
    let mut writing = writing;
    let mut inputs = Seq::new(alloc);
    for group in groups {
        let input = write_input(alloc, writing, &group.expr, maker)?;
        writing = input.writing;
        inputs.push(GroupInput {
            id: input.id,
            kind: input.kind,
        })?;
    }
    Ok(Grouping {
        writing,
        groups: inputs,
    })
}
