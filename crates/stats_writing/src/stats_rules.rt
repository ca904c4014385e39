ghost use Rattle.std.specs.Prelude.{◌≡◌, ◌≤◌, ◌++◌, [], ℕ, List, Some, None, Ok, if◌then◌else◌, length, map, IfOk, OnOk, IfErr};
ghost use Rattle.std.specs.Option.{option_map};
ghost use Rattle.std.specs.List.{flat_map};
ghost use Rattle.esql_ast.specs.Nodes.{nodes_of_expr, nodes_of_condition, nodes_of_stats, nodes_of_field};
ghost use Rattle.esql_plan.specs.Signatures.{is_kind};
ghost use Rattle.plan_semantics.specs.Plans.{columns_of};
ghost use Rattle.row_semantics.specs.Kinds.{kind_or_rule};
ghost use Rattle.row_semantics.specs.Regulars.{is_accepted};
ghost use Rattle.query_semantics.specs.StatsShapes.{kind_of_condition, aggregate_rule, condition_rule, first_broken, kinds_of_field, kinds_of_fields, kinds_of_groups, shape_of_stats};
ghost use Rattle.expression_analysis.specs.Answers.{scope_of, field_scope_of, IsRefusal, regulars_of_expr};
ghost use Rattle.plan_writing.specs.Answers.{Hears};
ghost use Rattle.stats_writing.specs.CallsSeen.{seen_calls};
ghost use Rattle.stats_writing.specs.Parts.{HasValue, judged_outside, judged_in_field};
ghost use Rattle.plan_writing.specs.Regulars.{regulars_of_condition, regulars_of_stats, regulars_of_field};
ghost use Rattle.stats_writing.specs.StatsRules.{broken_of, rule_of_field, rule_of_fields};

use crate::calls::{Opened, find_calls};
use esql_ast::{Condition, Expr, Field, StatsField};
use esql_types::{Kind, Maker, Seq, Span};
use expression_analysis::{AnalyzeError, typed_expr, typed_field};
use row_semantics::NameRule;
use std::alloc::Global;
use text_match::Patterns;
use visible_columns::VisibleColumns;

/// A rule that STATS breaks itself, at its place.
#[derive(Clone, Copy)]
pub(crate) struct BrokenRule {
    pub(crate) rule: NameRule,
    pub(crate) span: Span,
}

fn no_patterns(alloc: Global) -> Patterns
    ensures whole { result.whole ≡ [] }
    ensures free { result.free ≡ [] }
{
    Patterns {
        whole: Seq::new(alloc),
        free: Seq::new(alloc),
    }
}

// The kind of a field's expression. Its patterns are built for the judgement alone: they are read where its parts are written.
fn kind_in_field<M: Maker>(
    alloc: Global,
    columns: &VisibleColumns,
    expr: &Expr,
    maker: &mut M,
) -> Result<Kind, AnalyzeError>
    requires { length (nodes_of_expr expr.now) ≤ 4294967295 }
    ensures kind { IfOk result (λ kind. kind_or_rule expr.now (field_scope_of is_accepted columns.now) ≡ Ok kind) }
    ensures refusal { IfErr result (IsRefusal (judged_in_field columns.now expr.now)) }
    ensures hears { Hears M.refused M.last (regulars_of_expr expr.now) maker.old maker.new result }
{
    let mut patterns = no_patterns(alloc);
    let typed = typed_field(alloc, expr, columns, &[], &mut patterns, maker)?;
    Ok(typed.kind)
}

fn kind_outside<M: Maker>(
    alloc: Global,
    columns: &VisibleColumns,
    expr: &Expr,
    maker: &mut M,
) -> Result<Kind, AnalyzeError>
    requires { length (nodes_of_expr expr.now) ≤ 4294967295 }
    ensures kind { IfOk result (λ kind. kind_or_rule expr.now (scope_of is_accepted columns.now) ≡ Ok kind) }
    ensures refusal { IfErr result (IsRefusal (judged_outside columns.now expr.now)) }
    ensures hears { Hears M.refused M.last (regulars_of_expr expr.now) maker.old maker.new result }
{
    let mut patterns = no_patterns(alloc);
    let typed = typed_expr(alloc, expr, columns, &mut patterns, maker)?;
    Ok(typed.kind)
}

fn kind_of_condition<M: Maker>(
    alloc: Global,
    columns: &VisibleColumns,
    condition: &Option<Condition>,
    maker: &mut M,
) -> Result<Option<Kind>, AnalyzeError>
    requires { length (nodes_of_condition condition.now) ≤ 4294967295 }
    ensures kind { IfOk result (λ kind. kind_of_condition is_accepted (columns_of columns.now) condition.now ≡ Ok kind) }
    ensures refusal { IfErr result (IsRefusal (λ accepts. kind_of_condition accepts (columns_of columns.now) condition.now)) }
    ensures hears { Hears M.refused M.last (regulars_of_condition condition.now) maker.old maker.new result }
{
    match condition {
        None => Ok(None),
        Some(condition) => match kind_outside(alloc, columns, &condition.expr, maker) {
            Ok(kind) => Ok(Some(kind)),
            Err(error) => Err(error),
        },
    }
}

// No column stands outside the aggregates of a field, and there is one.
fn aggregate_rule(found: &Opened<'_>, own: Span) -> Option<BrokenRule>
    ensures { option_map broken_of result ≡ aggregate_rule found.now.columns.items (seen_calls found.now.calls.items) own }
{
    match found.columns.first() {
        Some(column) => Some(not_aggregate(*column)),
        None => {
            if found.calls.is_empty() {
                Some(not_aggregate(own))
            } else {
                None
            }
        }
    }
}

fn not_aggregate(span: Span) -> BrokenRule
    ensures { result ≡ record { rule = NameRule.NotAggregate; span = span } }
{
    BrokenRule {
        rule: NameRule::NotAggregate,
        span,
    }
}

// A condition is boolean or null.
fn condition_rule(condition: &Option<Condition>, kind: Option<Kind>) -> Option<BrokenRule>
    ensures { option_map broken_of result ≡ condition_rule condition.now kind }
{
    match (condition, kind) {
        (Some(condition), Some(kind)) => unless_boolean(condition.expr.span, kind),
        _ => None,
    }
}

fn unless_boolean(span: Span, kind: Kind) -> Option<BrokenRule>
    ensures { option_map broken_of result ≡ (if is_kind Kind.Boolean kind then None else Some (record { rule = NameRule.NotBoolean; span = span })) }
{
    if matches!(kind, Kind::Boolean | Kind::Null) {
        None
    } else {
        Some(BrokenRule {
            rule: NameRule::NotBoolean,
            span,
        })
    }
}

fn first_broken(broken: Option<BrokenRule>, later: Option<BrokenRule>) -> Option<BrokenRule>
    ensures { option_map broken_of result ≡ first_broken (option_map broken_of broken) (option_map broken_of later) }
{
    match broken {
        Some(broken) => Some(broken),
        None => later,
    }
}

// The rule that a field breaks, whose parts break none.
fn judge_field<M: Maker>(
    alloc: Global,
    columns: &VisibleColumns,
    stats: &StatsField,
    maker: &mut M,
) -> Result<Option<BrokenRule>, AnalyzeError>
    requires { length (nodes_of_stats stats.now) ≤ 4294967295 }
    ensures found { IfOk result (λ found. rule_of_field is_accepted (columns_of columns.now) stats.now ≡ Ok (option_map broken_of found)) }
    ensures refusal { IfErr result (IsRefusal (λ accepts. kinds_of_field accepts (columns_of columns.now) stats.now)) }
    ensures hears { Hears M.refused M.last (regulars_of_stats stats.now) maker.old maker.new result }
{
    kind_in_field(alloc, columns, &stats.field.expr, maker)?;
    let kind = kind_of_condition(alloc, columns, &stats.condition, maker)?;
    let found = find_calls(alloc, &stats.field.expr)?;
    Ok(first_broken(
        aggregate_rule(&found, stats.field.span),
        condition_rule(&stats.condition, kind),
    ))
}

fn judge_fields<M: Maker>(
    alloc: Global,
    columns: &VisibleColumns,
    fields: &[StatsField],
    maker: &mut M,
) -> Result<Option<BrokenRule>, AnalyzeError>
    requires { length (flat_map nodes_of_stats fields.now) ≤ 4294967295 }
    ensures found { IfOk result (λ found. rule_of_fields is_accepted (columns_of columns.now) fields.now ≡ Ok (option_map broken_of found)) }
    ensures refusal { IfErr result (IsRefusal (λ accepts. kinds_of_fields accepts (columns_of columns.now) fields.now)) }
    ensures hears { Hears M.refused M.last (flat_map regulars_of_stats fields.now) maker.old maker.new result }
{
    let mut broken = None;
    for stats in fields {
        let own = judge_field(alloc, columns, stats, maker)?;
        broken = first_broken(broken, own);
    }
    Ok(broken)
}

fn judge_groups<M: Maker>(
    alloc: Global,
    columns: &VisibleColumns,
    groups: &[Field],
    maker: &mut M,
) -> Result<(), AnalyzeError>
    requires { length (flat_map nodes_of_field groups.now) ≤ 4294967295 }
    ensures found { OnOk result (HasValue (kinds_of_groups is_accepted (columns_of columns.now) groups.now)) }
    ensures refusal { IfErr result (IsRefusal (λ accepts. kinds_of_groups accepts (columns_of columns.now) groups.now)) }
    ensures hears { Hears M.refused M.last (flat_map regulars_of_field groups.now) maker.old maker.new result }
{
    for group in groups {
        kind_outside(alloc, columns, &group.expr, maker)?;
    }
    Ok(())
}

/// Judges STATS before anything of it is written: its parts in the order in which they are written, then the rules of the command
/// itself, field by field.
pub(crate) fn judge<M: Maker>(
    alloc: Global,
    columns: &VisibleColumns,
    fields: &[StatsField],
    groups: &[Field],
    maker: &mut M,
) -> Result<(), AnalyzeError>
    requires fields { length (flat_map nodes_of_stats fields.now) ≤ 4294967295 }
    requires groups { length (flat_map nodes_of_field groups.now) ≤ 4294967295 }
    ensures found { OnOk result ((text : List ℕ) → HasValue (shape_of_stats text is_accepted fields.now groups.now (columns_of columns.now))) }
    ensures refusal { IfErr result (λ error. (text : List ℕ) → IsRefusal (λ accepts. shape_of_stats text accepts fields.now groups.now (columns_of columns.now)) error) }
    ensures hears { Hears M.refused M.last (flat_map regulars_of_stats fields.now ++ flat_map regulars_of_field groups.now) maker.old maker.new result }
{
    let broken = judge_fields(alloc, columns, fields, maker)?;
    judge_groups(alloc, columns, groups, maker)?;
    match broken {
        None => Ok(()),
        Some(broken) => Err(AnalyzeError::Broken {
            rule: broken.rule,
            span: broken.span,
        }),
    }
}
