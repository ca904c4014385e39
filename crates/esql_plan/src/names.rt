//! The names of functions, of aggregates, and of kinds behind `::`.

ghost use Rattle.std.specs.Prelude.{◌≡◌, ◌++◌};
ghost use Rattle.esql_plan.specs.Names.{entry_in, value_names, text_names, list_names, function_named, aggregate_named, cast_named};

use crate::{AggFunction, Function};

/// A function that a name calls, and the least and the greatest number of arguments of a call; `most` is `None` where any
/// number from the least on will do.
#[derive(Clone, Copy, Debug, PartialEq, Eq)]
pub struct FunctionRow {
    pub function: Function,
    pub least: u32,
    pub most: Option<u32>,
}

/// The function that a name calls, in any ASCII case; `None` exactly where the name calls no function, or an aggregate.
/// `MV_SORT` calls `MvSort`, and may have a direction as its second argument. Takes no memory.
pub fn find_function(name: &str) -> Option<FunctionRow>
    ensures { result ≡ function_named name.now }
{
    match find_value_function(name) {
        Some(row) => Some(row),
        None => find_text_or_list_function(name),
    }
}

/// The aggregate that a name calls, in any ASCII case; `COUNT` calls `Count`. Takes no memory.
#[tactic(auto, unfolding(crate::specs::Names::aggregate_named))]
pub fn find_aggregate(name: &str) -> Option<AggFunction>
    ensures { result ≡ aggregate_named name.now }
{
    if name.eq_ignore_ascii_case("COUNT") {
        Some(AggFunction::Count)
    } else if name.eq_ignore_ascii_case("COUNT_DISTINCT") {
        Some(AggFunction::CountDistinct)
    } else if name.eq_ignore_ascii_case("SUM") {
        Some(AggFunction::Sum)
    } else if name.eq_ignore_ascii_case("MIN") {
        Some(AggFunction::Min)
    } else if name.eq_ignore_ascii_case("MAX") {
        Some(AggFunction::Max)
    } else if name.eq_ignore_ascii_case("VALUES") {
        Some(AggFunction::Values)
    } else {
        None
    }
}

/// The conversion to the kind of a name, in any ASCII case, as it stands behind `::`. Takes no memory.
#[tactic(auto, unfolding(crate::specs::Names::cast_named))]
pub fn cast_function(name: &str) -> Option<Function>
    ensures { result ≡ cast_named name.now }
{
    if name.eq_ignore_ascii_case("INTEGER") || name.eq_ignore_ascii_case("INT") {
        Some(Function::ToInteger)
    } else if name.eq_ignore_ascii_case("LONG") {
        Some(Function::ToLong)
    } else if name.eq_ignore_ascii_case("BOOLEAN") || name.eq_ignore_ascii_case("BOOL") {
        Some(Function::ToBoolean)
    } else if name.eq_ignore_ascii_case("KEYWORD") || name.eq_ignore_ascii_case("STRING") {
        Some(Function::ToString)
    } else {
        None
    }
}

fn find_text_or_list_function(name: &str) -> Option<FunctionRow>
    ensures { result ≡ entry_in (text_names ++ list_names) name.now }
{
    match find_text_function(name) {
        Some(row) => Some(row),
        None => find_list_function(name),
    }
}

fn exactly(function: Function, count: u32) -> Option<FunctionRow>
    ensures { result ≡ Some (record { function = function; least = count; most = Some count }) }
{
    between(function, count, count)
}

fn between(function: Function, least: u32, most: u32) -> Option<FunctionRow>
    ensures { result ≡ Some (record { function = function; least = least; most = Some most }) }
{
    Some(FunctionRow {
        function,
        least,
        most: Some(most),
    })
}

fn at_least(function: Function, least: u32) -> Option<FunctionRow>
    ensures { result ≡ Some (record { function = function; least = least; most = None }) }
{
    Some(FunctionRow {
        function,
        least,
        most: None,
    })
}

fn find_value_function(name: &str) -> Option<FunctionRow>
    ensures { result ≡ entry_in value_names name.now }
{
    if name.eq_ignore_ascii_case("ABS") {
        exactly(Function::Abs, 1)
    } else if name.eq_ignore_ascii_case("GREATEST") {
        at_least(Function::Greatest, 1)
    } else if name.eq_ignore_ascii_case("LEAST") {
        at_least(Function::Least, 1)
    } else if name.eq_ignore_ascii_case("CASE") {
        at_least(Function::Case, 2)
    } else if name.eq_ignore_ascii_case("COALESCE") {
        at_least(Function::Coalesce, 1)
    } else if name.eq_ignore_ascii_case("TO_INTEGER") || name.eq_ignore_ascii_case("TO_INT") {
        exactly(Function::ToInteger, 1)
    } else if name.eq_ignore_ascii_case("TO_LONG") {
        exactly(Function::ToLong, 1)
    } else if name.eq_ignore_ascii_case("TO_BOOLEAN") || name.eq_ignore_ascii_case("TO_BOOL") {
        exactly(Function::ToBoolean, 1)
    } else if name.eq_ignore_ascii_case("TO_STRING") || name.eq_ignore_ascii_case("TO_STR") {
        exactly(Function::ToString, 1)
    } else {
        None
    }
}

fn find_text_function(name: &str) -> Option<FunctionRow>
    ensures { result ≡ entry_in text_names name.now }
{
    if name.eq_ignore_ascii_case("LENGTH") {
        exactly(Function::Length, 1)
    } else if name.eq_ignore_ascii_case("CONCAT") {
        at_least(Function::Concat, 2)
    } else if name.eq_ignore_ascii_case("SUBSTRING") {
        between(Function::Substring, 2, 3)
    } else if name.eq_ignore_ascii_case("LEFT") {
        exactly(Function::Left, 2)
    } else if name.eq_ignore_ascii_case("RIGHT") {
        exactly(Function::Right, 2)
    } else if name.eq_ignore_ascii_case("TRIM") {
        exactly(Function::Trim, 1)
    } else if name.eq_ignore_ascii_case("LTRIM") {
        exactly(Function::Ltrim, 1)
    } else if name.eq_ignore_ascii_case("RTRIM") {
        exactly(Function::Rtrim, 1)
    } else if name.eq_ignore_ascii_case("STARTS_WITH") {
        exactly(Function::StartsWith, 2)
    } else if name.eq_ignore_ascii_case("ENDS_WITH") {
        exactly(Function::EndsWith, 2)
    } else if name.eq_ignore_ascii_case("REPLACE") {
        exactly(Function::Replace, 3)
    } else if name.eq_ignore_ascii_case("SPLIT") {
        exactly(Function::Split, 2)
    } else {
        None
    }
}

fn find_list_function(name: &str) -> Option<FunctionRow>
    ensures { result ≡ entry_in list_names name.now }
{
    if name.eq_ignore_ascii_case("MV_COUNT") {
        exactly(Function::MvCount, 1)
    } else if name.eq_ignore_ascii_case("MV_SUM") {
        exactly(Function::MvSum, 1)
    } else if name.eq_ignore_ascii_case("MV_MIN") {
        exactly(Function::MvMin, 1)
    } else if name.eq_ignore_ascii_case("MV_MAX") {
        exactly(Function::MvMax, 1)
    } else if name.eq_ignore_ascii_case("MV_FIRST") {
        exactly(Function::MvFirst, 1)
    } else if name.eq_ignore_ascii_case("MV_LAST") {
        exactly(Function::MvLast, 1)
    } else if name.eq_ignore_ascii_case("MV_DEDUPE") {
        exactly(Function::MvDedupe, 1)
    } else if name.eq_ignore_ascii_case("MV_SORT") {
        between(Function::MvSort, 1, 2)
    } else if name.eq_ignore_ascii_case("MV_CONCAT") {
        exactly(Function::MvConcat, 2)
    } else if name.eq_ignore_ascii_case("MV_APPEND") {
        exactly(Function::MvAppend, 2)
    } else if name.eq_ignore_ascii_case("MV_SLICE") {
        between(Function::MvSlice, 2, 3)
    } else {
        None
    }
}
