ghost use Rattle.std.specs.Prelude.{◌≡◌, ◌≤◌, [], ◌∷◌, Some, true, false};
ghost use Rattle.std.specs.Option.{option_copied};
ghost use Rattle.function_rules.specs.Found.{wrapped};
ghost use Rattle.expression_analysis.specs.Steps.{marks_of, refusal_of, IsReading, IsPatternAnswer};

use crate::AnalyzeError;
use esql_plan::Function;
use esql_types::{Maker, PatternError, Span};
use row_semantics::NameRule;
use std::alloc::Global;
use text_match::{FreeRegex, Patterns, WholeRegex};

/// Builds the regular expression of a function that has one, of its second part where that is a literal, and adds it to the
/// patterns. Answers the number of the function's pattern among those of its sort; `None` where it has no pattern, or where
/// there are more patterns than numbers.
pub(crate) fn read_pattern<M: Maker>(
    alloc: Global,
    function: Function,
    spans: &[Span],
    literal: Option<&str>,
    patterns: &mut Patterns,
    maker: &mut M,
) -> Result<Option<u32>, AnalyzeError>
    ensures { IsPatternAnswer function spans.now (option_copied literal.entry) patterns.old patterns.new (marks_of M.refused M.last maker.old) (marks_of M.refused M.last maker.new) result }
{
    match function {
        Function::Rlike => read_whole(alloc, spans, literal, patterns, maker),
        Function::NotRlike => read_whole(alloc, spans, literal, patterns, maker),
        Function::Replace => read_free(alloc, spans, literal, patterns, maker),
        _ => Ok(None),
    }
}

fn number_of(place: usize) -> Option<u32>
    ensures { place ≤ 4294967295 → result ≡ Some place }
{
    u32::try_from(place).ok()
}

fn read_whole<M: Maker>(
    alloc: Global,
    spans: &[Span],
    literal: Option<&str>,
    patterns: &mut Patterns,
    maker: &mut M,
) -> Result<Option<u32>, AnalyzeError>
    ensures { IsPatternAnswer Function.Rlike spans.now (option_copied literal.entry) patterns.old patterns.new (marks_of M.refused M.last maker.old) (marks_of M.refused M.last maker.new) result }
{
    let number = number_of(patterns.whole.len());
    match literal {
        None => Ok(number),
        Some(text) => match spans.get(1) {
            None => Ok(number),
            Some(span) => {
                add_whole(alloc, text, *span, patterns, maker)?;
                Ok(number)
            }
        },
    }
}

fn read_free<M: Maker>(
    alloc: Global,
    spans: &[Span],
    literal: Option<&str>,
    patterns: &mut Patterns,
    maker: &mut M,
) -> Result<Option<u32>, AnalyzeError>
    ensures { IsPatternAnswer Function.Replace spans.now (option_copied literal.entry) patterns.old patterns.new (marks_of M.refused M.last maker.old) (marks_of M.refused M.last maker.new) result }
{
    let number = number_of(patterns.free.len());
    match literal {
        None => Ok(number),
        Some(text) => match spans.get(1) {
            None => Ok(number),
            Some(span) => {
                add_free(alloc, text, *span, patterns, maker)?;
                Ok(number)
            }
        },
    }
}

fn add_whole<M: Maker>(
    alloc: Global,
    text: &str,
    span: Span,
    patterns: &mut Patterns,
    maker: &mut M,
) -> Result<(), AnalyzeError>
    ensures { IsReading (record { span = span; text = text.now; is_whole = true }) (wrapped text.now ∷ []) [] patterns.old patterns.new (marks_of M.refused M.last maker.old) (marks_of M.refused M.last maker.new) result }
{
    match WholeRegex::new(alloc, maker, text) {
        Ok(regex) => {
            patterns.whole.push(regex)?;
            Ok(())
        }
        Err(error) => Err(refusal_of(error, span)),
    }
}

fn add_free<M: Maker>(
    alloc: Global,
    text: &str,
    span: Span,
    patterns: &mut Patterns,
    maker: &mut M,
) -> Result<(), AnalyzeError>
    ensures { IsReading (record { span = span; text = text.now; is_whole = false }) [] (text.now ∷ []) patterns.old patterns.new (marks_of M.refused M.last maker.old) (marks_of M.refused M.last maker.new) result }
{
    match FreeRegex::new(alloc, maker, text) {
        Ok(regex) => {
            patterns.free.push(regex)?;
            Ok(())
        }
        Err(error) => Err(refusal_of(error, span)),
    }
}

fn refusal_of(error: PatternError, span: Span) -> AnalyzeError
    ensures { result ≡ refusal_of error span }
{
    match error {
        PatternError::NotRead => AnalyzeError::Broken {
            rule: NameRule::BadRegex,
            span,
        },
        PatternError::TooLarge => AnalyzeError::PatternRoom { span },
        PatternError::Memory(error) => AnalyzeError::Memory(error),
    }
}
