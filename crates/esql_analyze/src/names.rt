ghost use Rattle.std.specs.Prelude.{◌≡◌, ◌<◌, length, IfErr, MatchResult};
ghost use Rattle.name_rules.specs.NamePlaces.{IsNameRefusal, IsRenameRefusal};
ghost use Rattle.plan_semantics.specs.Plans.{columns_of};
ghost use Rattle.query_semantics.specs.Shapes.{shape_of_keep, shape_of_drop, shape_of_rename};
ghost use Rattle.query_semantics.specs.Writings.{visible_names};
ghost use Rattle.query_semantics.specs.Written.{write_keep, write_drop, write_rename};
ghost use Rattle.plan_writing.specs.Writings.{seen};
ghost use Rattle.plan_writing.specs.Answers.{Writes};
ghost use Rattle.esql_analyze.specs.Names.{IsPatternError, IsPairError};

use esql_ast::{NamePattern, RenamePair};
use esql_types::Seq;
use expression_analysis::AnalyzeError;
use name_rules::{NameError, RenameError, drop_names, keep_order, rename_pairs};
use plan_writing::{Writing, columns_at, columns_renamed, names_apart};
use row_semantics::NameRule;
use std::alloc::Global;

// The rule that a pattern breaks which no column meets.
fn pattern_error(error: NameError) -> AnalyzeError
    ensures { IsPatternError error result }
{
    match error {
        NameError::UnknownColumn { span } => AnalyzeError::Broken {
            rule: NameRule::UnknownColumn,
            span,
        },
        NameError::NoMatch { span } => AnalyzeError::Broken {
            rule: NameRule::NoMatch,
            span,
        },
        NameError::Memory(error) => AnalyzeError::Memory(error),
    }
}

// The rule that a pair breaks whose old name is no column's.
fn pair_error(error: RenameError) -> AnalyzeError
    ensures { IsPairError error result }
{
    match error {
        RenameError::UnknownColumn { span } => AnalyzeError::Broken {
            rule: NameRule::UnknownColumn,
            span,
        },
        RenameError::Memory(error) => AnalyzeError::Memory(error),
    }
}

/// KEEP: the columns that some pattern meets.
pub(crate) fn write_keep(
    alloc: Global,
    writing: Writing,
    patterns: &Seq<NamePattern>,
) -> Result<Writing, AnalyzeError>
    requires { length writing.visible < 4294967296 }
    ensures { Writes (λ accepts. shape_of_keep patterns.now (columns_of writing.visible)) (write_keep patterns.now (seen writing)) result }
{
    let Writing {
        visible,
        next,
        patterns: read,
        cutters,
        steps,
    } = writing;
    let apart = names_apart(alloc, visible)?;
    let places = match keep_order(alloc, &apart.names, patterns) {
        Ok(places) => places,
        Err(error) => return Err(pattern_error(error)),
    };
    let visible = columns_at(alloc, &apart, places.as_slice())?;
    Ok(Writing {
        visible,
        next,
        patterns: read,
        cutters,
        steps,
    })
}

/// DROP: the columns that no pattern meets.
pub(crate) fn write_drop(
    alloc: Global,
    writing: Writing,
    patterns: &Seq<NamePattern>,
) -> Result<Writing, AnalyzeError>
    requires { length writing.visible < 4294967296 }
    ensures { Writes (λ accepts. shape_of_drop patterns.now (columns_of writing.visible)) (write_drop patterns.now (seen writing)) result }
{
    let Writing {
        visible,
        next,
        patterns: read,
        cutters,
        steps,
    } = writing;
    let apart = names_apart(alloc, visible)?;
    let places = match drop_names(alloc, &apart.names, patterns) {
        Ok(places) => places,
        Err(error) => return Err(pattern_error(error)),
    };
    let visible = columns_at(alloc, &apart, places.as_slice())?;
    Ok(Writing {
        visible,
        next,
        patterns: read,
        cutters,
        steps,
    })
}

/// RENAME: the columns under their new names.
pub(crate) fn write_rename(
    alloc: Global,
    writing: Writing,
    pairs: &Seq<RenamePair>,
) -> Result<Writing, AnalyzeError>
    requires { length writing.visible < 4294967296 }
    ensures { Writes (λ accepts. shape_of_rename pairs.now (columns_of writing.visible)) (write_rename pairs.now (seen writing)) result }
{
    let Writing {
        visible,
        next,
        patterns,
        cutters,
        steps,
    } = writing;
    let apart = names_apart(alloc, visible)?;
    let renamed = match rename_pairs(alloc, &apart.names, pairs) {
        Ok(renamed) => renamed,
        Err(error) => return Err(pair_error(error)),
    };
    let visible = columns_renamed(alloc, &apart.shown, renamed)?;
    Ok(Writing {
        visible,
        next,
        patterns,
        cutters,
        steps,
    })
}
