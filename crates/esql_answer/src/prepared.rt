ghost use Rattle.std.specs.Prelude.{◌≡◌, ◌≤◌, Ok, IfOk, IfErr};
ghost use Rattle.esql_ast.specs.Fits.{QueryFits};
ghost use Rattle.esql_ast.specs.Laws.{IsNumbered};
ghost use Rattle.plan_semantics.specs.Parts.{IsOrderly};
ghost use Rattle.plan_semantics.specs.Plans.{columns_of};
ghost use Rattle.plan_semantics.specs.Tables.{CatalogHeld};
ghost use Rattle.query_semantics.specs.Built.{IsBuiltQuery};
ghost use Rattle.query_semantics.specs.Catalogs.{IsCatalog};
ghost use Rattle.query_semantics.specs.Shapes.{shape_in, shape_of};
ghost use Rattle.query_semantics.specs.Sizes.{IsShortQuery};
ghost use Rattle.expression_analysis.specs.Answers.{IsRefusal, IsTold, IsQuiet};
ghost use Rattle.esql_analyze.specs.Regulars.{regulars_of_query};
ghost use Rattle.esql_answer.specs.Prepared.{prepared_of, MeansQuery};

use dissect_grok::Cutter;
use esql_analyze::{AnalyzeError, Analyzed, analyze};
use esql_ast::Query;
use esql_plan::{Catalog, Plan};
use esql_types::{Maker, Seq};
use std::alloc::Global;
use std::marker::Model;
use text_match::Patterns;
use written_laws::{plans_are_orderly, plans_are_well_formed, plans_mean_queries};

/// A query that can be answered over the tables of its catalog.
///
/// Contracts see it as its plan for its catalog, with the texts of the patterns and the cutters that the plan reads.
#[derive(Drop)]
pub struct Prepared {
    pub(crate) catalog: Catalog,
    pub(crate) plan: Plan,
    pub(crate) patterns: Patterns,
    pub(crate) cutters: Seq<Cutter>,
}

impl Model for Prepared {
    ghost use Rattle.std.specs.Coded.{codes};
    ghost use Rattle.esql_plan.specs.contracts.typed.TypedForm as typed_form;
    ghost use Rattle.plan_semantics.specs.WellFormed.{IsWellFormed};
    ghost use Rattle.esql_answer.specs.Prepared.{PreparedSeen};

    ghost Value = { PreparedSeen };

    ghost coded = { Prim.hlevel (codes, typed_form.the_row.coded) };

    ghost view = { λ prepared. record { catalog = prepared.catalog; plan = prepared.plan; whole = prepared.patterns.whole; free = prepared.patterns.free; cutters = prepared.cutters } };

    ghost invariant = { λ prepared. IsWellFormed prepared.catalog prepared.patterns.whole prepared.patterns.free prepared.cutters prepared.plan };
}

/// The plan of a query whose commands are built, for the tables of a catalog, with its regular expressions and its cutters
/// built.
///
/// # Errors
///
/// `Broken` exactly where the query breaks a rule, at the first one in written order; `PatternRoom` where a regular expression
/// is readable and too large to build, of which the maker was told; and want of memory.
pub fn prepare<M: Maker>(
    alloc: Global,
    text: &str,
    query: &Query,
    catalog: Catalog,
    maker: &mut M,
) -> Result<Prepared, AnalyzeError>
    requires fits { QueryFits text.now query.now }
    requires numbered { IsNumbered query.now }
    requires few { query.now.nodes ≤ 65537 }
    requires short { IsShortQuery query.now }
    requires catalog { IsCatalog catalog }
    requires built { IsBuiltQuery query.now }
    ensures written { IfOk result (λ prepared. prepared ≡ prepared_of text.now catalog query.now) }
    ensures shape { IfOk result (λ prepared. shape_of text.now catalog query.now ≡ Ok (columns_of prepared.plan.output)) }
    ensures agrees { IfOk result (MeansQuery text.now query.now) }
    ensures orderly { IfOk result (λ prepared. (held : CatalogHeld) → IsOrderly prepared.plan held) }
    ensures refusal { IfErr result (IsRefusal (λ accepts. shape_in (record { text = text.now; catalog = catalog; accepts = accepts }) query.now)) }
    ensures room { IfErr result (IsTold M.refused M.last (regulars_of_query query.now) maker.old maker.new) }
    ensures count { M.refused maker.old ≤ M.refused maker.new }
    ensures quiet { IsQuiet M.refused M.last maker.old maker.new result }
{
    plans_are_well_formed();
    plans_mean_queries();
    plans_are_orderly();
    match analyze(alloc, text, query, &catalog, maker) {
        Ok(
            Analyzed {
                plan,
                patterns,
                cutters,
            },
        ) => Ok(Prepared {
            catalog,
            plan,
            patterns,
            cutters,
        }),
        Err(error) => Err(error),
    }
}
