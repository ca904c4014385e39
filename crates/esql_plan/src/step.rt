use crate::{AggFunction, TypedExpr};
use esql_types::{ColId, Kind, NodeId, Seq, Text};

/// A step of a plan, from rows to rows.
#[derive(Drop)]
pub enum Step {
    /// A new column, whose cell is the value of an expression.
    Eval {
        to: ColId,
        expr: TypedExpr,
    },
    /// Keeps the rows whose condition is true.
    Filter {
        node: NodeId,
        condition: TypedExpr,
    },
    /// The rows in the order of keys, in their earlier order where the keys tie.
    Sort {
        keys: Seq<PlanKey>,
    },
    /// The first `count` rows in the order of keys.
    TopN {
        keys: Seq<PlanKey>,
        count: u64,
    },
    /// The first `count` rows.
    Limit {
        count: u64,
    },
    /// A row for each value of a column, with that value in a new column; one row where there is none.
    Expand {
        id: ColId,
        to: ColId,
    },
    /// A row for each group, with its aggregates and its groups as the only columns.
    Stats {
        aggregates: Seq<Aggregate>,
        groups: Seq<GroupColumn>,
    },
    /// The texts that a DISSECT pattern cuts out of a column, those of one name joined by the separator.
    Dissect {
        node: NodeId,
        input: ColId,
        cutter: u32,
        pattern: Text,
        separator: Text,
        to: Seq<NewColumn>,
    },
    /// The texts that a GROK pattern takes out of a column.
    Grok {
        node: NodeId,
        input: ColId,
        cutter: u32,
        pattern: Text,
        to: Seq<NewColumn>,
    },
    /// The fields of the rows that a policy matches with a column, each in its new column.
    Enrich {
        policy: u32,
        on: ColId,
        fields: Seq<u32>,
        to: Seq<NewColumn>,
    },
}

/// A new column of a step, and the kind of its cells.
#[derive(Clone, Copy, Debug, PartialEq, Eq)]
pub struct NewColumn {
    pub id: ColId,
    pub kind: Kind,
}

/// A column that rows are sorted by.
#[derive(Clone, Copy, Debug, PartialEq, Eq)]
pub struct PlanKey {
    pub id: ColId,
    pub descending: bool,
    pub nulls_first: bool,
}

/// An aggregate of a column, which is `None` for `CountRows` alone, and the new column that it makes.
#[derive(Clone, Copy, Debug, PartialEq, Eq)]
pub struct Aggregate {
    pub node: NodeId,
    pub function: AggFunction,
    pub input: Option<ColId>,
    pub to: ColId,
}

/// A column that rows are grouped by, and the new column of its values.
#[derive(Clone, Copy, Debug, PartialEq, Eq)]
pub struct GroupColumn {
    pub id: ColId,
    pub to: ColId,
}
