use crate::Step;
use esql_types::{ColId, Kind, Seq, Text};

/// A query over numbered columns: a source, steps one after another, and the columns that are shown.
#[derive(Drop)]
pub struct Plan {
    pub source: PlanSource,
    pub steps: Seq<Step>,
    pub output: Seq<OutColumn>,
    /// Every column number is below it.
    pub columns: u32,
    /// Every node is below it.
    pub nodes: u32,
}

#[derive(Drop)]
pub enum PlanSource {
    /// One row without columns.
    OneRow,
    /// The rows of the tables of these numbers, one table after another.
    Scan {
        tables: Seq<u32>,
        columns: Seq<ScanColumn>,
    },
}

/// A column that is read from the tables by its name.
#[derive(Drop)]
pub struct ScanColumn {
    pub name: Text,
    pub kind: Kind,
    pub to: ColId,
}

/// A column that is shown under a name.
#[derive(Drop)]
pub struct OutColumn {
    pub name: Text,
    pub kind: Kind,
    pub id: ColId,
}
