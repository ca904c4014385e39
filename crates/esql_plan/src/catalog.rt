use esql_types::{Column, Seq, Text};

/// What a query names: tables and policies, which plans know by their numbers.
#[derive(Drop)]
pub struct Catalog {
    pub tables: Seq<TableShape>,
    pub policies: Seq<PolicyShape>,
}

/// A table's name and its columns.
#[derive(Drop)]
pub struct TableShape {
    pub name: Text,
    pub columns: Seq<Column>,
}

/// A policy's name, the numbers of its tables, the column that is matched, and the fields that it gives.
#[derive(Drop)]
pub struct PolicyShape {
    pub name: Text,
    pub tables: Seq<u32>,
    pub match_field: Column,
    pub fields: Seq<Column>,
}
