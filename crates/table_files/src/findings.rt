//! Tables and policies in the order in which they were found.
ghost use Rattle.std.specs.Prelude.{◌≡◌, ◌+◌, ◌≤◌, false, length, IfOk};
ghost use Rattle.table_files.specs.Catalogs.{columns_of};
ghost use Rattle.table_files.specs.Found.{has_table, nothing, with_policy, with_table};
ghost use Rattle.table_files.specs.Numbers.{number_if};
ghost use Rattle.table_files.specs.Policies.{columns_named};
ghost use Rattle.table_files.specs.Shapes.{entries_in};

use crate::tables::FoundTable;
use esql_plan::PolicyShape;
use esql_types::Seq;
use ndjson_load::MappedColumn;
use std::alloc::{AllocError, Global};
use std::collections::BTreeMap;
use std::marker::Model;

/// Tables and policies that were found, with the number of each table by its name, and the entries of their catalog.
#[derive(Drop)]
pub(crate) struct Findings {
    tables: Seq<FoundTable>,
    numbers: BTreeMap<String, u32>,
    policies: Seq<PolicyShape>,
    entries: usize,
}

impl Model for Findings {
    ghost use Rattle.table_files.specs.Found.{Found};
    ghost use Rattle.table_files.specs.Numbers.{AreCounted};
    ghost use Rattle.std.specs.BTreeMap.{get_by_text};

    ghost Value = { Found };

    ghost view = { λ it. record { tables = it.tables; policies = it.policies } };

    ghost invariant = { λ it. AreCounted (get_by_text it.numbers) it.entries it.tables it.policies };
}

impl Findings {
    /// Nothing, which takes no memory.
    pub(crate) fn new(alloc: Global) -> Findings
        ensures { result ≡ nothing }
    {
        Findings {
            tables: Seq::new(alloc),
            numbers: BTreeMap::new(alloc),
            policies: Seq::new(alloc),
            entries: 0,
        }
    }

    pub(crate) fn entries(&self) -> usize
        ensures { result ≡ entries_in self.now }
    {
        self.entries
    }

    /// The number of the table of a name.
    pub(crate) fn number_of(&self, name: &str) -> Option<u32>
        ensures { result ≡ number_if self.now.tables name.now }
    {
        self.numbers.get(name).copied()
    }

    /// The columns of the table of a name, and none where no table has it.
    pub(crate) fn columns_named(&self, name: &str) -> &[MappedColumn]
        ensures { columns_of result.now ≡ columns_named self.now.tables name.now }
    {
        match self.numbers.get(name) {
            None => &[],
            Some(number) => match self.tables.at(*number as usize) {
                Some(table) => table.columns.as_slice(),
                None => &[],
            },
        }
    }

    /// What was found, and a table of another name.
    pub(crate) fn with_table(self, alloc: Global, table: FoundTable) -> Result<Findings, AllocError>
        requires other { has_table self.tables table.name ≡ false }
        requires room { entries_in self + 1 + length table.columns ≤ 100000 }
        ensures { IfOk result (λ new. new ≡ with_table self table) }
    {
        let Findings {
            tables,
            numbers,
            policies,
            entries,
        } = self;
        let mut tables = tables;
        let mut numbers = numbers;
        let name = String::from_str(alloc, table.name.as_str())?;
        numbers.insert(name, tables.len() as u32)?;
        let entries = entries + 1 + table.columns.len();
        tables.push(table)?;
        Ok(Findings {
            tables,
            numbers,
            policies,
            entries,
        })
    }

    /// What was found, and a policy.
    pub(crate) fn with_policy(self, policy: PolicyShape) -> Result<Findings, AllocError>
        requires { entries_in self + 1 + length policy.tables + length policy.fields ≤ 100000 }
        ensures { IfOk result (λ new. new ≡ with_policy self policy) }
    {
        let Findings {
            tables,
            numbers,
            policies,
            entries,
        } = self;
        let mut policies = policies;
        let entries = entries + 1 + policy.tables.len() + policy.fields.len();
        policies.push(policy)?;
        Ok(Findings {
            tables,
            numbers,
            policies,
            entries,
        })
    }

    /// The tables and the policies that were found.
    pub(crate) fn into_parts(self) -> (Seq<FoundTable>, Seq<PolicyShape>)
        ensures tables { result.0 ≡ self.tables }
        ensures policies { result.1 ≡ self.policies }
    {
        (self.tables, self.policies)
    }
}
