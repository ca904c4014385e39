use crate::{Kind, Text};

/// A column of a table: its name, whose case counts, and its kind.
#[derive(Debug, Drop)]
pub struct Column {
    pub name: Text,
    pub kind: Kind,
}

/// The number of a command or expression of a query: nodes are numbered from 0 in written order, the outer before the inner.
#[derive(Clone, Copy, Debug, PartialEq, Eq)]
pub struct NodeId(pub u32);

/// The number of a column of a plan.
#[derive(Clone, Copy, Debug, PartialEq, Eq)]
pub struct ColId(pub u32);
