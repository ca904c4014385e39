use esql_types::{ColId, NodeId};

/// The number of the column that stands for an aggregate call, which is known by its node.
#[derive(Clone, Copy, Debug, PartialEq, Eq)]
pub struct CallColumn {
    pub node: NodeId,
    pub id: ColId,
}
