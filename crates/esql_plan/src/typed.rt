use crate::Function;
use esql_types::{Cell, ColId, Kind, NodeId, Seq};

/// A typed expression over numbered columns: the number of its written node, its kind, and its form.
#[cycle(typed)]
#[derive(Drop)]
pub struct TypedExpr {
    pub node: NodeId,
    pub kind: Kind,
    pub form: TypedForm,
}

#[cycle(typed)]
#[derive(Drop)]
pub enum TypedForm {
    Constant {
        cell: Cell,
    },
    Column {
        id: ColId,
    },
    /// A function of parts. `pattern` is, for `Rlike` and `NotRlike`, the number of the pattern that is read from the second
    /// argument among those that are matched against whole texts; for `Replace` that among those that are searched for in a
    /// text; and `None` for every other function.
    Apply {
        function: Function,
        args: Seq<TypedExpr>,
        pattern: Option<u32>,
    },
}
