/// How the cells of a block are kept.
#[derive(Clone, Copy, Debug, PartialEq, Eq)]
pub enum BlockForm {
    /// One cell, which is that of each row.
    Constant,
    /// One value for each row.
    Vector,
    /// One place for each row, and a mask of the rows that have a value.
    Nullable,
    /// Any number of values for each row.
    Multi,
}
