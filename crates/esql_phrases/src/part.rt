use esql_ast::Expr;

/// An expression that was read, without the numbers of its nodes, with its depth and the last line of the grammar that it is in.
///
/// The lines are 0 `OR`, 1 `AND`, 2 `NOT`, 3 comparisons and tests, 4 `+ -`, 5 `* / %`, 6 the unary `-`, 7 `::` and
/// 8 what stands for itself. An expression of one line is one of each line before it.
#[derive(Drop)]
pub struct Part {
    pub expr: Expr,
    pub depth: u32,
    pub line: u8,
}
