ghost use Rattle.std.specs.Prelude.{◌≡◌, IfOk};
ghost use Rattle.table_generator.specs.Words.{generated_query, generated_line};

use esql_types::Text;
use std::alloc::{AllocError, Global};

/// The query that is answered over the table.
pub fn generated_query() -> &'static str
    ensures { result.now ≡ generated_query }
{
    "FROM gen | WHERE pay >= 1000 | STATS n = COUNT(*), total = SUM(pay), top = MAX(pay) BY dept | SORT dept"
}

/// The line behind the answer, which says of what the table was made.
pub fn generated_line(alloc: Global, seed: u64, rows: u32) -> Result<Text, AllocError>
    ensures { IfOk result (λ line. line ≡ generated_line seed rows) }
{
    let mut out = String::new(alloc);
    write!(out, "generated {rows} rows from {seed}\n")?;
    Ok(Text::from_string(out))
}
