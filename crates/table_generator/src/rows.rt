ghost use Rattle.std.specs.Prelude.{◌≡◌, ◌≤◌, pos, [], ◌∷◌, IfOk};
ghost use Rattle.esql_types.specs.declared.value.Value.TheVariants.{Int, Long, Text as TextValue};
ghost use Rattle.table_generator.specs.Rows.{next_number, taken_of, department_of, cells_of, generated_rows};

use esql_types::{Cell, Seq, Text, Value};
use std::alloc::{AllocError, Global};

/// The row of each number from 1 to `rows`, with its cells in the order of the columns: dept (keyword), id (long) and pay
/// (integer).
///
/// Numbers of 64 bits follow one another from the seed by the generator of Knuth's MMIX; the upper bits of each tell a row.
pub fn generated_rows(alloc: Global, seed: u64, rows: u32) -> Result<Seq<Seq<Cell>>, AllocError>
    ensures { IfOk result (λ made. made ≡ generated_rows seed rows) }
{
    let mut made = Seq::new(alloc);
    let mut number = seed;
    for before in 0..rows {
        number = next_number(number);
        made.push(cells_of(alloc, before + 1, taken_of(number))?)?;
    }
    Ok(made)
}

fn next_number(number: u64) -> u64
    ensures { result ≡ next_number number }
{
    number
        .wrapping_mul(6364136223846793005)
        .wrapping_add(1442695040888963407)
}

/// What is taken of a number: its upper 31 bits.
fn taken_of(number: u64) -> u32
    ensures taken { result ≡ taken_of number }
    ensures small { result ≤ 2147483647 }
{
    (number / 8589934592) as u32
}

fn cells_of(alloc: Global, id: u32, taken: u32) -> Result<Seq<Cell>, AllocError>
    requires { taken ≤ 2147483647 }
    ensures { IfOk result (λ cells. cells ≡ cells_of id taken) }
{
    let department = Text::from_str(alloc, department_of(taken))?;
    let mut cells = Seq::new(alloc);
    cells.push(Cell::one(alloc, Value::Text(department)))?;
    cells.push(Cell::one(alloc, Value::Long(i64::from(id))))?;
    cells.push(Cell::one(alloc, Value::Int((taken % 100000) as i32)))?;
    Ok(cells)
}

fn department_of(taken: u32) -> &'static str
    ensures { result.now ≡ department_of taken }
{
    match taken % 7 {
        0 => "d0",
        1 => "d1",
        2 => "d2",
        3 => "d3",
        4 => "d4",
        5 => "d5",
        _ => "d6",
    }
}
