// The value of a row under one equation.
ghost use Rattle.std.specs.Prelude.{◌≡◌};
ghost use Rattle.linear.specs.Systems.{value};
ghost use Rattle.table_rows.specs.Small.{SmallEquation, SmallRow, equation_at, row_at};

use products::{natural, sum_and, wide};

// The value of the row that stands in the table from place `base`.
pub fn value_at(coefs: &[i32], from: usize, table: &[u32], base: usize, q: usize) -> i64
    requires { SmallEquation q coefs.now from × SmallRow q table.now base }
    ensures { result ≡ value (equation_at coefs.now from) q (row_at table.now base) }
{
    let mut sum: i64 = 0;
    for j in 0..q {
        sum = sum_and(sum, wide(coefs[from + j]), natural(table[base + j]));
    }
    sum
}
