// The values of rows under one equation.
ghost use Rattle.std.specs.Prelude.{◌≡◌, ◌≤◌, pos, length};
ghost use Rattle.linear.specs.Systems.{value};
ghost use Rattle.engine_spec.specs.Beside.{SmallEquation, SmallRow, SmallTable, Valued, equation_at, row_at};
ghost use Rattle.engine_beside.specs.Writing.{Kept};

use crate::places;

// The value of the row that stands in the table from place `base`.
pub fn value_at(coefs: &[i32], from: usize, table: &[u32], base: usize, q: usize) -> i64
    requires { SmallEquation q coefs.now from × SmallRow q table.now base }
    ensures { result ≡ value (equation_at coefs.now from) q (row_at table.now base) }
{
    table_rows::values::value_at(coefs, from, table, base, q)
}

// Writes those of the first n rows.
pub fn write_values(
    coefs: &[i32],
    from: usize,
    table: &[u32],
    n: usize,
    q: usize,
    values: &mut [i64],
)
    requires { SmallEquation q coefs.now from × SmallTable q n table.now × (n ≤ length values.old) }
    ensures { Valued (equation_at coefs.now from) q n table.now values.new
        × Kept (pos 0) n values.old values.new }
{
    places::write_first(values, n, |i| value_at(coefs, from, table, i * q, q));
}
