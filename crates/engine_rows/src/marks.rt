// Marks: a number kept with a row that answers for many pairs with it at once that their sum is reduced.
ghost use Rattle.std.specs.Prelude.{◌≡◌, ◌+◌, ◌*◌, ◌≤◌, ◌<◌, nat_abs, length};
ghost use Rattle.engine_spec.specs.Beside.{SmallTable, no_mark, value_limit};
ghost use Rattle.engine_spec.specs.Marks as marks;
ghost use Rattle.engine_rows.specs.Marking.{BoundedValues, MarksWritten, ValueMarked, is_opposed};

use crate::rows;
use engine_beside::places;

// No mark.
const NO_MARK: u64 = 18446744073709551615;

// The absolute value.
pub fn size(v: i64) -> u64
    requires { nat_abs v ≤ value_limit }
    ensures { result ≡ marks.size v }
{
    if v < 0 {
        let above = -v;
        above as u64
    } else {
        v as u64
    }
}

// Whether one is above 0 and the other below.
fn opposed(x: i64, y: i64) -> bool
    ensures { result ≡ is_opposed x y }
{
    if x < 0 {
        return 0 < y;
    }
    if 0 < x {
        return y < 0;
    }
    false
}

// Writes the marks of the first n rows, whose values are handed over. What `mothers` holds is a proposal for each: the place of a row of the
// other sign that lies at or below it. Where it is not, there is no mark.
pub fn write_marks(
    table: &[u32],
    values: &[i64],
    mothers: &[u32],
    n: usize,
    q: usize,
    marks: &mut [u64],
)
    requires { SmallTable q n table.now × BoundedValues n values.now × (n ≤ length mothers.now) × (n ≤ length marks.old) }
    ensures { MarksWritten q n table.now values.now marks.old marks.new }
{
    places::write_first(
        marks,
        n,
        |i| mark_by(table, values, n, q, i, mothers[i] as usize),
    );
}

// The mark that row m gives to row i.
fn mark_by(table: &[u32], values: &[i64], n: usize, q: usize, i: usize, m: usize) -> u64
    requires { SmallTable q n table.now × BoundedValues n values.now × (i < n) }
    ensures { result < no_mark → ValueMarked q n table.now values.now i result }
{
    if n <= m {
        return NO_MARK;
    }
    if !opposed(values[i], values[m]) {
        return NO_MARK;
    }
    if !rows::below(table, m * q, i * q, q) {
        return NO_MARK;
    }
    size(values[i]) + size(values[m])
}
