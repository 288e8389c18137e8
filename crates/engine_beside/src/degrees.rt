// The degrees of rows: the sums of their components.
ghost use Rattle.std.specs.Prelude.{◌≡◌, ◌≤◌, ◌<◌, length};
ghost use Rattle.linear.specs.Tuples.{total};
ghost use Rattle.engine_spec.specs.Beside.{Measured, SmallRow, SmallTable, row_at};
ghost use Rattle.engine_beside.specs.Rising.{before, degree_at, is_rising};
ghost use Rattle.engine_beside.specs.Writing.{Kept};

use crate::places;

// The degree of the row that stands in the table from place `base`.
pub fn degree_at(table: &[u32], base: usize, q: usize) -> u32
    requires { (q ≤ 32) × SmallRow q table.now base }
    ensures { result ≡ total (row_at table.now base) q }
{
    let mut sum: u32 = 0;
    for j in 0..q {
        sum += table[base + j];
    }
    sum
}

// Writes those of the first n rows.
pub fn write_degrees(table: &[u32], n: usize, q: usize, degrees: &mut [u32])
    requires { SmallTable q n table.now × (n ≤ length degrees.old) }
    ensures { Measured q n table.now degrees.new × Kept 0 n degrees.old degrees.new }
{
    places::write_first(degrees, n, |i| degree_at(table, i * q, q));
}

// Whether each of the first n degrees is at least 1, and none is below the one before.
pub fn rising(degrees: &[u32], n: usize) -> bool
    requires { n ≤ length degrees.now }
    ensures { result ≡ is_rising n (degree_at degrees.now) }
{
    (0..n).all(|i| before(degrees, i) <= degrees[i])
}

// What degree i may not be below.
fn before(degrees: &[u32], i: usize) -> u32
    requires { i < length degrees.now }
    ensures { result ≡ before (degree_at degrees.now) i }
{
    if i == 0 { 1 } else { degrees[i - 1] }
}
