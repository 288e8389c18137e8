// The minimal ones of the rows kept, one behind the other.
ghost use Rattle.std.specs.Prelude.{◌≡◌, ◌*◌, ◌≤◌, ◌<◌, length};
ghost use Rattle.definitions.specs.Tables.{at};
ghost use Rattle.laws.specs.Sweep.{keeps};
ghost use Rattle.laws.specs.SweepTable.{stays_here};
ghost use Rattle.table_rows.specs.Keeping.{Kept};

use crate::rows;

// Keeps those of the first n rows that lie above no other and repeat no earlier one, and says how many.
pub fn sweep(table: &mut [u32], n: usize, q: usize) -> usize
    requires { n * q ≤ length table.old }
    ensures { Kept q n (keeps q n (at table.old q)) table.old table.new result }
{
    let mut kept = 0;
    for i in 0..n {
        if stays(table, n, q, kept, i) {
            rows::copy(table, i * q, kept * q, q);
            kept += 1;
        }
    }
    kept
}

// Whether row i stays: none of the first `kept` rows is at or below it, and no later row lies below it.
fn stays(table: &[u32], n: usize, q: usize, kept: usize, i: usize) -> bool
    requires { (n * q ≤ length table.now) × (kept ≤ i) × (i < n) }
    ensures { result ≡ stays_here q n (at table.now q) kept i }
{
    let base = i * q;
    !(0..kept).any(|m| rows::below(table, m * q, base, q))
        && !(i + 1..n).any(|k| rows::below(table, k * q, base, q)
            && !rows::below(table, base, k * q, q))
}
