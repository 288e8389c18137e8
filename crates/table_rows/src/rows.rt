// Rows compared, copied within a table, out of it and into it, and within a limit.
ghost use Rattle.std.specs.Prelude.{◌≡◌, ◌+◌, ◌≤◌, leb, length};
ghost use Rattle.linear.specs.Tests.{all_to};
ghost use Rattle.definitions.specs.System.{is_at_or_below};
ghost use Rattle.definitions.specs.Tables.{write_to};
ghost use Rattle.table_rows.specs.Rows.{Holds, tuple};
ghost use Rattle.table_rows.specs.Small.{row_at};

// Whether no number of the row that stands in the table from place `base` is above the limit.
pub fn small_at(table: &[u32], base: usize, q: usize, limit: u32) -> bool
    requires { base + q ≤ length table.now }
    ensures { result ≡ all_to q (λ j. leb (row_at table.now base j) limit) }
{
    (0..q).all(|j| table[base + j] <= limit)
}

// Copies the row that stands from place `from` to an earlier place.
pub fn copy(table: &mut [u32], from: usize, to: usize, q: usize)
    requires { (to ≤ from) × (from + q ≤ length table.old) }
    ensures { table.new ≡ write_to q table.old to (row_at table.old from) }
{
    for j in 0..q {
        table[to + j] = table[from + j];
    }
}

// Whether the row from place x is at or below the row from place y.
pub fn below(table: &[u32], x: usize, y: usize, q: usize) -> bool
    requires { (x + q ≤ length table.now) × (y + q ≤ length table.now) }
    ensures { result ≡ is_at_or_below q (row_at table.now x) (row_at table.now y) }
{
    (0..q).all(|j| table[x + j] <= table[y + j])
}

// Copies the tuple of w numbers that stands in a table from place `base`.
pub fn read(table: &[u32], base: usize, w: usize, t: &mut [u32])
    requires { (w ≤ length t.old) × (base + w ≤ length table.now) }
    ensures { Holds w t.new table.now base }
{
    for j in 0..w {
        t[j] = table[base + j];
    }
}

// Writes the first w numbers of `t` into a table from place `base`.
pub fn write(table: &mut [u32], base: usize, w: usize, t: &[u32])
    requires { (w ≤ length t.now) × (base + w ≤ length table.old) }
    ensures { table.new ≡ write_to w table.old base (tuple t.now) }
{
    for j in 0..w {
        table[base + j] = t[j];
    }
}
