// Rows of a table, and the sums of two.
ghost use Rattle.std.specs.Prelude.{◌≡◌, ℕ, ◌+◌, ◌*◌, ◌≤◌, ◌<◌, length};
ghost use Rattle.linear.specs.Tuples.{unit};
ghost use Rattle.definitions.specs.System.{is_at_or_below};
ghost use Rattle.definitions.specs.Tables.{write_to};
ghost use Rattle.laws.specs.Pack.{pack_to};
ghost use Rattle.engine_spec.specs.Beside.{SmallRow, row_at};
ghost use Rattle.engine_spec.specs.Fresh.{put_at};
ghost use Rattle.engine_spec.specs.Reduction.{is_small};
ghost use Rattle.engine_spec.specs.Signs.{plus};
ghost use Rattle.engine_rows.specs.Packing.{always};

use engine_beside::places;

// Whether the row from place i is at or below the sum of the rows from places x and y.
pub fn below_sum(table: &[u32], i: usize, x: usize, y: usize, q: usize) -> bool
    requires { SmallRow q table.now x × SmallRow q table.now y × (i + q ≤ length table.now) }
    ensures { result ≡ is_at_or_below q (row_at table.now i) (plus (row_at table.now x) (row_at table.now y)) }
{
    places::at_every(q, |j| table[i + j] <= table[x + j] + table[y + j])
}

// Whether the row from place x is at or below the row from place y.
pub fn below(table: &[u32], x: usize, y: usize, q: usize) -> bool
    requires { (x + q ≤ length table.now) × (y + q ≤ length table.now) }
    ensures { result ≡ is_at_or_below q (row_at table.now x) (row_at table.now y) }
{
    places::at_every(q, |j| table[x + j] <= table[y + j])
}

// Whether no component of the sum of the rows from places x and y is above 1,000,000.
pub fn small_sum(table: &[u32], x: usize, y: usize, q: usize) -> bool
    requires { SmallRow q table.now x × SmallRow q table.now y }
    ensures { result ≡ is_small q (plus (row_at table.now x) (row_at table.now y)) }
{
    (0..q).all(|j| table[x + j] + table[y + j] <= calls::COMPONENT_LIMIT)
}

// Writes the sum of the rows from places x and y behind them, from place `to`.
pub fn append_sum(table: &mut [u32], x: usize, y: usize, to: usize, q: usize)
    requires { SmallRow q table.old x × SmallRow q table.old y × (x + q ≤ to) × (y + q ≤ to) × (to + q ≤ length table.old) }
    ensures { table.new ≡ write_to q table.old to (plus (row_at table.old x) (row_at table.old y)) }
{
    for j in 0..q {
        table[to + j] = table[x + j] + table[y + j];
    }
}

// Writes a row of q components into the table from place `base`.
fn write_row<F: Fn(usize) -> u32>(table: &mut [u32], base: usize, q: usize, component: F)
    requires { (base + q ≤ length table.old) × ((j : ℕ) → j < q → F.pre component j) }
    ensures { (x : ℕ → ℕ) → ((j y : ℕ) → j < q → F.post component j y → y ≡ x j) → table.new ≡ write_to q table.old base x }
{
    for j in 0..q {
        table[base + j] = component(j);
    }
}

// Writes the row that stands in `source` from place `from` into the table, from place `to`.
pub fn append_row(source: &[u32], from: usize, table: &mut [u32], to: usize, q: usize)
    requires { (from + q ≤ length source.now) × (to + q ≤ length table.old) }
    ensures { table.new ≡ write_to q table.old to (row_at source.now from) }
{
    write_row(table, to, q, |j| source[from + j]);
}

// The same with x at place f of the row.
pub fn append_filled(
    source: &[u32],
    from: usize,
    table: &mut [u32],
    to: usize,
    q: usize,
    f: usize,
    x: u32,
)
    requires { (from + q ≤ length source.now) × (to + q ≤ length table.old) }
    ensures { table.new ≡ write_to q table.old to (put_at f x (row_at source.now from)) }
{
    write_row(table, to, q, |j| put(source[from + j], j, f, x));
}

// x at place f, elsewhere y.
fn put(y: u32, j: usize, f: usize, x: u32) -> u32
    ensures { result ≡ put_at f x (λ _. y) j }
{
    if j == f { x } else { y }
}

// Copies the row that stands from place `from` to an earlier place.
pub fn copy(table: &mut [u32], from: usize, to: usize, q: usize)
    requires { (to ≤ from) × (from + q ≤ length table.old) }
    ensures { table.new ≡ write_to q table.old to (row_at table.old from) }
{
    for j in 0..q {
        table[to + j] = table[from + j];
    }
}

// Writes the unit tuples, from the first row on.
pub fn write_units(table: &mut [u32], q: usize)
    requires { q * q ≤ length table.old }
    ensures { table.new ≡ pack_to q q table.old 0 always unit }
{
    for i in 0..q {
        write_unit(table, i * q, q, i);
    }
}

// Writes the tuple with a single 1 at place i into the table from place `base`.
pub fn write_unit(table: &mut [u32], base: usize, q: usize, i: usize)
    requires { base + q ≤ length table.old }
    ensures { table.new ≡ write_to q table.old base (unit i) }
{
    write_row(table, base, q, |j| one_at(i, j));
}

// 1 at place i, 0 elsewhere.
fn one_at(i: usize, j: usize) -> u32
    ensures { result ≡ unit i j }
{
    if j == i { 1 } else { 0 }
}
